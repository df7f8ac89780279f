// Columns of costs and what document 01 reads off them, for any number of places: definitions and laws, no code.
// It knows of no field, no curve and no code: a word is a list of symbols, whatever they encode.
#![tactic(auto)]
