// What is computed from columns of costs, for any number of places and symbols: facts that the functions of every modem cite, no code.
// It knows of no field, no code and no struct: arrays are lists, and what a struct holds is given by its fields.
#![tactic(auto)]
