// What a search for the nearest codeword finds, and why, for every member: definitions and theory, no code. It knows of no array, no planes and no struct: rows
// are values by part and place, and a finding is its fields.
#![tactic(auto)]
