// The family of codes: a field of numbers, the Hermitian curve over it, its points by place, and encoding and reading back as evaluation
// and its inverse, for every field and every w. Definitions and laws, no code.
#![tactic(auto)]
