// Functions on the curve as bytes by order and as values by place: division, coefficients and values by sums, Horner's rule and powers, for
// every member of the family. Definitions and laws, no code; how values are kept is not known here.
#![tactic(auto)]
