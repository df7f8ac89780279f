// Polynomials Q0 + Q1 z by their values at the places, for every member: Kötter's step on values, and the start basis. It knows of no planes and no array.
#![tactic(auto)]
