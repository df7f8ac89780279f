// Dividing Q0 by Q1 from the top order down, on arrays of 64 coefficients by order. It knows of no word, no rate and no cost.
#![tactic(auto)]

pub mod dividing;
pub mod leading;
