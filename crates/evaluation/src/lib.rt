// Evaluation: the values of a function at all places at once, in planes, from the constant powers of x and the constant y by place.
// It knows of no message and no rate.
#![tactic(auto)]

pub mod powers;
pub mod sums;
pub mod value;
