// The coefficients of a function by order, read off its values at the places, in planes. It knows of no polynomials in z.
#![tactic(auto)]

pub mod fibres;
pub mod orders;
pub mod tables;

// The first lane of each four.
pub const MARKS: u64 = 0x1111_1111_1111_1111;
