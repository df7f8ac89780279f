// Columns of costs: best, second and gap, blank places, costs as bytes, from bit values and as a table, and the word of best symbols.
// A table of costs is a slice of 1,024 numbers, sixteen to a place; what a shorter slice lacks reads as 0.
#![tactic(auto)]

pub mod bits;
pub mod blank;
pub mod column;
pub mod costs;
pub mod word;
