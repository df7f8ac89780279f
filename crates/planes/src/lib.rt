// Values at the 64 places, kept in bit planes: bit p of plane b is bit b of the value at place p, so that one operation on a plane works
// at all places. It knows of no polynomials and no word.
#![tactic(auto)]

pub mod constants;
pub mod lanes;
pub mod rows;
pub mod words;

pub const PLACES: usize = 64;

// The elements at the places: a plane for each of their four bits, lowest first.
pub type Planes = [u64; 4];
