// Interpolation: the basis of the polynomials Q0 + Q1 z that vanish at the places given, and the least of them. It knows of no costs
// and no session. M is the weight of z and the limit a key, so no rate is named.
#![tactic(auto)]

pub mod lowest;
pub mod node;
pub mod settle;
pub mod start;

pub const PLACES: usize = 64;

// The largest key of a polynomial whose parts are read off their values at the places: no order above 63.
pub const LIMIT: usize = 127;
