// The two parts of the polynomial Q0 + Q1 z that a row of values holds, by order, and the bytes that show it. How a row is found, step by
// step or by elimination, is not known here: both ways lead through this crate.
#![tactic(auto)]

pub mod bytes;
pub mod orders;

// The bytes of a reading: Q0 by orders 0 to 64, Q1 by orders 0 to 32.
pub const READING: usize = 98;
