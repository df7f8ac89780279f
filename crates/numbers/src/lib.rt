// The numbers that a statement of a rate has. It knows of no page.
#![tactic(auto)]

pub mod chance;
pub mod sums;
