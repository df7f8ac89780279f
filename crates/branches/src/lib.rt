// One test word for both engines: what the tree finds for it, and calls of the elimination engine answered with that beside them.
#![tactic(auto)]

pub mod branch;
pub mod requests;
