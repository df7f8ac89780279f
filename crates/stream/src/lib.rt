// A stream of calls: how a call and its answer stand in bytes, and the answer to each call. It knows a session only by the calls of `runs`.
#![tactic(auto)]

pub mod bytes;
pub mod replies;
