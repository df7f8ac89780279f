// What a word costs over all places, where it differs, and the report's bytes. It knows of no code: a word is 64
// symbols, whatever they encode.
#![tactic(auto)]

pub mod report;
pub mod total;
