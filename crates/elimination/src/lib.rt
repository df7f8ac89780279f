// Interpolation by elimination: the terms of Q in rising order of keys, each as a row of its values at the places, the rows in echelon form by
// place, up to the first term that depends on the smaller ones. It knows of no costs and no tree, and shares no step with `basis`.
#![tactic(auto)]

pub mod reducing;
pub mod solving;
pub mod term;
