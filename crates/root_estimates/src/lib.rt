// Estimates of a square root.
#![tactic(auto)]

pub mod estimate;
