// Register words as integers.
#![tactic(auto)]

pub mod to;
