// Comparison of register words.
#![tactic(auto)]

pub mod compare;
