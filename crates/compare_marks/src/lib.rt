// The marks of compares.
#![tactic(auto)]

pub mod compare;
