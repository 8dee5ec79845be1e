// The marks of roots, and of their iterations.
#![tactic(auto)]

pub mod root;
