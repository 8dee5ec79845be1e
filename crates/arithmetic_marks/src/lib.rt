// The marks of arithmetic, and of its iterations.
#![tactic(auto)]

pub mod arithmetic;
