// The marks of registers, for the watched run.
#![tactic(auto)]

pub mod register;
