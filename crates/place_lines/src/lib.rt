// What is told of a place after a run: that it is unknown, or what it was and is; and the exceptions by their names.
#![tactic(auto)]

pub mod exceptions;
pub mod place;
