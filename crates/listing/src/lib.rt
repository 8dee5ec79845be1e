// What a line of a list says.
#![tactic(auto)]

pub mod line;
