// Places as text: their names and numbers.
#![tactic(auto)]

pub mod place;
