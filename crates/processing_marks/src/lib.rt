// The marks of stepping words: of moves and sign changes, and of what is raised.
#![tactic(auto)]

pub mod raised;
pub mod vector;
