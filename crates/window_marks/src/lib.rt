// The marks of a window's words: tested and counted in one pass.
#![tactic(auto)]

pub mod marks;
