// A text of limited length that is printed into.
#![tactic(auto)]

pub mod text;
