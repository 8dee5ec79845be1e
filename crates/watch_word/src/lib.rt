// One watched word.
#![tactic(auto)]

pub mod word;
