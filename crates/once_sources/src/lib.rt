// Where an unknown place came from in a word of one step.
#![tactic(auto)]

pub mod word;
