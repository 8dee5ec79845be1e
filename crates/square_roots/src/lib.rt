// Square roots of register words.
#![tactic(auto)]

pub mod word;
