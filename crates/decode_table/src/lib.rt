// The decode table, and a word's operation by it.
#![tactic(auto)]

pub mod table;
