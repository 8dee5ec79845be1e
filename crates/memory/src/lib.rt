// Loads and stores as definitions, and the words of several registers over a lent window.
#![tactic(auto)]

pub mod words;
