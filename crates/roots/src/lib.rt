// Square roots as definitions, and a binary digit at a time.
#![tactic(auto)]

pub mod root;
