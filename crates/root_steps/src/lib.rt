// Square roots over lent singles, and their iterations over short vectors.
#![tactic(auto)]

pub mod root;
