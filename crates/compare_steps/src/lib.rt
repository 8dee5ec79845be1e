// Compares over lent singles.
#![tactic(auto)]

pub mod compare;
