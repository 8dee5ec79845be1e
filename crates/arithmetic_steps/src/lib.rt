// Arithmetic over lent singles, and its iterations over short vectors.
#![tactic(auto)]

pub mod arithmetic;
