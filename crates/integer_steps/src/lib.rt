// Conversions from and to integers over lent singles.
#![tactic(auto)]

pub mod integer;
