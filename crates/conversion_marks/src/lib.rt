// The marks of conversions.
#![tactic(auto)]

pub mod conversion;
