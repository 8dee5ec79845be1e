// The place that a word of data processing hangs on.
#![tactic(auto)]

pub mod data;
