// The place that a load, a store or a pair hangs on.
#![tactic(auto)]

pub mod access;
