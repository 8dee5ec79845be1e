// The words of a period as they are given out: the shares first, then what remains, whole rounds at once.
#![tactic(auto)]

pub mod phase;
