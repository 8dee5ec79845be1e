// The layout of a machine in 53 words, places 0 to 52 in order.
#![tactic(auto)]

pub mod state;
