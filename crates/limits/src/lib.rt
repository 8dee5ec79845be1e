// When a call or a run is turned back: document 01's refusals, over numbers alone.
#![tactic(auto)]

pub mod limit;
