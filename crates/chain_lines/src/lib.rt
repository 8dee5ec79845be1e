// Where an unknown place came from, as text: the items of its chain with what stands between them, and the line for a place that has none.
#![tactic(auto)]

pub mod chain;
mod name;
pub mod place;
