// Which registers a data-processing word names.
#![tactic(auto)]

pub mod fields;
