// Which operation a data-processing word names.
#![tactic(auto)]

pub mod operation;
