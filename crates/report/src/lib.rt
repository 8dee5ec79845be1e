// What is told of a run that ended: its stop, and how much of the list was run.
#![tactic(auto)]

pub mod line;
