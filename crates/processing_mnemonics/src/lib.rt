// A data-processing word as an assembler writes it.
#![tactic(auto)]

pub mod data;
