// A register transfer as an assembler writes it.
#![tactic(auto)]

pub mod transfer;
