// A load, a store or a pair as an assembler writes it.
#![tactic(auto)]

pub mod load_store;
