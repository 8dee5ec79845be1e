// The class of a word of a run: what is no VFP instruction, what is skipped, and which words need no enabled unit.
#![tactic(auto)]

pub mod class;
pub mod enable;
pub mod foreign;
