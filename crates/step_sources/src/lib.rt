// Where an unknown place came from in a step of arithmetic, of a root, a move or a sign change.
#![tactic(auto)]

pub mod step;
pub mod unknown;
