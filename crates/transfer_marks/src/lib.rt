// The marks that register transfers leave, for the watched run: the machine's work is in crate `transfers`.
#![tactic(auto)]

pub mod single;
pub mod system;
