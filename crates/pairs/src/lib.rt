// The 64-bit transfers (vfp.rs `move_pair`), over lent registers.
#![tactic(auto)]

pub mod pair;
