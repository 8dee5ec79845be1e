// The arithmetic of one step by a rounding mode, and what it raises. The control word is FPSCR, of which only bits 25, 24 and 23:22 are looked at.
#![tactic(auto)]

pub mod negate;
pub mod step;
