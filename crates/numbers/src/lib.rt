// Arithmetic on register words at nearest even.
// The control word is FPSCR, of which only bit 24 is looked at.
#![tactic(auto)]

pub mod arithmetic;
