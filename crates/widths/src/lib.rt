// Conversions of register words between the widths, as definitions, and single to double. The control word is FPSCR, of which only bits 25, 24 and 23:22 are looked at.
#![tactic(auto)]

pub mod convert;
