// Quotients by integer work on the bits, in every rounding mode.
#![tactic(auto)]

pub mod quotient;
