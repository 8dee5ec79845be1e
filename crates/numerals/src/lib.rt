// Numbers as text: hexadecimal and decimal digits, read and written.
#![tactic(auto)]

pub mod number;
