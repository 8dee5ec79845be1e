// Conversions of register words from and to integers as definitions, and from integers.
#![tactic(auto)]

pub mod integer;
