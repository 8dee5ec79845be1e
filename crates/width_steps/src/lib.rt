// Conversions between the widths over lent singles.
#![tactic(auto)]

pub mod width;
