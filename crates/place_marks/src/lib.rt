// The marks of places, for the watched run: those of the places before the window are one word, bit p for place p, and each window word has a byte.
#![tactic(auto)]

pub mod place;
pub mod window;
