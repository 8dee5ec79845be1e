// Correct rounding, stated of the words that come out and proved: what a reader believes without following an algorithm. No code.
#![tactic(auto)]
