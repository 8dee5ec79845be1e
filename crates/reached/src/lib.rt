// Definitions and laws: a watched run word by word, forward and walked back. No instruction stands here, and no code.
#![tactic(auto)]
