// Definitions and theorems: where an unknown place of a watched run came from. No instruction stands here, and no code.
#![tactic(auto)]
