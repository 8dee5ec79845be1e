// Theorems alone: document 01's values, and what the decoding comes to.
#![tactic(auto)]
