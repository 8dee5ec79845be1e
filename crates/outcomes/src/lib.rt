// What the exported functions leave of the buffers lent to them, as definitions, and what is promised of it, proved. No code.
#![tactic(auto)]
