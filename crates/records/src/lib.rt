// The bytes of a recorded cycle as definitions, with their laws. No code.
#![tactic(auto)]
