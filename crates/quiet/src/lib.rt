// Where a native result shows by its word that nothing was raised, or inexact alone.
#![tactic(auto)]

pub mod quick;
