// What the words and marks of a state and of its window say of each place, and which place is unknown or changed next.
#![tactic(auto)]

pub mod place;
