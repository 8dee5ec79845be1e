// Where the lines of a text end, and where the words of a line stand.
#![tactic(auto)]

pub mod token;
