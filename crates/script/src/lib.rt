// What a text of items says, laid out as a watched run takes it: the words and marks of the state and of the window, and the list.
#![tactic(auto)]

pub mod item;
pub mod mistake;
pub mod text;
