// Data processing over lent singles, by the operation that the decode table names, in both precisions.
#![tactic(auto)]

pub mod word;
