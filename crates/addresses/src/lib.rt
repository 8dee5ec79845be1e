// What a load, a store or a pair goes by: the addresses and the number of registers, the two words of a double, and whether it moves a block.
#![tactic(auto)]

pub mod address;
pub mod contiguous;
pub mod halves;
