// Data processing of scalars: where FPSCR's LEN is 0 no word steps, and the plain run takes it ahead of the vectors' loops.
#![tactic(auto)]

pub mod arithmetic;
pub mod unary;
