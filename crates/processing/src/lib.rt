// What a word of data processing means, as definitions, and what it does over lent singles.
#![tactic(auto)]

pub mod operation;

// What a word came to: FPSCR after it, or Undefined. No `Option`: the case without FPSCR has a name of its own, by which both runs go on.
#[derive(Clone, Copy, Debug, PartialEq, Eq)]
pub enum Processed {
    Done(u32),
    Undefined,
}
