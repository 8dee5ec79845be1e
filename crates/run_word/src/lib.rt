// One word of a run: what follows it, and why a run stops.
#![tactic(auto)]

mod data;
pub mod word;

// Why a run stopped. A plain run never hangs.
#[derive(Clone, Copy)]
pub enum Stop {
    Finished,
    Foreign,
    Undefined { pc: u32, opcode: u32 },
    Branched,
    Hangs(usize),
    Refused(u8),
}

// What follows a word: the next one, a stop after it, or a stop before it.
#[derive(Clone, Copy)]
pub enum Next {
    On,
    Last,
    Halt(Stop),
}
