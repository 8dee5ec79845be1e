// The three calls of vfp.rs, by value: each takes the machine and hands it back with its exit. None looks at the condition.
#![tactic(auto)]

ghost use Rattle.std.specs.Prelude.{◌≡◌, List, ℕ, ◌+◌, ◌-◌, ◌%◌, ◌^◌};
ghost use Rattle.machine.specs.Place.{state};
ghost use Rattle.processing.specs.Data.{behind, data_tree};
ghost use Rattle.transfers.specs.Transfer.{transfer_tree};
ghost use Rattle.vfp.specs.Call.{answered, reply, load_store_reply};

use limits::limit::window_limit;
use machine::{Controls, Machine};
use processing::Processed;

// How a call ends.
#[derive(Clone, Copy)]
pub enum Exit {
    Nothing,
    Undefined { pc: u32, opcode: u32 },
    Branched,
    Refused(u8),
}

// The exit, and the machine handed back.
#[derive(Clone, Copy)]
pub struct Answer {
    pub exit: Exit,
    pub machine: Machine,
}

// Arithmetic, moves, compares and conversions (CDP on coprocessors 10 and 11).
pub fn data_processing(machine: Machine, op: u32) -> Answer
    ensures { (v : List ℕ) → answered result v ≡ reply (data_tree machine.thumb op) (state machine v) }
{
    let mut next = machine;
    let fpscr = machine.fpscr;
    let done = data_processing::word::data_processing(&mut next.s, fpscr, op);
    match done {
        Processed::Done(after) => {
            next.fpscr = after;
            Answer {
                exit: Exit::Nothing,
                machine: next,
            }
        }
        Processed::Undefined => {
            let pc = current_pc(machine.r[15], machine.thumb);
            Answer {
                exit: Exit::Undefined { pc, opcode: op },
                machine,
            }
        }
    }
}

// The address of the instruction, of r15: that is two words ahead of it, in Thumb two halfwords.
pub fn current_pc(r15: u32, thumb: bool) -> u32
    ensures { result ≡ (r15 + (2 ^ 32 - behind thumb)) % 2 ^ 32 }
{
    if thumb {
        return machine::address::minus(r15, 4);
    }
    machine::address::minus(r15, 8)
}

// Transfers between singles, system registers and core registers (MCR and MRC).
pub fn coprocessor_register(machine: Machine, op: u32) -> Answer
    ensures { (v : List ℕ) → answered result v ≡ reply (transfer_tree machine.thumb op) (state machine v) }
{
    let mut s = machine.s;
    let mut r = machine.r;
    let cpsr = machine.cpsr;
    let x = Controls {
        fpscr: machine.fpscr,
        fpexc: machine.fpexc,
        cpsr,
    };
    let done = transfers::coprocessor_register(&mut s, &mut r, x, machine.thumb, op);
    let y = done.controls;
    let flags = y.cpsr;
    let next = Machine {
        s,
        r,
        fpscr: y.fpscr,
        fpexc: y.fpexc,
        cpsr: flags,
        thumb: machine.thumb,
    };
    if done.branched {
        return Answer {
            exit: Exit::Branched,
            machine: next,
        };
    }
    Answer {
        exit: Exit::Nothing,
        machine: next,
    }
}

// Loads, stores and pairs (LDC and STC), over a window from a base on, which is refused outside its limits.
pub fn coprocessor_load_store(machine: Machine, window: &mut [u32], base: u32, op: u32) -> Answer
    ensures { answered result window.new ≡ load_store_reply base op (state machine window.old) }
{
    let limit = window_limit(base, window.len());
    if limit != 0 {
        return Answer {
            exit: Exit::Refused(limit),
            machine,
        };
    }
    let mut s = machine.s;
    let mut r = machine.r;
    load_stores::access::coprocessor_load_store(&mut s, &mut r, window, base, op);
    let cpsr = machine.cpsr;
    Answer {
        exit: Exit::Nothing,
        machine: Machine {
            s,
            r,
            fpscr: machine.fpscr,
            fpexc: machine.fpexc,
            cpsr,
            thumb: machine.thumb,
        },
    }
}
