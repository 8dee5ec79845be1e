// The three calls of vfp.rs as they stand in Rust, over a lent machine: each calls the function by value and stores the machine back.
#![tactic(auto)]

ghost use Rattle.std.specs.Prelude.{◌≡◌, List, ℕ};
ghost use Rattle.machine.specs.Place.{state};
ghost use Rattle.processing.specs.Data.{data_tree};
ghost use Rattle.transfers.specs.Transfer.{transfer_tree};
ghost use Rattle.vfp.specs.Call.{reply, load_store_reply};
ghost use Rattle.lent.specs.Reply.{lent_reply};

use machine::Machine;
use vfp::Exit;

// Arithmetic, moves, compares and conversions (CDP on coprocessors 10 and 11).
pub fn data_processing(cpu: &mut Machine, op: u32) -> Exit
    ensures { (v : List ℕ) → lent_reply result (state cpu.new v) ≡ reply (data_tree cpu.old.thumb op) (state cpu.old v) }
{
    let answer = vfp::data_processing(*cpu, op);
    *cpu = answer.machine;
    answer.exit
}

// Transfers between singles, system registers and core registers (MCR and MRC).
pub fn coprocessor_register(cpu: &mut Machine, op: u32) -> Exit
    ensures { (v : List ℕ) → lent_reply result (state cpu.new v) ≡ reply (transfer_tree cpu.old.thumb op) (state cpu.old v) }
{
    let answer = vfp::coprocessor_register(*cpu, op);
    *cpu = answer.machine;
    answer.exit
}

// Loads, stores and pairs (LDC and STC), over a window from a base on, which is refused outside its limits.
pub fn coprocessor_load_store(cpu: &mut Machine, window: &mut [u32], base: u32, op: u32) -> Exit
    ensures { lent_reply result (state cpu.new window.new) ≡ load_store_reply base op (state cpu.old window.old) }
{
    let answer = vfp::coprocessor_load_store(*cpu, window, base, op);
    *cpu = answer.machine;
    answer.exit
}
