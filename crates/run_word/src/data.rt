// A word of data processing in a run.
ghost use Rattle.std.specs.Prelude.{◌≡◌, false, List, ℕ};
ghost use Rattle.bits.specs.Field.{field};
ghost use Rattle.machine.specs.Machine.{assembled};
ghost use Rattle.machine.specs.Place.{state};
ghost use Rattle.meaning.specs.Tree.{out, plain};
ghost use Rattle.decoding.specs.Operation.{operation_of};
ghost use Rattle.decoding.specs.Table.{operation_table};
ghost use Rattle.processing.specs.Data.{data_tree};
ghost use Rattle.run_word.specs.Stop.{next_of};
ghost use Rattle.run_word.specs.declared.Next.TheVariants.{On};

use super::word::Executed;
use super::{Next, Stop};
use bits::field::bit;
use decode_table::table::number;
use decoding::operation::Operation;
use machine::Controls;
use processing::Processed;
use registers::registers::{Double, Single};
use scalars::arithmetic::scalar;
use scalars::unary::unary;
use vfp::current_pc;

// By the number of its operation: as an enum it misses the bar of speed, by a second jump (docs/DECISIONS.md, "Tried and left out"). A scalar, where LEN is 0,
// needs none of the vectors' loops.
pub(crate) fn process_data(
    table: &[u8; 1024],
    s: &mut [u32; 32],
    r: &[u32; 16],
    x: Controls,
    op: u32,
) -> Executed
    requires { (table.now ≡ operation_table) × (field op 9 11 ≡ 0b101) }
    ensures { (v : List ℕ) → out (state (assembled s.new r.now result.controls false) v) (next_of result.next) ≡ plain (data_tree false op) (state (assembled s.old r.now x false) v) }
{
    let n = number(table, op);
    if n == 0 {
        return steps(s, r, x, Operation::from(n), op); // Undefined
    }
    let fpscr = x.fpscr;
    if fpscr / 0x1_0000 % 8 != 0 {
        return steps(s, r, x, Operation::from(n), op);
    }
    if n < 10 {
        if bit(op, 8) {
            return done(x, scalar::<Double>(s, fpscr, n, op));
        }
        return done(x, scalar::<Single>(s, fpscr, n, op));
    }
    if bit(op, 8) {
        return done(x, unary::<Double>(s, fpscr, op, Operation::from(n)));
    }
    done(x, unary::<Single>(s, fpscr, op, Operation::from(n)))
}

// Any word, with its iterations.
fn steps(s: &mut [u32; 32], r: &[u32; 16], x: Controls, o: Operation, op: u32) -> Executed
    requires { o ≡ operation_of op }
    ensures { (v : List ℕ) → out (state (assembled s.new r.now result.controls false) v) (next_of result.next) ≡ plain (data_tree false op) (state (assembled s.old r.now x false) v) }
{
    let after = data_processing::word::process(s, x.fpscr, o, op);
    match after {
        Processed::Done(fpscr) => done(x, fpscr),
        Processed::Undefined => {
            let pc = current_pc(r[15], false);
            Executed {
                controls: x,
                next: Next::Halt(Stop::Undefined { pc, opcode: op }),
            }
        }
    }
}

// The run goes on, with FPSCR as the word left it.
fn done(x: Controls, fpscr: u32) -> Executed
    ensures { (result.controls ≡ record { fpscr = fpscr; fpexc = x.fpexc; cpsr = x.cpsr }) × (result.next ≡ On) }
{
    let cpsr = x.cpsr;
    Executed {
        controls: Controls {
            fpscr,
            fpexc: x.fpexc,
            cpsr,
        },
        next: Next::On,
    }
}
