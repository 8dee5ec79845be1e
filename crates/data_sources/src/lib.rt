// Where an unknown place came from in a word of data processing.
#![tactic(auto)]

mod once;

ghost use Rattle.std.specs.Prelude.{◌≡◌, false, ◌+◌, ◌*◌, ◌≤◌, length};
ghost use Rattle.machine.specs.Place.{State};
ghost use Rattle.decoding.specs.Operation.{operation_of, operation_numbered, number_of};
ghost use Rattle.processing.specs.Data.{operation_tree, data_tree};
ghost use Rattle.short_vectors.specs.Vector.{precision};
ghost use Rattle.links.specs.Walked.{Walked};

use bits::field::bits;
use decoding::operation::Operation;
use links::{Back, link};
use machine::place::control_of;
use once::once_source;
use stepping_sources::stepping_back;

// From place q, unknown after the word of this index, with FPSCR and the marks as they were before it. n is the number of the word's operation, by which
// `stepping_act` goes, and k pairs are in the list.
pub fn data_back(
    marks: u64,
    fpscr: u32,
    n: u8,
    op: u32,
    q: u32,
    index: u32,
    pairs: &mut [u32],
    k: usize,
) -> Back
    requires { (n ≡ number_of (operation_of op)) × (2 * (k + 8) ≤ length pairs.old) }
    ensures { (st : State) → st.machine.fpscr ≡ fpscr → Walked (data_tree false op) st index marks q k pairs.old pairs.new result }
{
    let coproc = bits(op, 8, 11);
    if coproc == 10 {
        return operation_back(marks, fpscr, false, n, op, q, index, pairs, k);
    }
    if coproc == 11 {
        return operation_back(marks, fpscr, true, n, op, q, index, pairs, k);
    }
    Back { place: q, pairs: k }
}

// An operation of coprocessor 10 or 11. Numbers 1 to 13 are the stepping words.
fn operation_back(
    marks: u64,
    fpscr: u32,
    double: bool,
    n: u8,
    op: u32,
    q: u32,
    index: u32,
    pairs: &mut [u32],
    k: usize,
) -> Back
    requires { (n ≡ number_of (operation_of op)) × (2 * (k + 8) ≤ length pairs.old) }
    ensures { (st : State) → st.machine.fpscr ≡ fpscr → Walked (operation_tree false (precision double) op (operation_numbered n)) st index marks q k pairs.old pairs.new result }
{
    if n == 0 {
        return Back { place: q, pairs: k };
    }
    if n < 14 {
        return stepping_back(marks, control_of(fpscr), double, n, op, q, index, pairs, k);
    }
    let s = once_source(marks, double, Operation::from(n), op, q);
    link(pairs, k, index, q, s)
}
