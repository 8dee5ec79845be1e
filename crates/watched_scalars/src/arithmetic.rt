// The nine operations of arithmetic on the registers that a word names, by the operation's number, with their marks.
ghost use Rattle.std.specs.Prelude.{◌≡◌, ◌/◌, ◌%◌, ◌^◌, ◌<◌};
ghost use Rattle.decoding.specs.Operation.{operation_numbered};
ghost use Rattle.processing.specs.Data.{Handled, named_tree};
ghost use Rattle.processing.specs.declared.Processed.TheVariants.{Done};
ghost use Rattle.processing_marks.specs.Marked.{Marked};

use crate::{Watched, after};
use arithmetic_marks::arithmetic::mark_sum;
use arithmetic_steps::arithmetic::{quick_arithmetic, rounded_arithmetic};
use decoding::operation::{Operation, arithmetic_of};
use directed::step::Operated;
use register_fields::fields::{Named, d_of, m_of, n_of};
use register_marks::register::MarkedRegister;

// The operation as a number, as in the plain run: as an enum it misses the bar of speed (docs/DECISIONS.md, "Tried and left out").
pub fn watched_scalar<R: Named + MarkedRegister>(
    s: &mut [u32; 32],
    marks: u64,
    fpscr: u32,
    number: u8,
    op: u32,
) -> Watched
where
    R::Word: Operated,
    requires { (0 < number) × (number < 10) × (fpscr / 2 ^ 16 % 8 ≡ 0) }
    ensures { Handled (named_tree R.Word.format op (operation_numbered number)) op s.old fpscr s.new (Done result.fpscr) × Marked (named_tree R.Word.format op (operation_numbered number)) fpscr marks result.marks }
{
    let kind = arithmetic_of(Operation::from(number));
    let d: R = d_of(op);
    let n: R = n_of(op);
    let m: R = m_of(op);
    let known = mark_sum(marks, kind, d, n, m);
    if quick_arithmetic(s, fpscr, kind, number < 5, d, n, m) {
        return after(fpscr, known);
    }
    after(rounded_arithmetic(s, fpscr, kind, d, n, m), known)
}
