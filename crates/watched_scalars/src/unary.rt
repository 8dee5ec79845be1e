// The unary words, compares and conversions of either precision, with their marks.
ghost use Rattle.std.specs.Prelude.{◌≡◌, ◌/◌, ◌%◌, ◌^◌, ◌<◌};
ghost use Rattle.decoding.specs.Operation.{number_of};
ghost use Rattle.processing.specs.Data.{Handled, named_tree};
ghost use Rattle.processing.specs.declared.Processed.TheVariants.{Done};
ghost use Rattle.processing_marks.specs.Marked.{Marked};

use crate::{Watched, after};
use compare_marks::compare::{mark_compare, mark_compare_zero};
use compare_steps::compare::{compare, compare_zero};
use conversion_marks::conversion::{MarkedConversion, mark_rounded, mark_truncated};
use decoding::operation::Operation;
use integer_steps::integer::{from_integer, round, truncate};
use machine::place::control_of;
use processing::operation::{Converted, Processable};
use register_fields::fields::{d_of, m_of};
use root_steps::root::root;
use sign_steps::sign::SignOperation;
use step_marks::{mark_root, mark_sign};

// FPSCR and the marks after a unary operation, a compare or a conversion.
pub fn watched_unary<R: Converted + MarkedConversion>(
    s: &mut [u32; 32],
    marks: u64,
    fpscr: u32,
    op: u32,
    o: Operation,
) -> Watched
where
    R::Word: Processable,
    requires { (9 < number_of o) × (fpscr / 2 ^ 16 % 8 ≡ 0) }
    ensures { Handled (named_tree R.Word.format op o) op s.old fpscr s.new (Done result.fpscr) × Marked (named_tree R.Word.format op o) fpscr marks result.marks }
{
    match o {
        Operation::Fcpy => {
            R::sign(s, SignOperation::Copy, d_of(op), m_of(op));
            after(fpscr, mark_sign::<R>(marks, op))
        }
        Operation::Fabs => {
            R::sign(s, SignOperation::Absolute, d_of(op), m_of(op));
            after(fpscr, mark_sign::<R>(marks, op))
        }
        Operation::Fneg => {
            R::sign(s, SignOperation::Negate, d_of(op), m_of(op));
            after(fpscr, mark_sign::<R>(marks, op))
        }
        Operation::Fsqrt => {
            let next = root::<R>(s, control_of(fpscr), fpscr, d_of(op), m_of(op));
            after(next, mark_root::<R>(marks, op))
        }
        Operation::Fcmp => {
            let next = compare::<R>(s, fpscr, false, d_of(op), m_of(op));
            after(next, mark_compare::<R>(marks, op))
        }
        Operation::Fcmpe => {
            let next = compare::<R>(s, fpscr, true, d_of(op), m_of(op));
            after(next, mark_compare::<R>(marks, op))
        }
        Operation::Fcmpz => {
            let next = compare_zero::<R>(s, fpscr, false, d_of(op));
            after(next, mark_compare_zero::<R>(marks, op))
        }
        Operation::Fcmpez => {
            let next = compare_zero::<R>(s, fpscr, true, d_of(op));
            after(next, mark_compare_zero::<R>(marks, op))
        }
        Operation::Fcvt => {
            let next = R::convert(s, fpscr, op);
            after(next, R::mark_convert(marks, op))
        }
        Operation::Fuito => {
            let next = from_integer::<R>(s, fpscr, false, d_of(op), m_of(op));
            after(next, R::mark_from_integer(marks, op))
        }
        Operation::Fsito => {
            let next = from_integer::<R>(s, fpscr, true, d_of(op), m_of(op));
            after(next, R::mark_from_integer(marks, op))
        }
        Operation::Ftoui => {
            let next = round::<R>(s, fpscr, false, d_of(op), m_of(op));
            after(next, mark_rounded::<R>(marks, op))
        }
        Operation::Ftouiz => {
            let next = truncate::<R>(s, fpscr, false, d_of(op), m_of(op));
            after(next, mark_truncated::<R>(marks, op))
        }
        Operation::Ftosi => {
            let next = round::<R>(s, fpscr, true, d_of(op), m_of(op));
            after(next, mark_rounded::<R>(marks, op))
        }
        Operation::Ftosiz => {
            let next = truncate::<R>(s, fpscr, true, d_of(op), m_of(op));
            after(next, mark_truncated::<R>(marks, op))
        }
        _ => after(fpscr, marks), // no unary word
    }
}
