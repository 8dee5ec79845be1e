// The marks of data processing: the watched run's half beside crate processing.
#![tactic(auto)]

mod word;

ghost use Rattle.std.specs.Prelude.{◌≡◌};
ghost use Rattle.decoding.specs.Operation.{operation_of};
ghost use Rattle.processing.specs.Data.{named_tree, data_tree};
ghost use Rattle.processing_marks.specs.Marked.{Marked};

use bits::field::bits;
use compare_marks::compare::{mark_compare, mark_compare_zero};
use conversion_marks::conversion::{MarkedConversion, mark_rounded, mark_truncated};
use decoding::operation::{Operation, arithmetic_of};
use machine::place::control_of;
use registers::registers::{Double, Single};
use word::{mark_arithmetic, mark_roots, mark_signs};

pub fn mark_data(marks: u64, fpscr: u32, o: Operation, op: u32) -> u64
    requires { o ≡ operation_of op }
    ensures { Marked (λ thumb. data_tree thumb op) fpscr marks result }
{
    let coproc = bits(op, 8, 11);
    if coproc == 10 {
        return mark_operation::<Single>(marks, fpscr, o, op);
    }
    if coproc == 11 {
        return mark_operation::<Double>(marks, fpscr, o, op);
    }
    marks
}

// An operation of coprocessor 10 or 11.
fn mark_operation<R: MarkedConversion>(marks: u64, fpscr: u32, o: Operation, op: u32) -> u64
    ensures { Marked (named_tree R.Word.format op o) fpscr marks result }
{
    let control = control_of(fpscr);
    match o {
        Operation::Fmac
        | Operation::Fnmac
        | Operation::Fmsc
        | Operation::Fnmsc
        | Operation::Fmul
        | Operation::Fnmul
        | Operation::Fadd
        | Operation::Fsub
        | Operation::Fdiv => mark_arithmetic::<R>(marks, control, arithmetic_of(o), op),
        Operation::Fcpy | Operation::Fabs | Operation::Fneg => mark_signs::<R>(marks, control, op),
        Operation::Fsqrt => mark_roots::<R>(marks, control, op),
        Operation::Fcmp | Operation::Fcmpe => mark_compare::<R>(marks, op),
        Operation::Fcmpz | Operation::Fcmpez => mark_compare_zero::<R>(marks, op),
        Operation::Fcvt => R::mark_convert(marks, op),
        Operation::Fuito | Operation::Fsito => R::mark_from_integer(marks, op),
        Operation::Ftoui | Operation::Ftosi => mark_rounded::<R>(marks, op),
        Operation::Ftouiz | Operation::Ftosiz => mark_truncated::<R>(marks, op),
        Operation::Undefined => marks,
    }
}
