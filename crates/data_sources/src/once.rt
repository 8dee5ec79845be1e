// Words of one step: compares and conversions.
ghost use Rattle.std.specs.Prelude.{Bool, ◌<◌};
ghost use Rattle.chains.specs.Steps.{act_of};
ghost use Rattle.decoding.specs.Operation.{number_of};
ghost use Rattle.machine.specs.Place.{State};
ghost use Rattle.processing.specs.Data.{convert_step, operation_tree};
ghost use Rattle.short_vectors.specs.Vector.{precision};
ghost use Rattle.sources.specs.Source.{Tracing, Leading};

use decoding::operation::Operation;
use once_sources::word::{
    compare, compare_zero, from_integer, narrowed, rounded, truncated, widened,
};
use sources::Source;

// The operations from number 14 on.
pub(crate) fn once_source(marks: u64, double: bool, o: Operation, op: u32, q: u32) -> Source
    ensures { (thumb : Bool) (st : State) → 13 < number_of o → Leading (act_of (operation_tree thumb (precision double) op o) st) marks q result }
{
    match o {
        Operation::Fcmp | Operation::Fcmpe => compare(marks, double, op, q),
        Operation::Fcmpz | Operation::Fcmpez => compare_zero(marks, double, op, q),
        Operation::Fcvt => converted(marks, double, op, q),
        Operation::Fuito | Operation::Fsito => from_integer(marks, double, op, q),
        Operation::Ftoui | Operation::Ftosi => rounded(marks, double, op, q),
        Operation::Ftouiz | Operation::Ftosiz => truncated(marks, double, op, q),
        Operation::Undefined
        | Operation::Fmac
        | Operation::Fnmac
        | Operation::Fmsc
        | Operation::Fnmsc
        | Operation::Fmul
        | Operation::Fnmul
        | Operation::Fadd
        | Operation::Fsub
        | Operation::Fdiv
        | Operation::Fcpy
        | Operation::Fabs
        | Operation::Fneg
        | Operation::Fsqrt => Source::Kept,
    }
}

// Coprocessor 10 widens and 11 narrows.
fn converted(marks: u64, double: bool, op: u32, q: u32) -> Source
    ensures { Tracing (convert_step (precision double) op) marks q result }
{
    if double {
        return narrowed(marks, op, q);
    }
    widened(marks, op, q)
}
