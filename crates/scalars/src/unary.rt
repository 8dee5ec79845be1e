// The unary words, compares and conversions of either precision.
ghost use Rattle.std.specs.Prelude.{◌≡◌, ◌/◌, ◌%◌, ◌^◌, ◌<◌};
ghost use Rattle.decoding.specs.Operation.{number_of};
ghost use Rattle.processing.specs.Data.{Handled, named_tree};
ghost use Rattle.processing.specs.declared.Processed.TheVariants.{Done};

use compare_steps::compare::{compare, compare_zero};
use decoding::operation::Operation;
use integer_steps::integer::{from_integer, round, truncate};
use machine::place::control_of;
use processing::operation::{Converted, Processable};
use register_fields::fields::{d_of, m_of};
use root_steps::root::root;
use sign_steps::sign::SignOperation;

// FPSCR after a unary operation, a compare or a conversion.
pub fn unary<R: Converted>(s: &mut [u32; 32], fpscr: u32, op: u32, o: Operation) -> u32
where
    R::Word: Processable,
    requires { (9 < number_of o) × (fpscr / 2 ^ 16 % 8 ≡ 0) }
    ensures { Handled (named_tree R.Word.format op o) op s.old fpscr s.new (Done result) }
{
    match o {
        Operation::Fcpy => {
            R::sign(s, SignOperation::Copy, d_of(op), m_of(op));
            fpscr
        }
        Operation::Fabs => {
            R::sign(s, SignOperation::Absolute, d_of(op), m_of(op));
            fpscr
        }
        Operation::Fneg => {
            R::sign(s, SignOperation::Negate, d_of(op), m_of(op));
            fpscr
        }
        Operation::Fsqrt => root::<R>(s, control_of(fpscr), fpscr, d_of(op), m_of(op)),
        Operation::Fcmp => compare::<R>(s, fpscr, false, d_of(op), m_of(op)),
        Operation::Fcmpe => compare::<R>(s, fpscr, true, d_of(op), m_of(op)),
        Operation::Fcmpz => compare_zero::<R>(s, fpscr, false, d_of(op)),
        Operation::Fcmpez => compare_zero::<R>(s, fpscr, true, d_of(op)),
        Operation::Fcvt => R::convert(s, fpscr, op),
        Operation::Fuito => from_integer::<R>(s, fpscr, false, d_of(op), m_of(op)),
        Operation::Fsito => from_integer::<R>(s, fpscr, true, d_of(op), m_of(op)),
        Operation::Ftoui => round::<R>(s, fpscr, false, d_of(op), m_of(op)),
        Operation::Ftouiz => truncate::<R>(s, fpscr, false, d_of(op), m_of(op)),
        Operation::Ftosi => round::<R>(s, fpscr, true, d_of(op), m_of(op)),
        Operation::Ftosiz => truncate::<R>(s, fpscr, true, d_of(op), m_of(op)),
        _ => fpscr, // no unary word
    }
}
