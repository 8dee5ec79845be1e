// A word of data processing over lent singles, by its operation. Coprocessor 10 has singles, 11 doubles.
ghost use Rattle.processing.specs.Data.{Handled, convert_step, named_tree};
ghost use Rattle.short_vectors.specs.Register.{SteppedWith};

use crate::Processed;
use arithmetic_steps::arithmetic::arithmetic_vector;
use compare_steps::compare::{compare, compare_zero};
use comparisons::compare::Comparable;
use decoding::operation::{Operation, arithmetic_of};
use directed::step::Operated;
use integer_steps::integer::{from_integer, round, truncate};
use integers::integer::FromInteger;
use machine::place::control_of;
use register_fields::fields::{Named, d_of, m_of, n_of};
use registers::registers::{Double, Single};
use root_estimates::estimate::Rooted;
use root_steps::root::root_vector;
use sign_steps::sign::{SignOperation, Signed, sign_vector};
use to_integers::to::ToInteger;
use width_steps::width::{narrow_double, widen_single};

// A word of a width that each operation is defined on.
pub trait Processable: Operated + Rooted + Comparable + FromInteger + ToInteger {}

impl Processable for u32 {}

impl Processable for u64 {}

// A register of a precision, with the conversion from it to the other: VCVT names a register of each.
pub trait Converted: Named + Signed {
    fn convert(s: &mut [u32; 32], fpscr: u32, op: u32) -> u32
        ensures { SteppedWith (convert_step Self.Word.format op) fpscr s.old result s.new };
}

impl Converted for Single {
    fn convert(s: &mut [u32; 32], fpscr: u32, op: u32) -> u32 {
        widen_single(s, fpscr, d_of(op), m_of(op))
    }
}

impl Converted for Double {
    fn convert(s: &mut [u32; 32], fpscr: u32, op: u32) -> u32 {
        narrow_double(s, fpscr, d_of(op), m_of(op))
    }
}

// What the word came to: FPSCR after it, or Undefined with nothing changed. One arm for the arithmetic and one for each other operation:
// grouped, sign changes and conversions miss the bar of speed (docs/DECISIONS.md, "Decoding by table").
pub fn process<R: Converted>(s: &mut [u32; 32], fpscr: u32, op: u32, o: Operation) -> Processed
where
    R::Word: Processable,
    ensures { Handled (named_tree R.Word.format op o) op s.old fpscr s.new result }
{
    let control = control_of(fpscr);
    match o {
        Operation::Fmac
        | Operation::Fnmac
        | Operation::Fmsc
        | Operation::Fnmsc
        | Operation::Fmul
        | Operation::Fnmul
        | Operation::Fadd
        | Operation::Fsub
        | Operation::Fdiv => {
            let kind = arithmetic_of(o);
            let next = arithmetic_vector::<R>(s, fpscr, kind, d_of(op), n_of(op), m_of(op));
            Processed::Done(next)
        }
        Operation::Fcpy => {
            sign_vector::<R>(s, control, SignOperation::Copy, d_of(op), m_of(op));
            Processed::Done(fpscr)
        }
        Operation::Fabs => {
            sign_vector::<R>(s, control, SignOperation::Absolute, d_of(op), m_of(op));
            Processed::Done(fpscr)
        }
        Operation::Fneg => {
            sign_vector::<R>(s, control, SignOperation::Negate, d_of(op), m_of(op));
            Processed::Done(fpscr)
        }
        Operation::Fsqrt => {
            let next = root_vector::<R>(s, control, fpscr, d_of(op), m_of(op));
            Processed::Done(next)
        }
        Operation::Fcmp => {
            let next = compare::<R>(s, fpscr, false, d_of(op), m_of(op));
            Processed::Done(next)
        }
        Operation::Fcmpe => {
            let next = compare::<R>(s, fpscr, true, d_of(op), m_of(op));
            Processed::Done(next)
        }
        Operation::Fcmpz => {
            let next = compare_zero::<R>(s, fpscr, false, d_of(op));
            Processed::Done(next)
        }
        Operation::Fcmpez => {
            let next = compare_zero::<R>(s, fpscr, true, d_of(op));
            Processed::Done(next)
        }
        Operation::Fcvt => {
            let next = R::convert(s, fpscr, op);
            Processed::Done(next)
        }
        Operation::Fuito => {
            let next = from_integer::<R>(s, fpscr, false, d_of(op), m_of(op));
            Processed::Done(next)
        }
        Operation::Fsito => {
            let next = from_integer::<R>(s, fpscr, true, d_of(op), m_of(op));
            Processed::Done(next)
        }
        Operation::Ftoui => {
            let next = round::<R>(s, fpscr, false, d_of(op), m_of(op));
            Processed::Done(next)
        }
        Operation::Ftouiz => {
            let next = truncate::<R>(s, fpscr, false, d_of(op), m_of(op));
            Processed::Done(next)
        }
        Operation::Ftosi => {
            let next = round::<R>(s, fpscr, true, d_of(op), m_of(op));
            Processed::Done(next)
        }
        Operation::Ftosiz => {
            let next = truncate::<R>(s, fpscr, true, d_of(op), m_of(op));
            Processed::Done(next)
        }
        Operation::Undefined => Processed::Undefined,
    }
}
