// The nine operations of arithmetic on the registers that a word names, by the operation's number. They give FPSCR after it. Of
// operations 1 to 9 the first four accumulate.
ghost use Rattle.std.specs.Prelude.{◌≡◌, ◌/◌, ◌%◌, ◌^◌, ◌<◌};
ghost use Rattle.decoding.specs.Operation.{operation_numbered};
ghost use Rattle.processing.specs.Data.{Handled, named_tree};
ghost use Rattle.processing.specs.declared.Processed.TheVariants.{Done};

use arithmetic_steps::arithmetic::{quick_arithmetic, rounded_arithmetic};
use decoding::operation::{Operation, arithmetic_of};
use directed::step::Operated;
use register_fields::fields::{Named, d_of, m_of, n_of};

// The operation as a number: as an enum it misses the bar of speed, by a second jump (docs/DECISIONS.md, "Tried and left out").
pub fn scalar<R: Named>(s: &mut [u32; 32], fpscr: u32, number: u8, op: u32) -> u32
where
    R::Word: Operated,
    requires { (0 < number) × (number < 10) × (fpscr / 2 ^ 16 % 8 ≡ 0) }
    ensures { Handled (named_tree R.Word.format op (operation_numbered number)) op s.old fpscr s.new (Done result) }
{
    let kind = arithmetic_of(Operation::from(number));
    let d: R = d_of(op);
    let n: R = n_of(op);
    let m: R = m_of(op);
    if quick_arithmetic(s, fpscr, kind, number < 5, d, n, m) {
        return fpscr;
    }
    rounded_arithmetic(s, fpscr, kind, d, n, m)
}
