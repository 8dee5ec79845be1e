// From and to integers, which stand in singles. Each gives FPSCR with what was raised.
ghost use Rattle.short_vectors.specs.Register.{SteppedWith};
ghost use Rattle.integer_steps.specs.Integer.{from_step, truncate_step, round_step};

use integers::integer::FromInteger;
use machine::place::control_of;
use registers::register::Register;
use registers::registers::{Single, get_single, set_single};
use rounding::rounding::{Rounding, rounding_of};
use short_vectors::raise::raise;
use to_integers::to::{ToInteger, to_integer};

// d takes the integer that m holds, signed or not. As a single it is rounded by the mode of FPSCR 23:22; a double has room for each.
pub fn from_integer<R: Register>(
    s: &mut [u32; 32],
    fpscr: u32,
    signed: bool,
    d: R,
    m: Single,
) -> u32
where
    R::Word: FromInteger,
    ensures { SteppedWith (from_step R.Word.format signed (R.number d) m.0) fpscr s.old result s.new }
{
    let integer = get_single(s, m);
    let rounded = integers::integer::from_integer(control_of(fpscr), signed, integer);
    d.set(s, rounded.bits);
    raise(fpscr, rounded.exceptions)
}

// d takes m as an integer, towards zero, at the nearest end where it is out of range.
pub fn truncate<R: Register>(s: &mut [u32; 32], fpscr: u32, signed: bool, d: Single, m: R) -> u32
where
    R::Word: ToInteger,
    ensures { SteppedWith (truncate_step R.Word.format signed d.0 (R.number m)) fpscr s.old result s.new }
{
    let x = to_integer(Rounding::Zero, signed, m.get(s));
    set_single(s, d, x.bits);
    raise(fpscr, x.exceptions)
}

// The same by the mode of FPSCR 23:22.
pub fn round<R: Register>(s: &mut [u32; 32], fpscr: u32, signed: bool, d: Single, m: R) -> u32
where
    R::Word: ToInteger,
    ensures { SteppedWith (round_step R.Word.format signed d.0 (R.number m)) fpscr s.old result s.new }
{
    let x = to_integer(rounding_of(control_of(fpscr)), signed, m.get(s));
    set_single(s, d, x.bits);
    raise(fpscr, x.exceptions)
}
