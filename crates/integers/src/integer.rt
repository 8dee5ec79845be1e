// Integers' words as floats, by integer work on the bits.
ghost use Rattle.std.specs.Prelude.{◌≡◌, cond, ◌<◌, ◌^◌};
ghost use Rattle.std.specs.Float.{binary64};
ghost use Rattle.packing.specs.Pack.{IsSettled};
ghost use Rattle.rounding.specs.Lift.{Lifted};
ghost use Rattle.rounding.specs.Rounding.{rounding_of};
ghost use Rattle.rounding.specs.declared.rounding.Rounding.{Rounding};
ghost use Rattle.exceptions.specs.Exceptions.{inexact};
ghost use Rattle.integers.specs.Integer.{from_integer, from_integer_exceptions};

use exceptions::exceptions::{Raised, settled};
use floats::precision::Precision;
use narrowing::narrow::shorten;
use packing::pack::{Settled, settle, sign};
use rounding::lift::lift;
use rounding::rounding::{Rounding, rounding_of};

// A width, and how a whole number comes to a word of it, rounded, once it is moved up to 53 digits.
pub trait FromInteger: Precision {
    fn fitted(control: u32, negative: bool, n: u64, up: u64) -> Settled<Self>
        requires { (n < 2 ^ 53) × Lifted n up }
        ensures { IsSettled (rounding_of control) Self.format negative n 1 (Self.number result.bits) result.exact result.over result.tiny };
}

// As a single it drops 29 of the 53 digits, in one cut, and is never too large.
impl FromInteger for u32 {
    fn fitted(control: u32, negative: bool, n: u64, up: u64) -> Settled<u32> {
        let c = shorten(control, negative, n << up);
        Settled {
            bits: (sign::<u32>(negative) + ((178 - up) * 0x80_0000 + c.kept)) as u32,
            exact: c.exact,
            over: false,
            tiny: false,
        }
    }
}

// A double keeps all 53, so that no mode changes it.
impl FromInteger for u64 {
    fn fitted(_control: u32, negative: bool, n: u64, up: u64) -> Settled<u64> {
        let r = settle(Rounding::Nearest, negative, (n << up) * 512, 2200 - up);
        Settled {
            bits: r.bits,
            exact: true,
            over: false,
            tiny: false,
        }
    }
}

// A whole number as a float, rounded.
fn whole<W: FromInteger>(control: u32, negative: bool, n: u64) -> Settled<W>
    requires { n < 2 ^ 53 }
    ensures { IsSettled (rounding_of control) W.format negative n 1 (W.number result.bits) result.exact result.over result.tiny }
{
    if n == 0 {
        return settle(rounding_of(control), negative, 0, 0);
    }
    let up = lift(n);
    W::fitted(control, negative, n, up)
}

// It is inexact where something was left.
fn raised<W: Precision>(r: Settled<W>) -> Raised<W>
    ensures { (result.bits ≡ r.bits) × (result.exceptions ≡ cond r.exact 0 inexact) }
{
    Raised {
        bits: r.bits,
        exceptions: settled(r.exact, false, false),
    }
}

// An integer's word, signed or not, as a float. A double has room for every integer, so that no mode changes it and nothing is raised.
pub fn from_integer<W: FromInteger>(control: u32, signed: bool, w: u32) -> Raised<W>
    ensures word { W.number result.bits ≡ from_integer W.format (rounding_of control) signed w }
    ensures every_mode { W.format ≡ binary64 → (mode : Rounding) → W.number result.bits ≡ from_integer binary64 mode signed w }
    ensures raised { result.exceptions ≡ from_integer_exceptions W.format signed w }
{
    let n = w as u64;
    let negative = signed & (n >= 0x8000_0000);
    if negative {
        return raised(whole(control, true, 0x1_0000_0000 - n));
    }
    raised(whole(control, false, n))
}
