// Floats as integers' words, by integer work on the bits.
ghost use Rattle.std.specs.Prelude.{◌≡◌};
ghost use Rattle.std.specs.Float.{binary64};
ghost use Rattle.std.specs.Float.Ieee.{of_bits};
ghost use Rattle.integers.specs.Integer.{clamped, to_integer, outside, clamped_exceptions, to_integer_exceptions};

use exceptions::exceptions::{INVALID, Raised, settled};
use floats::precision::Precision;
use rounding::rounding::{Rounding, cut, least};
use widths::convert::widen;

// A width whose words become integers as the double of the same value does. A single is widened, which loses nothing.
pub trait ToInteger: Precision {
    fn as_double(self) -> u64
        ensures { of_bits binary64 result ≡ of_bits Self.format (Self.number self) };
}

impl ToInteger for u32 {
    fn as_double(self) -> u64 {
        widen(0, self).bits
    }
}

impl ToInteger for u64 {
    fn as_double(self) -> u64 {
        self
    }
}

// A whole number of the given sign as a word, brought to the nearest end of the range.
fn clamp(signed: bool, negative: bool, n: u64) -> u32
    ensures { result ≡ clamped signed negative n }
{
    if signed {
        if negative {
            let size = least(n, 0x8000_0000);
            return ((0x1_0000_0000 - size) % 0x1_0000_0000) as u32;
        }
        return least(n, 0x7FFF_FFFF) as u32;
    }
    if negative {
        return 0;
    }
    least(n, 0xFFFF_FFFF) as u32
}

fn is_outside(signed: bool, negative: bool, n: u64) -> bool
    ensures { result ≡ outside signed negative n }
{
    if signed {
        if negative {
            return n > 0x8000_0000;
        }
        return n >= 0x8000_0000;
    }
    if negative {
        return n > 0;
    }
    n >= 0x1_0000_0000
}

// The word, and what it raises: a size outside the range is invalid, and not inexact.
fn clamp_raised(signed: bool, negative: bool, n: u64, exact: bool) -> Raised<u32>
    ensures { (result.bits ≡ clamped signed negative n) × (result.exceptions ≡ clamped_exceptions signed negative n exact) }
{
    if is_outside(signed, negative, n) {
        return Raised {
            bits: clamp(signed, negative, n),
            exceptions: INVALID,
        };
    }
    Raised {
        bits: clamp(signed, negative, n),
        exceptions: settled(exact, false, false),
    }
}

// A double's bits as an integer's word.
fn double_to_integer(mode: Rounding, signed: bool, b: u64) -> Raised<u32>
    ensures { (result.bits ≡ to_integer binary64 mode signed b) × (result.exceptions ≡ to_integer_exceptions binary64 mode signed b) }
{
    let negative = b >= 0x8000_0000_0000_0000;
    let field = b % 0x8000_0000_0000_0000 / 0x10_0000_0000_0000;
    let t = b % 0x10_0000_0000_0000;
    if field == 2047 {
        if t == 0 {
            return clamp_raised(signed, negative, 0x1_0000_0000, true);
        }
        return Raised {
            bits: 0,
            exceptions: INVALID,
        };
    }
    if field == 0 {
        let c = cut(mode, negative, t, 63);
        return clamp_raised(signed, negative, c.kept, c.exact);
    }
    if field > 1054 {
        return clamp_raised(signed, negative, 0x1_0000_0000, true);
    }
    let m = 0x10_0000_0000_0000 + t;
    let c = cut(mode, negative, m, least(1075 - field, 63));
    clamp_raised(signed, negative, c.kept, c.exact)
}

// A word as an integer's word. A NaN is invalid, signalling or not.
pub fn to_integer<W: ToInteger>(mode: Rounding, signed: bool, b: W) -> Raised<u32>
    ensures { (result.bits ≡ to_integer W.format mode signed (W.number b)) × (result.exceptions ≡ to_integer_exceptions W.format mode signed (W.number b)) }
{
    double_to_integer(mode, signed, b.as_double())
}
