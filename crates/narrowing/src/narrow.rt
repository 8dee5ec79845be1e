// Double to single, by integer work on the bits.
ghost use Rattle.std.specs.Prelude.{◌≡◌, false, ℕ, ◌+◌, ◌*◌, ◌/◌, ◌%◌, ◌≤◌, ◌<◌, ◌^◌, leb, eqb};
ghost use Rattle.std.specs.Float.{binary32, binary64};
ghost use Rattle.std.specs.Float.Ieee.{of_bits};
ghost use Rattle.rounding.specs.Rounding.{rounding_of, cut_to, increment, IsCut};
ghost use Rattle.exceptions.specs.Exceptions.{settled_exceptions};
ghost use Rattle.widths.specs.Convert.{IsNarrowed, narrow, narrow_exceptions};

use exceptions::exceptions::{Raised, flushed_exceptions, nan_exceptions, settled};
use floats::flush::flush;
use nans::nan::narrowed_nan;
use packing::pack::{Settled, settle, sign};
use rounding::rounding::{Rounded, Rounding, cut, rounding_of};

// A double's bits as the single that the mode asks for, rounded once.
fn narrowed(mode: Rounding, b: u64) -> Settled<u32>
    ensures { IsNarrowed mode binary32 (of_bits binary64 b) result.bits result.exact result.over result.tiny }
{
    let negative = b >= 0x8000_0000_0000_0000;
    let field = b % 0x8000_0000_0000_0000 / 0x10_0000_0000_0000;
    let t = b % 0x10_0000_0000_0000;
    if field == 2047 {
        if t == 0 {
            return Settled {
                bits: (sign::<u32>(negative) + 0x7F80_0000) as u32,
                exact: true,
                over: false,
                tiny: false,
            };
        }
        return Settled {
            bits: 0x7FC0_0000,
            exact: true,
            over: false,
            tiny: false,
        };
    }
    if field == 0 {
        return settle(mode, negative, t * 512, 1126);
    }
    settle(
        mode,
        negative,
        (0x10_0000_0000_0000 + t) * 512,
        field + 1125,
    )
}

// What is added to a size for its quotient by 2 ^ 29 to be rounded by a mode other than 00. Bit 23 says that no size above 0 goes up, bit 22 that none
// below 0 does.
fn directed_increment(control: u32, negative: bool) -> u64
    requires { control / 2 ^ 22 % 4 ≡ 0 → ⊥ }
    ensures { (m : ℕ) → result ≡ increment (rounding_of control) negative m (2 ^ 29) }
{
    if negative {
        if control / 0x40_0000 % 2 == 0 {
            return 0x1FFF_FFFF;
        }
        return 0;
    }
    if control / 0x80_0000 % 2 == 0 {
        return 0x1FFF_FFFF;
    }
    0
}

// m / 2 ^ 29 of the given sign in a mode other than 00.
fn directed(control: u32, negative: bool, m: u64) -> u64
    requires { (m < 2 ^ 63) × (control / 2 ^ 22 % 4 ≡ 0 → ⊥) }
    ensures { result ≡ cut_to (rounding_of control) negative m (2 ^ 29) }
{
    (m + directed_increment(control, negative)) / 0x2000_0000
}

// The same in every mode, and whether nothing was left. A single has 29 digits fewer than a double.
pub fn shorten(control: u32, negative: bool, m: u64) -> Rounded
    requires { m < 2 ^ 63 }
    ensures { IsCut (rounding_of control) negative m (2 ^ 29) result.kept result.exact }
{
    if control / 0x40_0000 % 4 == 0 {
        return cut(Rounding::Nearest, negative, m, 29);
    }
    Rounded {
        kept: directed(control, negative, m),
        exact: m % 0x2000_0000 == 0,
    }
}

// The kept digits of a normal double, which are the pattern of a normal single or, where they are too large, of the infinity; with its sign, and what
// rounding raised. The 29 digits that a single drops tell what was left.
fn signed(b: u64, kept: u64) -> Raised<u32>
    requires { kept ≤ 0x7F80_0000 }
    ensures { (result.bits ≡ b / 2 ^ 63 * 2 ^ 31 + kept) × (result.exceptions ≡ settled_exceptions (eqb (b % 2 ^ 29) 0) (leb 0x7F80_0000 kept) false) }
{
    Raised {
        bits: (b / 0x8000_0000_0000_0000 * 0x8000_0000 + kept) as u32,
        exceptions: settled(b % 0x2000_0000 == 0, kept >= 0x7F80_0000, false),
    }
}

// The single that the mode asks for, flushed as a single, and what it raises. Where a normal double becomes a normal single, or is too large by its
// last digits alone, its pattern is cut as it stands: in mode 00 by one sum.
pub fn narrow(control: u32, b: u64) -> Raised<u32>
    ensures { (result.bits ≡ narrow control b) × (result.exceptions ≡ narrow_exceptions control b) }
{
    let negative = b >= 0x8000_0000_0000_0000;
    let size = b % 0x8000_0000_0000_0000;
    if control / 0x40_0000 % 4 == 0 {
        if size >= 0x3810_0000_0000_0000 {
            if size < 0x47F0_0000_0000_0000 {
                let c = cut(
                    Rounding::Nearest,
                    negative,
                    size - 0x3800_0000_0000_0000,
                    29,
                );
                return signed(b, c.kept);
            }
        }
    } else {
        if size >= 0x3810_0000_0000_0000 {
            if size < 0x47F0_0000_0000_0000 {
                return signed(b, directed(control, negative, size) - 0x1_C000_0000);
            }
        }
    }
    if size > 0x7FF0_0000_0000_0000 {
        return Raised {
            bits: narrowed_nan(control, b),
            exceptions: nan_exceptions(b, b),
        };
    }
    let r = narrowed(rounding_of(control), b);
    Raised {
        bits: flush(control, r.bits),
        exceptions: flushed_exceptions(control, r.bits, settled(r.exact, r.over, r.tiny)),
    }
}
