// Single to double, by integer work on the bits.
ghost use Rattle.std.specs.Prelude.{◌≡◌};
ghost use Rattle.widths.specs.Convert.{widen, widen_exceptions};

use exceptions::exceptions::{Raised, nan_exceptions};
use nans::nan::widened_nan;
use rounding::lift::lift;

// A single's word as the bits of the double of the same value, or its NaN. A subnormal is moved up by its leading zeros.
fn widened(control: u32, b: u32) -> u64
    ensures { result ≡ widen control b }
{
    let w = b as u64;
    let sign = w / 0x8000_0000 * 0x8000_0000_0000_0000;
    let size = w % 0x8000_0000;
    if size >= 0x7F80_0000 {
        if size == 0x7F80_0000 {
            return sign + 0x7FF0_0000_0000_0000;
        }
        return widened_nan(control, b);
    }
    if size >= 0x80_0000 {
        return sign + (size * 0x2000_0000 + 0x3800_0000_0000_0000);
    }
    if size == 0 {
        return sign;
    }
    let t = w % 0x80_0000;
    let up = lift(t);
    sign + ((925 - up) * 0x10_0000_0000_0000 + (t << up))
}

// The same, and what it raises.
pub fn widen(control: u32, b: u32) -> Raised<u64>
    ensures { (result.bits ≡ widen control b) × (result.exceptions ≡ widen_exceptions b) }
{
    Raised {
        bits: widened(control, b),
        exceptions: nan_exceptions(b, b),
    }
}
