// Square roots of words: by an estimate that is checked, or a binary digit at a time.
ghost use Rattle.std.specs.Prelude.{◌≡◌, false, cond, IfSome, ◌+◌, ◌-◌, ◌*◌, ◌/◌, ◌%◌, ◌≤◌, ◌<◌, ◌^◌};
ghost use Rattle.std.specs.Float.Ieee.{prec, low, hid, ones, of_bits, nan_bits};
ghost use Rattle.rounding.specs.declared.rounding.Rounding.TheVariants.{Nearest, Up, Zero};
ghost use Rattle.exceptions.specs.Exceptions.{inexact};
ghost use Rattle.roots.specs.Root.{scaled, radicand, IsEstimate, IsRooted, IsSqrt, square_root, root_exceptions};

use exceptions::exceptions::{Raised, nan_exceptions, settled};
use floats::parts::infinity;
use floats::precision::Precision;
use floats::word::is_nan;
use nans::nan::nan_of;
use root_estimates::estimate::{Estimate, Rooted, inverse, radicand};
use roots::root::root;
use rounding::rounding::{Rounded, rounding_of};

// The whole number nearest to the root of q * q + rest, where it is q or one of the next two. No branch: which of them it is follows no pattern.
// Its square is the whole where the rest is just what the steps to it take.
fn nearest_root(q: u64, rest: u64) -> Rounded
    requires { (q < 2 ^ 60) × (rest ≤ 5 * q + 6) }
    ensures { IsRooted Nearest (q * q + rest) (q + 3) result.kept result.exact }
{
    let steps = u64::from(q < rest) + u64::from(3 * q + 2 < rest);
    Rounded {
        kept: q + steps,
        exact: steps * (2 * q + steps) == rest,
    }
}

// The last one not above the root: q and the steps that the rest has room for. Upwards one more where something is left of it.
fn directed_root(up: bool, q: u64, rest: u64) -> Rounded
    requires { (q < 2 ^ 60) × (rest ≤ 5 * q + 6) }
    ensures { IsRooted (cond up Up Zero) (q * q + rest) (q + 3) result.kept result.exact }
{
    let steps = u64::from(2 * q < rest) + u64::from(4 * q + 3 < rest);
    let taken = steps * (2 * q + steps);
    Rounded {
        kept: q + steps + u64::from(up & (taken < rest)),
        exact: taken == rest,
    }
}

// The word of a normal value's root, from its digits: half of the exponent, and the digits below it. And what it raises.
fn placed<W: Precision>(w: u64, digits: Rounded) -> Raised<W>
    requires { (w < ones W.format * hid W.format) × (digits.kept ≤ 2 ^ prec W.format + 2) }
    ensures { (W.number result.bits ≡ (w / hid W.format + w / hid W.format % 2 + (low W.format - prec W.format - 1)) * (hid W.format / 2) + digits.kept) × (result.exceptions ≡ cond digits.exact 0 inexact) }
{
    let field = w / W::LEAST;
    Raised {
        bits: W::of_wide(
            (field + field % 2 + (W::PLACES - W::DIGITS - 1)) * (W::LEAST / 2) + digits.kept,
        ),
        exceptions: settled(digits.exact, false, false),
    }
}

// An estimate of the root of a normal value, from its digits with the lowest bit of its exponent above them.
#[inline(always)]
fn estimated<W: Rooted>(w: u64) -> Estimate
    ensures { IsEstimate (scaled W.format (radicand (w % (2 * hid W.format) * 2 ^ (53 - prec W.format)))) (2 ^ prec W.format) result.root result.rest result.near }
{
    let y = (w % (2 * W::LEAST)) << (53 - W::DIGITS);
    let x = radicand(y);
    W::estimate(x, inverse(y, x / 0x40_0000))
}

// The root of a normal value to nearest, by an estimate that is checked. None where that is too far off, or the value is not normal.
pub fn quick_root<W: Rooted>(m: W) -> Option<Raised<W>>
    ensures { IfSome result (λ r. (nan_bits W.format (W.number m) ≡ false) × IsSqrt Nearest W.format (of_bits W.format (W.number m)) (W.number r.bits) r.exceptions) }
{
    let w = m.wide();
    if w >= W::LEAST {
        if w < infinity::<W>() {
            let e = estimated::<W>(w);
            if e.near {
                return Some(placed(w, nearest_root(e.root, e.rest)));
            }
        }
    }
    None
}

// The root in every mode: of a normal value by an estimate in the modes that `quick_root` does not have, all else digit by digit. The control word gives
// the mode alone: a root is never subnormal.
pub fn square_root<W: Rooted>(control: u32, m: W) -> Raised<W>
    ensures { (W.number result.bits ≡ square_root W.format control (W.number m)) × (result.exceptions ≡ root_exceptions W.format (W.number m)) }
{
    let w = m.wide();
    let mode = control / 0x40_0000 % 4;
    if mode > 0 {
        if w >= W::LEAST {
            if w < infinity::<W>() {
                let e = estimated::<W>(w);
                if e.near {
                    return placed(w, directed_root(mode == 1, e.root, e.rest));
                }
            }
        }
    }
    if is_nan(m) {
        return Raised {
            bits: nan_of(control, m, m),
            exceptions: nan_exceptions(m, m),
        };
    }
    root(rounding_of(control), m)
}
