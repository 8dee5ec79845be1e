// Square roots on whole numbers, a binary digit at a time.
ghost use Rattle.std.specs.Prelude.{◌≡◌, false, cond, ◌+◌, ◌*◌, ◌/◌, ◌%◌, ◌≤◌, ◌<◌, ◌^◌};
ghost use Rattle.std.specs.Float.Ieee.{hid, top, of_bits, nan_bits};
ghost use Rattle.exceptions.specs.Exceptions.{inexact};
ghost use Rattle.roots.specs.Root.{start, base, IsRoot, IsRooted, IsSqrt};

use exceptions::exceptions::{Raised, no_result, settled, silent};
use floats::parts::infinity;
use floats::precision::Precision;
use rounding::lift::lift;
use rounding::rounding::{Rounded, Rounding, step};

// A root's digits so far, and what is left of the number.
#[derive(Clone, Copy)]
struct Digits {
    pub root: u64,
    pub rest: u64,
}

// One digit more: the number grows by two of its digits.
fn digit(root: u64, rest: u64, pair: u64) -> Digits
    requires { (root < 2 ^ 60) × (rest ≤ 2 * root) × (pair < 4) }
    ensures { IsRoot ((root * root + rest) * 4 + pair) result.root result.rest × (result.root ≤ 2 * root + 1) }
{
    let grown = rest * 4 + pair;
    let trial = root * 4 + 1;
    if trial <= grown {
        Digits {
            root: root * 2 + 1,
            rest: grown - trial,
        }
    } else {
        Digits {
            root: root * 2,
            rest: grown,
        }
    }
}

// So many digits of the root of x, which stands at the top of 64 bits with zeros after it.
fn root_digits(x: u64, steps: u64) -> Digits
    requires { steps ≤ 60 }
    ensures { IsRoot (x * 2 ^ (steps + steps) / 2 ^ 64) result.root result.rest × (result.root < 2 ^ steps) }
{
    let mut root = 0u64;
    let mut rest = 0u64;
    let mut left = x;
    let mut i = 0u64;
    while i < steps {
        let next = digit(root, rest, left / 0x4000_0000_0000_0000);
        left = left % 0x4000_0000_0000_0000 * 4;
        root = next.root;
        rest = next.rest;
        i += 1;
    }
    Digits { root, rest }
}

// The root of m * 2 ^ (e % 2), of so many digits, rounded.
fn rooted(mode: Rounding, m: u64, e: u64, steps: u64) -> Rounded
    requires { (m < 2 ^ 53) × (steps ≤ 60) }
    ensures { IsRooted mode (m * 2 ^ (e % 2 + 10) * 2 ^ (steps + steps) / 2 ^ 64) (2 ^ steps) result.kept result.exact }
{
    let odd = e % 2;
    let r = root_digits(m << (odd + 10), steps);
    step(mode, false, r.root, r.rest * 2, r.root * 4 + 1)
}

// Where the exponents of the lifted digits start, and what is added to half of one. None is below 0 and each half is whole.
fn start<W: Precision>() -> u64
    ensures { result ≡ start W.format }
{
    52 + W::PLACES % 2
}

fn base<W: Precision>() -> u64
    ensures { result ≡ base W.format }
{
    (W::PLACES + 54 - 2 * W::DIGITS - start::<W>()) / 2
}

// The root's digits under half of the exponent e, and what rounding them raised.
fn placed<W: Precision>(e: u64, digits: Rounded) -> Raised<W>
    requires { (e / 2 + base W.format) * hid W.format + digits.kept < 2 * top W.format }
    ensures { (W.number result.bits ≡ (e / 2 + base W.format) * hid W.format + digits.kept) × (result.exceptions ≡ cond digits.exact 0 inexact) }
{
    Raised {
        bits: W::of_wide((e / 2 + base::<W>()) * W::LEAST + digits.kept),
        exceptions: settled(digits.exact, false, false),
    }
}

// The root of a word that is no NaN. A subnormal is moved up by its leading zeros.
pub fn root<W: Precision>(mode: Rounding, b: W) -> Raised<W>
    requires { nan_bits W.format (W.number b) ≡ false }
    ensures { IsSqrt mode W.format (of_bits W.format (W.number b)) (W.number result.bits) result.exceptions }
{
    let w = b.wide();
    let field = w % W::SIGN / W::LEAST;
    let t = w % W::LEAST;
    if w % W::SIGN == 0 {
        return silent(b);
    }
    if w >= W::SIGN {
        return no_result();
    }
    if field == infinity::<W>() / W::LEAST {
        return silent(W::of_wide(infinity::<W>()));
    }
    if field == 0 {
        let up = lift(t);
        let e = start::<W>() - up;
        let r = rooted(mode, t << up, e, W::DIGITS);
        return placed(e, r);
    }
    let rise = 53 - W::DIGITS;
    let e = field + (start::<W>() - 1 - rise);
    let r = rooted(mode, (W::LEAST + t) << rise, e, W::DIGITS);
    placed(e, r)
}
