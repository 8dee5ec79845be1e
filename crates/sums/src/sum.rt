// The sum of two words by a mode, and the exceptions that it raises. The smaller operand is moved down to the larger one's exponent, with a sticky digit
// for what falls off; then the digits are added, or subtracted where the signs are unlike.
ghost use Rattle.std.specs.Prelude.{◌≡◌, cond, ◌*◌, ◌%◌, ◌≤◌, ◌<◌, ◌^◌};
ghost use Rattle.std.specs.Float.Ieee.{top, hid, ones};
ghost use Rattle.rounding.specs.declared.rounding.Rounding.{Rounding};
ghost use Rattle.operators.specs.Operators.{zero_sign, sum};
ghost use Rattle.exceptions.specs.Operators.{sum_exceptions, IsResult};
ghost use Rattle.digits.specs.Digits.{IsNumber};
ghost use Rattle.sums.specs.Aligned.{IsAligned, IsSum};

use digits::operand::{is_number, operand_of};
use digits::raise::{raised, sticky};
use digits::sign::unlike;
use exceptions::exceptions::{Raised, no_result, settled, silent};
use floats::parts::{default_nan, infinity, is_negative, size_of};
use floats::precision::Precision;
use rounding::rounding::{Rounding, least};

#[derive(Clone, Copy)]
struct Aligned {
    pub high: u64,
    pub left: u64,
}

// The sum m * 2 ^ e / 2 ^ 2209, with its sign.
#[derive(Clone, Copy)]
struct Total {
    pub negative: bool,
    pub m: u64,
    pub e: u64,
}

// Past 63 places nothing is seen of b, so it does not matter how far it goes.
fn align(b: u64, d: u64) -> Aligned
    requires { b < 2 ^ 53 }
    ensures { IsAligned b d result.high result.left }
{
    let t = b * 128;
    let shift = least(d, 63);
    let high = t >> shift;
    Aligned {
        high: high,
        left: sticky(t - (high << shift)),
    }
}

// The larger operand comes first.
fn ordered_sum(s: bool, a: u64, ea: u64, t: bool, b: u64, eb: u64) -> Total
    requires digits { (2 ^ 52 ≤ a) × (a < 2 ^ 53) × (b < 2 ^ 53) }
    requires exponents { (eb ≤ ea) × (ea < 2100) × (b * 2 ^ eb ≤ a * 2 ^ ea) }
    ensures { IsSum s (a * 2 ^ ea) t (b * 2 ^ eb) result.negative result.m result.e }
{
    let w = align(b, ea - eb);
    let h = w.high;
    let l = w.left;
    if unlike(s, t) {
        return Total {
            negative: s,
            m: (a * 128 - h - l) * 2 + l,
            e: ea + 1075,
        };
    }
    Total {
        negative: s,
        m: (a * 128 + h) * 2 + l,
        e: ea + 1075,
    }
}

// Exponents and digits in one number tell which operand is the larger.
fn sum_digits(s: bool, a: u64, ea: u64, t: bool, b: u64, eb: u64) -> Total
    requires digits { (2 ^ 52 ≤ a) × (a < 2 ^ 53) × (2 ^ 52 ≤ b) × (b < 2 ^ 53) }
    requires exponents { (ea < 2100) × (eb < 2100) }
    ensures { IsSum s (a * 2 ^ ea) t (b * 2 ^ eb) result.negative result.m result.e }
{
    if eb * 0x10_0000_0000_0000 + b <= ea * 0x10_0000_0000_0000 + a {
        return ordered_sum(s, a, ea, t, b, eb);
    }
    ordered_sum(t, b, eb, s, a, ea)
}

// The zero that opposite numbers add up to.
fn zero_sum<W: Precision>(mode: Rounding) -> W
    ensures { W.number result ≡ cond (zero_sign mode) (top W.format) 0 }
{
    match mode {
        Rounding::Nearest => W::of_wide(0),
        Rounding::Up => W::of_wide(0),
        Rounding::Down => W::of_wide(W::SIGN),
        Rounding::Zero => W::of_wide(0),
    }
}

// Of words that are finite and not 0.
fn number_sum<W: Precision>(mode: Rounding, a: W, b: W) -> Raised<W>
    requires { IsNumber W.format (W.number a) × IsNumber W.format (W.number b) }
    ensures { IsResult W.format (sum mode W.format) (sum_exceptions mode W.format) (W.number a) (W.number b) (W.number result.bits) result.exceptions }
{
    let p = operand_of(a);
    let q = operand_of(b);
    let w = sum_digits(is_negative(a), p.m, p.e, is_negative(b), q.m, q.e);
    let m = w.m;
    if m == 0 {
        return silent(zero_sum(mode));
    }
    let s = raised(mode, w.negative, m, w.e);
    Raised {
        bits: s.bits,
        exceptions: settled(s.exact, s.over, s.tiny),
    }
}

// Of two infinities, and of two zeros.
fn infinities<W: Precision>(a: W, b: W) -> Raised<W>
    requires { (W.number a % top W.format ≡ ones W.format * hid W.format) × (W.number b % top W.format ≡ ones W.format * hid W.format) }
    ensures { (mode : Rounding) → IsResult W.format (sum mode W.format) (sum_exceptions mode W.format) (W.number a) (W.number b) (W.number result.bits) result.exceptions }
{
    if unlike(is_negative(a), is_negative(b)) {
        return no_result();
    }
    silent(a)
}

fn zeros<W: Precision>(mode: Rounding, a: W, b: W) -> Raised<W>
    requires { (W.number a % top W.format ≡ 0) × (W.number b % top W.format ≡ 0) }
    ensures { IsResult W.format (sum mode W.format) (sum_exceptions mode W.format) (W.number a) (W.number b) (W.number result.bits) result.exceptions }
{
    if unlike(is_negative(a), is_negative(b)) {
        return silent(zero_sum(mode));
    }
    silent(a)
}

// Where a word is a NaN, an infinity or a zero. A zero adds nothing.
fn special_sum<W: Precision>(mode: Rounding, a: W, b: W) -> Raised<W>
    requires { IsNumber W.format (W.number a) → IsNumber W.format (W.number b) → ⊥ }
    ensures { IsResult W.format (sum mode W.format) (sum_exceptions mode W.format) (W.number a) (W.number b) (W.number result.bits) result.exceptions }
{
    let infinity = infinity::<W>();
    let x = size_of(a);
    let y = size_of(b);
    if x > infinity {
        return silent(default_nan());
    }
    if y > infinity {
        return silent(default_nan());
    }
    if x == infinity {
        if y == infinity {
            return infinities(a, b);
        }
        return silent(a);
    }
    if y == infinity {
        return silent(b);
    }
    if x == 0 {
        if y == 0 {
            return zeros(mode, a, b);
        }
        return silent(b);
    }
    silent(a)
}

pub fn sum<W: Precision>(mode: Rounding, a: W, b: W) -> Raised<W>
    ensures { IsResult W.format (sum mode W.format) (sum_exceptions mode W.format) (W.number a) (W.number b) (W.number result.bits) result.exceptions }
{
    if is_number(a) {
        if is_number(b) {
            return number_sum(mode, a, b);
        }
        return special_sum(mode, a, b);
    }
    special_sum(mode, a, b)
}
