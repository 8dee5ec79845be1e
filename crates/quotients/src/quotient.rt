// The quotient of two words by a mode, and the exceptions that it raises: enough digits for the width, and whether something is left. A single's come
// from one division, a double's eleven at a time.
ghost use Rattle.std.specs.Prelude.{◌≡◌, ℕ, ◌+◌, ◌*◌, ◌%◌, ◌≤◌, ◌<◌, ◌^◌};
ghost use Rattle.std.specs.Float.Ieee.{prec};
ghost use Rattle.std.proofs.Common.{rules};
ghost use Rattle.rounding.specs.declared.rounding.Rounding.{Rounding};
ghost use Rattle.operators.specs.Operators.{quotient};
ghost use Rattle.exceptions.specs.Operators.{quotient_exceptions, IsResult};
ghost use Rattle.digits.specs.Digits.{rise, IsNumber, IsFolded};
ghost use Rattle.quotients.specs.Divided.{IsDivided};

use digits::operand::{is_number, operand_of};
use digits::raise::{raised, sticky};
use digits::sign::{signed, unlike};
use exceptions::exceptions::{DIVISION_BY_ZERO, Raised, no_result, settled, silent};
use floats::parts::{default_nan, infinity, is_negative, size_of};
use floats::precision::Precision;
use rounding::rounding::Rounding;

// A quotient's digits so far, and what is left.
#[derive(Clone, Copy)]
struct Division {
    pub q: u64,
    pub r: u64,
}

// The digit before the point.
fn first(a: u64, b: u64) -> Division
    requires { (a < 2 ^ 53) × (2 ^ 52 ≤ b) }
    ensures { IsDivided a b result.q result.r × (result.q < 2) }
{
    if a < b {
        return Division { q: 0, r: a };
    }
    Division { q: 1, r: a - b }
}

// Eleven digits more.
fn more(q: u64, r: u64, d: u64) -> Division
    requires { (q < 2 ^ 50) × (r < d) × (d < 2 ^ 53) }
    ensures { IsDivided ((q * d + r) * 2048) d result.q result.r × (result.q < (q + 1) * 2048) }
{
    let x = r * 2048;
    Division {
        q: q * 2048 + x / d,
        r: x % d,
    }
}

// The quotient of two numbers of 53 digits, with 55 digits below the point.
fn divide(a: u64, b: u64) -> Division
    requires { (a < 2 ^ 53) × (2 ^ 52 ≤ b) × (b < 2 ^ 53) }
    ensures { IsDivided (a * 2 ^ 55) b result.q result.r × (result.q < 2 ^ 56) }
{
    let p = first(a, b);
    let s = more(p.q, p.r, b);
    let t = more(s.q, s.r, b);
    let u = more(t.q, t.r, b);
    let v = more(u.q, u.r, b);
    more(v.q, v.r, b)
}

// A width's own way to divide digits.
pub trait Divided: Precision {
    // How many of a quotient's digits are below the point.
    ghost BELOW: { ℕ };

    const BELOW: u64;

    // The leading digits of a quotient, enough for the width, and below them a sticky one. The operands have 53 digits, of which those that the width does
    // not keep are 0.
    fn quotient_digits(a: u64, b: u64) -> u64
        requires digits { (2 ^ 52 ≤ a) × (a < 2 ^ 53) × (2 ^ 52 ≤ b) × (b < 2 ^ 53) }
        requires zeros { (a % 2 ^ rise Self.format ≡ 0) × (b % 2 ^ rise Self.format ≡ 0) }
        ensures { IsFolded (prec Self.format) (a * 2 ^ BELOW) b result × (0 < result) };

    ghost below: { BELOW < 64 };
}

impl Divided for u32 {
    ghost BELOW = { 38 };

    const BELOW: u64 = 38;

    ghost below = { Prim.search rules };

    // The last 29 digits of the divisor are 0.
    fn quotient_digits(a: u64, b: u64) -> u64 {
        let x = a * 512;
        let d = b / 0x2000_0000;
        x / d * 2 + sticky(x % d)
    }
}

impl Divided for u64 {
    ghost BELOW = { 55 };

    const BELOW: u64 = 55;

    ghost below = { Prim.search rules };

    fn quotient_digits(a: u64, b: u64) -> u64 {
        let s = divide(a, b);
        s.q * 2 + sticky(s.r)
    }
}

// Of words that are finite and not 0.
fn number_quotient<W: Divided>(mode: Rounding, a: W, b: W) -> Raised<W>
    requires { IsNumber W.format (W.number a) × IsNumber W.format (W.number b) }
    ensures { IsResult W.format (quotient mode W.format) (quotient_exceptions mode W.format) (W.number a) (W.number b) (W.number result.bits) result.exceptions }
{
    let p = operand_of(a);
    let q = operand_of(b);
    let m = W::quotient_digits(p.m, q.m);
    let negative = unlike(is_negative(a), is_negative(b));
    // A result's 2209 places, less one for the sticky digit.
    let s = raised(mode, negative, m, p.e + (2208 - W::BELOW) - q.e);
    Raised {
        bits: s.bits,
        exceptions: settled(s.exact, s.over, s.tiny),
    }
}

// Where a word is a NaN, an infinity or a zero: no mode changes it.
fn special_quotient<W: Precision>(a: W, b: W) -> Raised<W>
    requires { IsNumber W.format (W.number a) → IsNumber W.format (W.number b) → ⊥ }
    ensures { (mode : Rounding) → IsResult W.format (quotient mode W.format) (quotient_exceptions mode W.format) (W.number a) (W.number b) (W.number result.bits) result.exceptions }
{
    let infinity = infinity::<W>();
    let x = size_of(a);
    let y = size_of(b);
    if x > infinity {
        return silent(default_nan());
    }
    if y > infinity {
        return silent(default_nan());
    }
    let negative = unlike(is_negative(a), is_negative(b));
    if x == infinity {
        if y == infinity {
            return no_result();
        }
        return silent(signed(negative, infinity));
    }
    if y == infinity {
        return silent(signed(negative, 0));
    }
    if y == 0 {
        if x == 0 {
            return no_result();
        }
        return Raised {
            bits: signed(negative, infinity),
            exceptions: DIVISION_BY_ZERO,
        };
    }
    silent(signed(negative, 0))
}

pub fn quotient<W: Divided>(mode: Rounding, a: W, b: W) -> Raised<W>
    ensures { IsResult W.format (quotient mode W.format) (quotient_exceptions mode W.format) (W.number a) (W.number b) (W.number result.bits) result.exceptions }
{
    if is_number(a) {
        if is_number(b) {
            return number_quotient(mode, a, b);
        }
        return special_quotient(a, b);
    }
    special_quotient(a, b)
}
