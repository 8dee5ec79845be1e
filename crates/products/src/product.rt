// The product of two words by a mode, and the exceptions that it raises. A single's digits are multiplied as they are; of a double's 106 digits the
// leading 61 are kept, and whether something is left.
ghost use Rattle.std.specs.Prelude.{◌≡◌, ℕ, ◌*◌, ◌%◌, ◌≤◌, ◌<◌, ◌^◌};
ghost use Rattle.std.specs.Float.Ieee.{prec};
ghost use Rattle.std.proofs.Common.{rules};
ghost use Rattle.rounding.specs.declared.rounding.Rounding.{Rounding};
ghost use Rattle.operators.specs.Operators.{product};
ghost use Rattle.exceptions.specs.Operators.{product_exceptions, IsResult};
ghost use Rattle.digits.specs.Digits.{rise, IsNumber, IsFolded};
ghost use Rattle.products.specs.Halves.{Halves};

use digits::operand::{is_number, operand_of};
use digits::raise::{raised, sticky};
use digits::sign::{signed, unlike};
use exceptions::exceptions::{Raised, no_result, settled, silent};
use floats::parts::{default_nan, infinity, is_negative, size_of};
use floats::precision::Precision;
use rounding::rounding::Rounding;

// high * 2 ^ 45 + low
#[derive(Clone, Copy)]
struct LongProduct {
    pub high: u64,
    pub low: u64,
}

// The product of two numbers of 53 digits, by halves of 27 digits.
fn multiply(a: u64, b: u64) -> LongProduct
    requires { (a < 2 ^ 53) × (b < 2 ^ 53) }
    ensures { Halves (a * b) result.high result.low }
{
    let ah = a / 0x800_0000;
    let al = a % 0x800_0000;
    let bh = b / 0x800_0000;
    let bl = b % 0x800_0000;
    let low = al * bl;
    let mid = ah * bl + al * bh + low / 0x800_0000;
    let top = ah * bh + mid / 0x800_0000;
    let rest = mid % 0x800_0000 * 0x800_0000 + low % 0x800_0000;
    LongProduct {
        high: top * 0x200 + rest / 0x2000_0000_0000,
        low: rest % 0x2000_0000_0000,
    }
}

// A width's own way to multiply digits.
pub trait Multiplied: Precision {
    // How many of a product's digits are left below those that are kept.
    ghost LEFT: { ℕ };

    const LEFT: u64;

    // The leading digits of a product, enough for the width, and below them a sticky one. The operands have 53 digits, of which those that the width does
    // not keep are 0.
    fn product_digits(a: u64, b: u64) -> u64
        requires digits { (2 ^ 52 ≤ a) × (a < 2 ^ 53) × (2 ^ 52 ≤ b) × (b < 2 ^ 53) }
        requires zeros { (a % 2 ^ rise Self.format ≡ 0) × (b % 2 ^ rise Self.format ≡ 0) }
        ensures { IsFolded (prec Self.format) (a * b) (2 ^ LEFT) result × (0 < result) };

    ghost left: { (44 ≤ LEFT) × (LEFT < 64) };
}

impl Multiplied for u32 {
    ghost LEFT = { 59 };

    const LEFT: u64 = 59;

    ghost left = { Prim.search rules };

    // The product has 48 digits at most: the last of them is the sticky one.
    fn product_digits(a: u64, b: u64) -> u64 {
        a / 0x2000_0000 * (b / 0x2000_0000)
    }
}

impl Multiplied for u64 {
    ghost LEFT = { 45 };

    const LEFT: u64 = 45;

    ghost left = { Prim.search rules };

    fn product_digits(a: u64, b: u64) -> u64 {
        let p = multiply(a, b);
        p.high * 2 + sticky(p.low)
    }
}

// Of words that are finite and not 0.
fn number_product<W: Multiplied>(mode: Rounding, a: W, b: W) -> Raised<W>
    requires { IsNumber W.format (W.number a) × IsNumber W.format (W.number b) }
    ensures { IsResult W.format (product mode W.format) (product_exceptions mode W.format) (W.number a) (W.number b) (W.number result.bits) result.exceptions }
{
    let p = operand_of(a);
    let q = operand_of(b);
    let m = W::product_digits(p.m, q.m);
    let negative = unlike(is_negative(a), is_negative(b));
    // Twice the operands' 1126 places against a result's 2209, and one for the sticky digit.
    let s = raised(mode, negative, m, p.e + q.e + (W::LEFT - 44));
    Raised {
        bits: s.bits,
        exceptions: settled(s.exact, s.over, s.tiny),
    }
}

// Where a word is a NaN, an infinity or a zero: no mode changes it.
fn special_product<W: Precision>(a: W, b: W) -> Raised<W>
    requires { IsNumber W.format (W.number a) → IsNumber W.format (W.number b) → ⊥ }
    ensures { (mode : Rounding) → IsResult W.format (product mode W.format) (product_exceptions mode W.format) (W.number a) (W.number b) (W.number result.bits) result.exceptions }
{
    let infinity = infinity::<W>();
    let x = size_of(a);
    let y = size_of(b);
    if x > infinity {
        return silent(default_nan());
    }
    if y > infinity {
        return silent(default_nan());
    }
    let negative = unlike(is_negative(a), is_negative(b));
    if x == infinity {
        if y == 0 {
            return no_result();
        }
        return silent(signed(negative, infinity));
    }
    if y == infinity {
        if x == 0 {
            return no_result();
        }
        return silent(signed(negative, infinity));
    }
    silent(signed(negative, 0))
}

pub fn product<W: Multiplied>(mode: Rounding, a: W, b: W) -> Raised<W>
    ensures { IsResult W.format (product mode W.format) (product_exceptions mode W.format) (W.number a) (W.number b) (W.number result.bits) result.exceptions }
{
    if is_number(a) {
        if is_number(b) {
            return number_product(mode, a, b);
        }
        return special_product(a, b);
    }
    special_product(a, b)
}
