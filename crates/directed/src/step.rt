// The nine kinds by integer work: each operation, what it raises, and their composition.
ghost use Rattle.std.specs.Prelude.{◌≡◌};
ghost use Rattle.nans.specs.Nan.{nan_of, negation};
ghost use Rattle.exceptions.specs.Exceptions.{nan_exceptions};
ghost use Rattle.operators.specs.Operators.{sum, difference, product, quotient};
ghost use Rattle.exceptions.specs.Operators.{sum_exceptions, difference_exceptions, product_exceptions, quotient_exceptions};
ghost use Rattle.directed.specs.Directed.{arithmetic_by};
ghost use Rattle.directed.specs.Exceptions.{exceptions_by, IsOperated, IsAccumulated, IsComposed};

use crate::negate::negate;
use exceptions::exceptions::{Raised, flushed_exceptions, nan_exceptions};
use floats::flush::flush;
use floats::precision::Precision;
use floats::word::is_nan;
use nans::nan::{nan_of, negation};
use numbers::arithmetic::Arithmetic;
use products::product::{Multiplied, product};
use quotients::quotient::{Divided, quotient};
use rounding::rounding::rounding_of;
use sums::sum::sum;

// A word of a width that every kind is worked out in.
pub trait Operated: Multiplied + Divided {}

impl Operated for u32 {}

impl Operated for u64 {}

// A result before flushing, what an accumulate's product raised before it, and what the last operation raised.
#[derive(Clone, Copy)]
struct Composed<W> {
    pub bits: W,
    pub first: u32,
    pub last: u32,
}

// Of operands of which one is a NaN.
fn of_nan<W: Precision>(control: u32, a: W, b: W) -> Raised<W>
    ensures { (W.number result.bits ≡ nan_of W.format control (W.number a) (W.number b)) × (result.exceptions ≡ nan_exceptions W.format (W.number a) (W.number b)) }
{
    Raised {
        bits: nan_of(control, a, b),
        exceptions: nan_exceptions(a, b),
    }
}

fn added<W: Precision>(control: u32, a: W, b: W) -> Raised<W>
    ensures { IsOperated sum sum_exceptions W.format control (W.number a) (W.number b) (W.number result.bits) result.exceptions }
{
    if is_nan(a) | is_nan(b) {
        return of_nan(control, a, b);
    }
    sum(rounding_of(control), a, b)
}

fn subtracted<W: Precision>(control: u32, a: W, less: W) -> Raised<W>
    ensures { IsOperated difference difference_exceptions W.format control (W.number a) (W.number less) (W.number result.bits) result.exceptions }
{
    if is_nan(a) | is_nan(less) {
        return of_nan(control, a, less);
    }
    sum(rounding_of(control), a, negate(less))
}

fn multiplied<W: Multiplied>(control: u32, a: W, b: W) -> Raised<W>
    ensures { IsOperated product product_exceptions W.format control (W.number a) (W.number b) (W.number result.bits) result.exceptions }
{
    if is_nan(a) | is_nan(b) {
        return of_nan(control, a, b);
    }
    product(rounding_of(control), a, b)
}

fn divided<W: Divided>(control: u32, a: W, b: W) -> Raised<W>
    ensures { IsOperated quotient quotient_exceptions W.format control (W.number a) (W.number b) (W.number result.bits) result.exceptions }
{
    if is_nan(a) | is_nan(b) {
        return of_nan(control, a, b);
    }
    quotient(rounding_of(control), a, b)
}

// A negation raises nothing of its own.
fn negated<W: Precision>(control: u32, r: Raised<W>) -> Raised<W>
    ensures { (W.number result.bits ≡ negation W.format control (W.number r.bits)) × (result.exceptions ≡ r.exceptions) }
{
    Raised {
        bits: negation(control, r.bits),
        exceptions: r.exceptions,
    }
}

// A product is added to d.
fn accumulated<W: Precision>(control: u32, d: W, p: Raised<W>) -> Composed<W>
    ensures { IsAccumulated W.format control (W.number d) (W.number p.bits) p.exceptions (W.number result.bits) result.first result.last }
{
    let s = added(control, d, p.bits);
    Composed {
        bits: s.bits,
        first: p.exceptions,
        last: s.exceptions,
    }
}

// One operation is all.
fn alone<W: Precision>(r: Raised<W>) -> Composed<W>
    ensures { (W.number result.bits ≡ W.number r.bits) × (result.first ≡ 0) × (result.last ≡ r.exceptions) }
{
    Composed {
        bits: r.bits,
        first: 0,
        last: r.exceptions,
    }
}

// The result before flushing, and what either operation raised.
fn compose<W: Operated>(control: u32, kind: Arithmetic, n: W, m: W, d: W) -> Composed<W>
    ensures { IsComposed W.format control kind (W.number n) (W.number m) (W.number d) (W.number result.bits) result.first result.last }
{
    match kind {
        Arithmetic::MultiplyAccumulate => accumulated(control, d, multiplied(control, n, m)), // FMAC
        Arithmetic::MultiplySubtract => accumulated(
            control,
            d,
            negated(control, multiplied(control, n, m)),
        ), // FNMAC
        Arithmetic::NegateMultiplySubtract => accumulated(
            control,
            negation(control, d),
            multiplied(control, n, m),
        ), // FMSC
        Arithmetic::NegateMultiplyAccumulate => accumulated(
            control,
            negation(control, d),
            negated(control, multiplied(control, n, m)),
        ), // FNMSC
        Arithmetic::Multiply => alone(multiplied(control, n, m)), // FMUL
        Arithmetic::NegateMultiply => alone(negated(control, multiplied(control, n, m))), // FNMUL
        Arithmetic::Add => alone(added(control, n, m)), // FADD
        Arithmetic::Subtract => alone(subtracted(control, n, m)), // FSUB
        Arithmetic::Divide => alone(divided(control, n, m)), // FDIV
    }
}

// The result as it is stored, and what the step raises.
pub fn directed<W: Operated>(control: u32, kind: Arithmetic, n: W, m: W, d: W) -> Raised<W>
    ensures { (W.number result.bits ≡ arithmetic_by W.format control kind (W.number n) (W.number m) (W.number d)) × (result.exceptions ≡ exceptions_by W.format control kind (W.number n) (W.number m) (W.number d)) }
{
    let x = compose(control, kind, n, m, d);
    Raised {
        bits: flush(control, x.bits),
        exceptions: x.first | flushed_exceptions(control, x.bits, x.last),
    }
}
