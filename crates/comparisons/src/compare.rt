// A comparison's flags, FPSCR 31:28 as a number, and what it raises.
ghost use Rattle.std.specs.Prelude.{◌≡◌, cond};
ghost use Rattle.std.specs.Float.Ieee.{eq, lt};
ghost use Rattle.exceptions.specs.Exceptions.{invalid, nan_exceptions};
ghost use Rattle.comparisons.specs.Compare.{compare_flags, compare_exceptions};

use exceptions::exceptions::{INVALID, nan_exceptions};
use floats::precision::Precision;
use floats::word::float;

#[derive(Clone, Copy, Debug, PartialEq, Eq)]
pub struct Compared {
    pub flags: u32,
    pub exceptions: u32,
}

// A width whose floats the processor compares. A NaN is neither equal to a float nor less.
pub trait Comparable: Precision {
    fn equal(x: Self::Float, y: Self::Float) -> bool
        ensures { result ≡ eq (Self.value x) (Self.value y) };

    fn less(x: Self::Float, y: Self::Float) -> bool
        ensures { result ≡ lt (Self.value x) (Self.value y) };
}

impl Comparable for u32 {
    fn equal(x: f32, y: f32) -> bool {
        x == y
    }

    fn less(x: f32, y: f32) -> bool {
        x < y
    }
}

impl Comparable for u64 {
    fn equal(u: f64, v: f64) -> bool {
        u == v
    }

    fn less(u: f64, v: f64) -> bool {
        u < v
    }
}

// Of numbers: nothing is raised.
fn ordered(flags: u32) -> Compared
    ensures { (result.flags ≡ flags) × (result.exceptions ≡ 0) }
{
    Compared {
        flags,
        exceptions: 0,
    }
}

// Of words of which one is a NaN.
fn unordered<W: Precision>(any: bool, a: W, b: W) -> Compared
    ensures { (result.flags ≡ 0b0011) × (result.exceptions ≡ cond any invalid (nan_exceptions W.format (W.number a) (W.number b))) }
{
    if any {
        return Compared {
            flags: 0b0011,
            exceptions: INVALID,
        };
    }
    Compared {
        flags: 0b0011,
        exceptions: nan_exceptions(a, b),
    }
}

// For FCMPE any NaN is invalid.
pub fn compare<W: Comparable>(any: bool, a: W, b: W) -> Compared
    ensures { (result.flags ≡ compare_flags W.format (W.number a) (W.number b)) × (result.exceptions ≡ compare_exceptions W.format any (W.number a) (W.number b)) }
{
    let x = float(a);
    let y = float(b);
    if W::differs(x) {
        return unordered(any, a, b);
    }
    if W::differs(y) {
        return unordered(any, a, b);
    }
    if W::equal(x, y) {
        return ordered(0b0110);
    }
    if W::less(x, y) {
        ordered(0b1000)
    } else {
        ordered(0b0010)
    }
}
