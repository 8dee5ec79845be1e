// Rounding, in whole numbers: the last stage of every operation that is not a float's own.
ghost use Rattle.std.specs.Prelude.{◌≡◌, eqb};
ghost use Prim.Native.Nat.{◌*◌, ◌≤◌, ◌<◌, ◌^◌, min, compare};
ghost use Rattle.rounding.specs.Rounding.{rounding_of, move, increment, IsCut};

// FPSCR 23:22.
#[derive(Clone, Copy)]
pub enum Rounding {
    Nearest,
    Up,
    Down,
    Zero,
}

pub fn rounding_of(control: u32) -> Rounding
    ensures { result ≡ rounding_of control }
{
    let mode = control / 0x40_0000 % 4;
    if mode == 0 {
        return Rounding::Nearest;
    }
    if mode == 1 {
        return Rounding::Up;
    }
    if mode == 2 {
        return Rounding::Down;
    }
    Rounding::Zero
}

// A size rounded to a whole number, and whether nothing was left.
#[derive(Clone, Copy)]
pub struct Rounded {
    pub kept: u64,
    pub exact: bool,
}

// 2 ^ shift.
fn power(shift: u64) -> u64
    requires { shift < 64 }
    ensures { result ≡ 2 ^ shift }
{
    1u64 << shift
}

pub fn least(a: u64, b: u64) -> u64
    ensures { result ≡ min a b }
{
    if a < b { a } else { b }
}

// q, or the next number, for a size of q and rest / unit.
fn moved(mode: Rounding, negative: bool, q: u64, rest: u64, unit: u64) -> u64
    requires { (q < 2 ^ 63) × (rest < unit) }
    ensures { result ≡ move mode negative q (compare (rest * 2) unit) (eqb rest 0) }
{
    if rest == 0 {
        return q;
    }
    let left = unit - rest;
    match mode {
        Rounding::Nearest => {
            if rest < left {
                q
            } else if left < rest {
                q + 1
            } else {
                q + q % 2
            }
        }
        Rounding::Up => { if negative { q } else { q + 1 } }
        Rounding::Down => { if negative { q + 1 } else { q } }
        Rounding::Zero => q,
    }
}

pub fn step(mode: Rounding, negative: bool, q: u64, rest: u64, unit: u64) -> Rounded
    requires { (q < 2 ^ 63) × (rest < unit) }
    ensures { (result.kept ≡ move mode negative q (compare (rest * 2) unit) (eqb rest 0)) × (result.exact ≡ eqb rest 0) }
{
    Rounded {
        kept: moved(mode, negative, q, rest, unit),
        exact: rest == 0,
    }
}

// The rounding increment: what is added to m for its quotient by u, which is even, to be rounded by the mode. It carries where that is the next number.
fn increment(mode: Rounding, negative: bool, m: u64, u: u64) -> u64
    requires { 2 ≤ u }
    ensures { result ≡ increment mode negative m u }
{
    match mode {
        Rounding::Nearest => u / 2 - 1 + m / u % 2,
        Rounding::Up => { if negative { 0 } else { u - 1 } }
        Rounding::Down => { if negative { u - 1 } else { 0 } }
        Rounding::Zero => 0,
    }
}

// m / 2 ^ shift of the given sign, rounded to a whole number.
pub fn cut(mode: Rounding, negative: bool, m: u64, shift: u64) -> Rounded
    requires { (m < 2 ^ 63) × (0 < shift) × (shift < 64) }
    ensures { IsCut mode negative m (2 ^ shift) result.kept result.exact }
{
    let u = power(shift);
    let sum = m + increment(mode, negative, m, u);
    Rounded {
        kept: sum / u,
        exact: m % u == 0,
    }
}
