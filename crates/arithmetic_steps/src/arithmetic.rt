// The arithmetic on registers: iterations in turn, each reading what earlier ones wrote. FPSCR goes along with what was raised.
ghost use Rattle.std.specs.Prelude.{◌≡◌, ◌<◌, ◌/◌, ◌%◌, ◌^◌, true, false};
ghost use Rattle.machine.specs.Place.{control_of};
ghost use Rattle.numbers.specs.Arithmetic.{accumulates};
ghost use Rattle.short_vectors.specs.Vector.{iterations_of};
ghost use Rattle.short_vectors.specs.Register.{SteppedWith, IteratedWith};
ghost use Rattle.arithmetic_steps.specs.Arithmetic.{arithmetic_step, dyadic_step};

use directed::step::{Operated, directed};
use machine::place::control_of;
use numbers::arithmetic::Arithmetic;
use quiet::quick::quick;
use registers::register::Register;
use short_vectors::raise::raise;
use short_vectors::vector::Vector;

// Whether a step is left to the integers: in a mode other than 00, or while inexact is not set.
pub fn is_rounded(fpscr: u32) -> bool
    ensures { result ≡ false → (control_of fpscr / 2 ^ 22 % 4 ≡ 0) × (fpscr / 2 ^ 4 % 2 ≡ 1) }
{
    if fpscr / 16 % 2 == 0 {
        return true;
    }
    fpscr / 0x40_0000 % 4 > 0
}

// A step by native floats, where they give what is stored and raise nothing but inexact, which is set already: FPSCR stays. Else nothing is changed, and
// the answer is false.
pub fn quick_arithmetic<R: Register>(
    s: &mut [u32; 32],
    fpscr: u32,
    kind: Arithmetic,
    accumulate: bool,
    d: R,
    n: R,
    m: R,
) -> bool
    requires { (accumulate ≡ accumulates kind) × (R.within d) × (R.within n) × (R.within m) }
    ensures { (result ≡ true → SteppedWith (arithmetic_step R.Word.format (control_of fpscr) kind (R.number d) (R.number n) (R.number m)) fpscr s.old fpscr s.new) × (result ≡ false → s.new ≡ s.old) }
{
    if is_rounded(fpscr) {
        return false;
    }
    let a = n.get_within(s);
    let b = m.get_within(s);
    let old = d.get_within(s);
    if let Some(x) = quick(kind, accumulate, a, b, old) {
        d.set_within(s, x);
        return true;
    }
    false
}

// A step by integers, in any mode.
pub fn rounded_arithmetic<R: Register>(
    s: &mut [u32; 32],
    fpscr: u32,
    kind: Arithmetic,
    d: R,
    n: R,
    m: R,
) -> u32
where
    R::Word: Operated,
    requires { (R.within d) × (R.within n) × (R.within m) }
    ensures { SteppedWith (arithmetic_step R.Word.format (control_of fpscr) kind (R.number d) (R.number n) (R.number m)) fpscr s.old result s.new }
{
    let a = n.get_within(s);
    let b = m.get_within(s);
    let old = d.get_within(s);
    let x = directed(control_of(fpscr), kind, a, b, old);
    d.set_within(s, x.bits);
    raise(fpscr, x.exceptions)
}

// Either way. It calls `directed` and not `rounded_arithmetic`: of two callers the compiler makes `directed` a part of neither, so that
// `rounded_arithmetic` stays small.
fn arithmetic<R: Register>(
    s: &mut [u32; 32],
    fpscr: u32,
    kind: Arithmetic,
    accumulate: bool,
    d: R,
    n: R,
    m: R,
) -> u32
where
    R::Word: Operated,
    requires { (accumulate ≡ accumulates kind) × (R.within d) × (R.within n) × (R.within m) }
    ensures { SteppedWith (arithmetic_step R.Word.format (control_of fpscr) kind (R.number d) (R.number n) (R.number m)) fpscr s.old result s.new }
{
    if quick_arithmetic(s, fpscr, kind, accumulate, d, n, m) {
        return fpscr;
    }
    let a = n.get_within(s);
    let b = m.get_within(s);
    let old = d.get_within(s);
    let rounded = directed(control_of(fpscr), kind, a, b, old);
    d.set_within(s, rounded.bits);
    raise(fpscr, rounded.exceptions)
}

// The iterations of a word. The numbers are below 32.
// The loop counts the registers that it goes on and not its iterations: of these the compiler knows that they are at most eight, and takes the loop apart
// into eight steps.
pub fn arithmetic_vector<R: Register>(
    s: &mut [u32; 32],
    fpscr: u32,
    kind: Arithmetic,
    d: R,
    n: R,
    m: R,
) -> u32
where
    R::Word: Operated,
    requires { (R.number d < 32) × (R.number n < 32) × (R.number m < 32) }
    ensures { IteratedWith (iterations_of R.Word.format (control_of fpscr) (R.number d)) (dyadic_step R.Word.format (control_of fpscr) kind (R.number d) (R.number n) (R.number m)) fpscr s.old result s.new }
{
    let vector = Vector::new(control_of(fpscr), d);
    let end = vector.iterations * vector.stride;
    let uses_d = kind.reads_d();
    let mut dn = d.index();
    let mut nn = n.index();
    let mut mn = m.index();
    let mut after = fpscr;
    let mut far: usize = 0;
    loop {
        after = arithmetic(
            s,
            after,
            kind,
            uses_d,
            R::numbered(dn),
            R::numbered(nn),
            R::numbered(mn),
        );
        far += vector.stride;
        if far >= end {
            return after;
        }
        dn = vector.step(dn, 1);
        nn = vector.step(nn, 1);
        mn = vector.second(mn, 1);
    }
}
