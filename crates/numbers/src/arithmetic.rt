// The arithmetic of one step. Each operator is a float's own and rounds once in its width.
ghost use Rattle.std.specs.Prelude.{◌≡◌, ◌*◌, ◌<◌, IfSome, from_bits};
ghost use Rattle.std.specs.Float.Ieee.{top};
ghost use Rattle.numbers.specs.Arithmetic.{apply, applied, accumulates};

use floats::parts::{infinity, size_of};
use floats::precision::Precision;
use floats::word::{bits, float};

// In the order of word bits 23, 21, 20, 6 as a number.
#[derive(Clone, Copy)]
pub enum Arithmetic {
    // d + n * m
    MultiplyAccumulate,
    // d - n * m
    MultiplySubtract,
    // -d + n * m
    NegateMultiplySubtract,
    // -d - n * m
    NegateMultiplyAccumulate,
    Multiply,
    NegateMultiply,
    Add,
    Subtract,
    Divide,
}

impl Arithmetic {
    // Whether the kind reads the old d.
    pub fn reads_d(self) -> bool
        ensures { result ≡ accumulates self }
    {
        matches!(
            self,
            Arithmetic::MultiplyAccumulate
                | Arithmetic::MultiplySubtract
                | Arithmetic::NegateMultiplySubtract
                | Arithmetic::NegateMultiplyAccumulate
        )
    }
}

// The operands n and m of one step, and the old d.
#[derive(Clone, Copy)]
struct Operands<F> {
    pub n: F,
    pub m: F,
    pub d: F,
}

// The operands of a step from their words, a d that the kind does not read too.
fn operands_of<W: Precision>(n: W, m: W, d: W) -> Operands<W::Float>
    ensures n { W.value result.n ≡ from_bits W.format (W.number n) }
    ensures m { W.value result.m ≡ from_bits W.format (W.number m) }
    ensures d { W.value result.d ≡ from_bits W.format (W.number d) }
{
    Operands {
        n: float(n),
        m: float(m),
        d: float(d),
    }
}

fn apply<W: Precision>(kind: Arithmetic, x: Operands<W::Float>) -> W::Float
    ensures { W.value result ≡ apply W.format kind (W.value x.n) (W.value x.m) (W.value x.d) }
{
    let n = x.n;
    let m = x.m;
    let d = x.d;
    let product = W::multiply(n, m);
    match kind {
        Arithmetic::MultiplyAccumulate => W::add(d, product), // FMAC
        Arithmetic::MultiplySubtract => W::subtract(d, product), // FNMAC
        Arithmetic::NegateMultiplySubtract => W::add(W::negate(d), product), // FMSC
        Arithmetic::NegateMultiplyAccumulate => W::subtract(W::negate(d), product), // FNMSC
        Arithmetic::Multiply => product, // FMUL
        Arithmetic::NegateMultiply => W::negate(product), // FNMUL
        Arithmetic::Add => W::add(n, m), // FADD
        Arithmetic::Subtract => W::subtract(n, m), // FSUB
        Arithmetic::Divide => W::divide(n, m), // FDIV
    }
}

// The native result's word, if it is of no NaN and made of none. No float is made of a NaN: of one in a d that the kind does not read neither.
pub fn native<W: Precision>(kind: Arithmetic, n: W, m: W, d: W) -> Option<W>
    ensures value { IfSome result (λ w. W.number w ≡ applied W.format kind (W.number n) (W.number m) (W.number d)) }
    ensures in_range { IfSome result (λ _. (W.number n < 2 * top W.format) × (W.number m < 2 * top W.format) × (W.number d < 2 * top W.format)) }
{
    let infinity = infinity::<W>();
    if size_of(n) > infinity || size_of(m) > infinity || size_of(d) > infinity {
        return None;
    }
    let x = apply::<W>(kind, operands_of(n, m, d));
    if W::differs(x) { None } else { Some(bits(x)) }
}
