// A native result that is stored as it is, whatever FZ says, and raises nothing or inexact alone, as its word shows: in mode 00.
ghost use Rattle.std.specs.Prelude.{◌≡◌, ℕ, ◌/◌, ◌%◌, ◌^◌, true, IfSome};
ghost use Rattle.numbers.specs.Arithmetic.{accumulates};
ghost use Rattle.quiet.specs.Quiet.{Within, Product, IsQuick};

use floats::parts::infinity;
use floats::precision::Precision;
use numbers::arithmetic::{Arithmetic, native};

// The first sum drops the sign, and the second puts what is at most the least normal value last.
fn is_within<W: Precision>(w: W) -> bool
    ensures { result ≡ true → Within W.format (W.number w) }
{
    let doubled = w.wrapping_add(w);
    let below = W::of_wide((W::SIGN - W::LEAST - 1) * 2);
    doubled.wrapping_add(below).wide() < (infinity::<W>() - W::LEAST - 1) * 2
}

// Whether an accumulate's product is within as well.
fn is_product<W: Precision>(accumulate: bool, n: W, m: W, d: W) -> bool
    ensures { result ≡ true → Product W.format accumulate (W.number n) (W.number m) (W.number d) }
{
    if accumulate {
        return native(Arithmetic::Multiply, n, m, d).is_some_and(|p| is_within(p));
    }
    true
}

// Whether the kind accumulates is handed over: the callers know it before they look at the kind.
pub fn quick<W: Precision>(kind: Arithmetic, accumulate: bool, n: W, m: W, d: W) -> Option<W>
    requires { accumulate ≡ accumulates kind }
    ensures { IfSome result (λ w. (control : ℕ) → control / 2 ^ 22 % 4 ≡ 0 → IsQuick W.format control kind (W.number n) (W.number m) (W.number d) (W.number w)) }
{
    let w = native(kind, n, m, d)?;
    if is_within(w) && is_product(accumulate, n, m, d) {
        Some(w)
    } else {
        None
    }
}
