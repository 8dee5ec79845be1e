// A word's value with the other sign.
ghost use Rattle.std.specs.Prelude.{◌≡◌, from_bits};
ghost use Rattle.std.specs.Float.Ieee.{neg};

use floats::precision::Precision;

// The sign's bit flipped, of a NaN too.
pub fn negate<W: Precision>(b: W) -> W
    ensures { from_bits W.format (W.number result) ≡ neg (from_bits W.format (W.number b)) }
{
    b.wrapping_add(W::of_wide(W::SIGN))
}
