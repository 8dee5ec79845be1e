// Flush to zero, as a result is stored under FPSCR bit 24. Operands are never flushed.
ghost use Rattle.std.specs.Prelude.{◌≡◌};
ghost use Rattle.floats.specs.Flush.{flush};

use crate::precision::Precision;

pub fn flush<W: Precision>(control: u32, bits: W) -> W
    ensures { W.number result ≡ flush W.format control (W.number bits) }
{
    let b = bits.wide();
    if control / 0x100_0000 % 2 == 0 {
        return bits;
    }
    if b % W::SIGN < W::LEAST {
        return W::of_wide(b / W::SIGN * W::SIGN);
    }
    bits
}
