// The fields of a data-processing word.
ghost use Rattle.std.specs.Prelude.{◌≡◌, ◌<◌};
ghost use Rattle.registers.specs.Registers.{reg_of};
ghost use Rattle.register_fields.specs.Fields.{reg_d, reg_n, reg_m};

use bits::field::bits;
use registers::register::Register;
use registers::registers::{Double, Single, dreg, sreg};

// A register that a word names by four bits and an extra bit: a single has the extra bit lowest, a double highest.
pub trait Named: Register {
    fn named(four: u32, extra: u32) -> Self
        requires { (four < 16) × (extra < 2) }
        ensures { (Self.number result ≡ reg_of Self.Word.format four extra) × (Self.number result < 32) };
}

impl Named for Single {
    fn named(four: u32, extra: u32) -> Single {
        sreg(four, extra)
    }
}

impl Named for Double {
    fn named(four: u32, extra: u32) -> Double {
        dreg(four, extra)
    }
}

// The register d of a word, bits 15:12 and 22.
pub fn d_of<R: Named>(op: u32) -> R
    ensures { (R.number result ≡ reg_d R.Word.format op) × (R.number result < 32) }
{
    R::named(bits(op, 12, 15), bits(op, 22, 22))
}

// The register n of a word, bits 19:16 and 7.
pub fn n_of<R: Named>(op: u32) -> R
    ensures { (R.number result ≡ reg_n R.Word.format op) × (R.number result < 32) }
{
    R::named(bits(op, 16, 19), bits(op, 7, 7))
}

// The register m of a word, bits 3:0 and 5.
pub fn m_of<R: Named>(op: u32) -> R
    ensures { (R.number result ≡ reg_m R.Word.format op) × (R.number result < 32) }
{
    R::named(op % 16, bits(op, 5, 5))
}
