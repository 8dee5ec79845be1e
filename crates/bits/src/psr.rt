// psr.rs: the flags of the CPSR, and the conditions over them.
ghost use Rattle.std.specs.Prelude.{◌≡◌, ◌*◌, ◌/◌, ◌%◌, ◌^◌, ◌<◌};
ghost use Rattle.bits.specs.Psr.{holds, one_of, nzcv_of, psr_of};

use super::field::bit;

// The condition flags. The Thumb bit stands in the machine beside them; the other parts of the CPSR are left out.
#[derive(Clone, Copy)]
pub struct Psr {
    pub n: bool,
    pub z: bool,
    pub c: bool,
    pub v: bool,
}

impl Psr {
    // The flags in bits 31:28.
    pub fn to_bits(self) -> u32
        ensures { result ≡ nzcv_of self * 2 ^ 28 }
    {
        one(self.n) * 0x8000_0000
            + one(self.z) * 0x4000_0000
            + one(self.c) * 0x2000_0000
            + one(self.v) * 0x1000_0000
    }

    // The flags that bits 31:28 of a word give.
    pub fn from_bits(value: u32) -> Psr
        ensures { result ≡ psr_of (value / 2 ^ 28) }
    {
        Psr {
            n: bit(value, 31),
            z: bit(value, 30),
            c: bit(value, 29),
            v: bit(value, 28),
        }
    }
}

// A flag as a bit.
fn one(flag: bool) -> u32
    ensures { (result ≡ one_of flag) × (result < 2) }
{
    if flag { 1 } else { 0 }
}

// Whether an instruction of this condition, in its low four bits, is executed.
pub fn check_condition(cond: u32, psr: Psr) -> bool
    ensures { result ≡ holds (cond % 16) psr }
{
    let k = cond % 16;
    match k {
        0x0 => psr.z,
        0x1 => !psr.z,
        0x2 => psr.c,
        0x3 => !psr.c,
        0x4 => psr.n,
        0x5 => !psr.n,
        0x6 => psr.v,
        0x7 => !psr.v,
        0x8 => psr.c && !psr.z,
        0x9 => !psr.c || psr.z,
        0xA => psr.n == psr.v,
        0xB => psr.n != psr.v,
        0xC => !psr.z && (psr.n == psr.v),
        0xD => psr.z || (psr.n != psr.v),
        _ => true,
    }
}
