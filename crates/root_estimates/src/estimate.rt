// An estimate of a root in whole numbers, and what it leaves.
ghost use Rattle.std.specs.Prelude.{◌≡◌, ◌*◌, ◌/◌, ◌%◌, ◌^◌, ◌<◌, ◌≤◌};
ghost use Rattle.std.specs.Float.Ieee.{prec};
ghost use Rattle.roots.specs.Root.{IsEstimate, radicand, scaled};

use floats::precision::Precision;
use std::num::wrapping_sub_u64;

// y is a normal value's 52 digits with the lowest bit of its exponent above them. The number whose root is looked for is 2 ^ 52 and the digits,
// and twice that where the bit is 0, which leaves an even exponent.
pub fn radicand(y: u64) -> u64
    requires { y < 2 ^ 53 }
    ensures { (result ≡ radicand y) × (result < 2 ^ 54) }
{
    if y < 0x10_0000_0000_0000 {
        y * 2 + 0x20_0000_0000_0000
    } else {
        y
    }
}

// A parabola for 1 / root over an eighth of 2 to 4, or of 1 to 2. From the top: where it starts, of 32 digits, then how much it bends and how steeply it
// starts to fall, of 16 each. It bends less than it falls.
fn seed(part: u64) -> u64
    ensures { (2 ^ 63 ≤ result) × (result / 0x1_0000 % 0x1_0000 ≤ result % 0x1_0000) }
{
    match part {
        0 => 0xB504_996F_0E9B_B427,
        1 => 0xAAAA_A3D4_0B0F_9720,
        2 => 0xA1E8_BBEE_089B_811F,
        3 => 0x9A5F_EB05_06DC_6FFB,
        4 => 0x93CD_82CF_058F_624F,
        5 => 0x8E01_2BA7_0497_5738,
        6 => 0x88D6_D439_03D4_4E0E,
        7 => 0x8433_0889_033F_4666,
        8 => 0xFFFF_55CE_14A9_FEC8,
        9 => 0xF15B_B117_0FA7_D5BC,
        10 => 0xE4F9_2737_0C2F_B69D,
        11 => 0xDA51_666B_09B4_9E5E,
        12 => 0xD106_1FEF_07DD_8B09,
        13 => 0xC8D2_F1AF_067E_7B59,
        14 => 0xC184_E197_056E_6E66,
        _ => 0xBAF5_13DE_0498_6390,
    }
}

// 2 ^ 31 / root of a, nearly, where a is y's radicand / 2 ^ 52 and top the same / 2 ^ 22: 15 digits, r, by the parabola, and one of Newton's steps,
// r * (3 - a * r * r) / 2. No contract says how near it is: who uses it checks it.
pub fn inverse(y: u64, top: u64) -> u64
    requires { top < 2 ^ 32 }
    ensures { result < 2 ^ 32 }
{
    let c = seed(y / 0x2_0000_0000_0000);
    let t = y / 0x2_0000_0000 % 0x1_0000;
    let fall = c % 0x1_0000 * t - c / 0x1_0000 % 0x1_0000 * (t * t / 0x1_0000);
    let r = (c / 0x1000_0000 - fall) / 0x10_0000;
    let factor = wrapping_sub_u64(0xC000_0000_0000_0000, r * r * top);
    r * (factor / 0x1_0000_0000) / 0x1_0000
}

// An estimate of a root, what its square leaves, and whether that is little enough.
#[derive(Clone, Copy)]
pub struct Estimate {
    pub root: u64,
    pub rest: u64,
    pub near: bool,
}

// A width and the estimate of its roots, of as many digits as it keeps: from a radicand and the inverse of its root.
pub trait Rooted: Precision {
    fn estimate(x: u64, n: u64) -> Estimate
        requires { (x < 2 ^ 54) × (n < 2 ^ 32) }
        ensures { IsEstimate (scaled Self.format x) (2 ^ prec Self.format) result.root result.rest result.near };
}

impl Rooted for u32 {
    fn estimate(x: u64, n: u64) -> Estimate {
        let q = x / 0x40_0000 * n / 0x40_0000_0000;
        let rest = wrapping_sub_u64(x / 64, q * q);
        Estimate {
            root: q,
            rest,
            near: rest <= 5 * q + 6,
        }
    }
}

impl Rooted for u64 {
    // The first 27 digits, h, and 26 more, l, from what h's square leaves. What is left is made in steps of 26 digits, each of which has to be small, so
    // that none is cut.
    fn estimate(x: u64, n: u64) -> Estimate {
        let h = x / 0x40_0000 * n / 0x8_0000_0000;
        let a = wrapping_sub_u64(x, h * h);
        let l = a % 0x1_0000_0000 * n / 0x1_0000_0000;
        let b = wrapping_sub_u64(a % 0x40_0000_0000 * 0x400_0000, 2 * h * l);
        let rest = wrapping_sub_u64(b % 0x40_0000_0000 * 0x400_0000, l * l);
        let q = h * 0x400_0000 + l;
        Estimate {
            root: q,
            rest,
            near: (a < 0x8000_0000) & (b < 0x8000_0000) & (rest <= 5 * q + 6),
        }
    }
}
