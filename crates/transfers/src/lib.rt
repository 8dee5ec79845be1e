// Register transfers (vfp.rs `coprocessor_register`, MCR and MRC on coprocessors 10 and 11), over lent registers.
#![tactic(auto)]

pub mod single;
pub mod system;

ghost use Rattle.std.specs.Prelude.{◌≡◌, List, ℕ};
ghost use Rattle.machine.specs.Machine.{assembled};
ghost use Rattle.machine.specs.Place.{state};
ghost use Rattle.meaning.specs.Tree.{out, plain};
ghost use Rattle.transfers.specs.Transfer.{after_transfer, high_half, transfer_of, transfer_tree};

use bits::field::bits;
use machine::Controls;
use registers::registers::{Single, sreg};

// Which transfer a word is: of a system register, of a single by its number, or none, which does nothing.
#[derive(Clone, Copy)]
pub enum Transfer {
    System,
    Single(Single),
    Nothing,
}

// What a transfer hands back beside the lent registers, and whether it branched.
#[derive(Clone, Copy)]
pub struct Transferred {
    pub controls: Controls,
    pub branched: bool,
}

pub fn coprocessor_register(
    s: &mut [u32; 32],
    r: &mut [u32; 16],
    x: Controls,
    thumb: bool,
    op: u32,
) -> Transferred
    ensures { (v : List ℕ) → out (state (assembled s.new r.new result.controls thumb) v) (after_transfer result.branched) ≡ plain (transfer_tree thumb op) (state (assembled s.old r.old x thumb) v) }
{
    let transfer = transfer_of(op);
    match transfer {
        Transfer::System => Transferred {
            controls: system::system(r, x, op),
            branched: false,
        },
        Transfer::Single(sn) => Transferred {
            controls: x,
            branched: single::single_core(s, r, thumb, sn, op),
        },
        Transfer::Nothing => Transferred {
            controls: x,
            branched: false,
        },
    }
}

// By opc1, bits 23:21, and for opc1 1 by the coprocessor, bits 11:8.
pub fn transfer_of(op: u32) -> Transfer
    ensures { result ≡ transfer_of op }
{
    let opc1 = bits(op, 21, 23);
    if opc1 == 7 {
        return Transfer::System;
    }
    let n = bits(op, 16, 19);
    if opc1 == 0 {
        return Transfer::Single(sreg(n, bits(op, 7, 7)));
    }
    if is_high_half(op) {
        return Transfer::Single(sreg(n, 1));
    }
    Transfer::Nothing
}

// Opc1 1 under coprocessor 11: the high half of a double.
pub fn is_high_half(op: u32) -> bool
    ensures { result ≡ high_half op }
{
    (bits(op, 21, 23) == 1) & (bits(op, 8, 11) == 11)
}
