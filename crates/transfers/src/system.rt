// VMSR and VMRS, opc1 = 7: bits 19:16 select the system register.
ghost use Rattle.std.specs.Prelude.{◌≡◌, List, Bool, ℕ};
ghost use Rattle.machine.specs.Machine.{assembled};
ghost use Rattle.machine.specs.Place.{state};
ghost use Rattle.meaning.specs.Tree.{out, plain, on};
ghost use Rattle.transfers.specs.Transfer.{system_tree};
ghost use Rattle.transfers.specs.Value.{system_value};

use bits::field::{bit, bits};
use bits::psr::Psr;
use machine::Controls;

// The parts that are no array, as the transfer leaves them.
pub fn system(r: &mut [u32; 16], x: Controls, op: u32) -> Controls
    ensures { (s v : List ℕ) (thumb : Bool) → out (state (assembled s r.new result thumb) v) on ≡ plain (system_tree op) (state (assembled s r.old x thumb) v) }
{
    let rt = bits(op, 12, 15) as usize;
    let reg = bits(op, 16, 19);
    if bit(op, 20) {
        let value = system_value(x, reg);
        if rt == 15 {
            // VMRS APSR_nzcv, FPSCR moves the comparison flags across.
            return Controls {
                fpscr: x.fpscr,
                fpexc: x.fpexc,
                cpsr: Psr::from_bits(value),
            };
        }
        r[rt] = value;
        return x;
    }
    let value = r[rt];
    let cpsr = x.cpsr;
    if reg == 1 {
        return Controls {
            fpscr: value,
            fpexc: x.fpexc,
            cpsr,
        };
    }
    if reg == 8 {
        return Controls {
            fpscr: x.fpscr,
            fpexc: value,
            cpsr,
        };
    }
    x
}

// What a read of a system register gives.
fn system_value(x: Controls, reg: u32) -> u32
    ensures { result ≡ system_value reg x.fpscr x.fpexc }
{
    match reg {
        0 => 0x4100_0000, // FPSID, VFPv2, ARM implementer
        1 => x.fpscr,
        6 => 0, // MVFR1
        7 => 0, // MVFR0
        8 => x.fpexc,
        _ => 0,
    }
}
