// VMOV between a core register and a single, which may be a double's high half.
ghost use Rattle.std.specs.Prelude.{◌≡◌, List, ℕ, set};
ghost use Rattle.machine.specs.declared.Controls.{Controls};
ghost use Rattle.machine.specs.Machine.{assembled};
ghost use Rattle.machine.specs.Place.{state};
ghost use Rattle.meaning.specs.Tree.{out, plain};
ghost use Rattle.transfers.specs.Transfer.{after_transfer, target, single_tree};

use bits::field::{bit, bits};
use registers::registers::{Single, get_single, set_single};

// Whether it branched: r15 is written through `branch`.
pub fn single_core(s: &mut [u32; 32], r: &mut [u32; 16], thumb: bool, sn: Single, op: u32) -> bool
    ensures { (x : Controls) (v : List ℕ) → out (state (assembled s.new r.new x thumb) v) (after_transfer result) ≡ plain (single_tree thumb sn.0 op) (state (assembled s.old r.old x thumb) v) }
{
    let rt = bits(op, 12, 15) as usize;
    if bit(op, 20) {
        let value = get_single(s, sn);
        if rt == 15 {
            branch(r, thumb, value);
            return true;
        }
        r[rt] = value;
        return false;
    }
    let value = r[rt];
    set_single(s, sn, value);
    false
}

// To an address in the current instruction set.
fn branch(r: &mut [u32; 16], thumb: bool, addr: u32)
    ensures { r.new ≡ set r.old 15 (target thumb addr) }
{
    if thumb {
        r[15] = addr / 2 * 2;
        return;
    }
    r[15] = addr / 4 * 4;
}
