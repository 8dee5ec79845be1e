// VMOV between a core register and a single, which may be a double's high half: the mark goes with the word, to r15 too.
ghost use Rattle.std.specs.Prelude.{◌≡◌, Bool, List, ℕ};
ghost use Rattle.machine.specs.Place.{State};
ghost use Rattle.meaning.specs.Hang.{marked};
ghost use Rattle.transfers.specs.Transfer.{single_tree};
ghost use Rattle.place_marks.specs.Word.{map_in};

use bits::field::{bit, bits};
use register_marks::register::{MarkedRegister, core_known, mark_core};
use registers::registers::Single;

pub fn mark_single_core(marks: u64, sn: Single, op: u32) -> u64
    ensures { (thumb : Bool) (st : State) (w : List ℕ) → map_in result w ≡ marked (single_tree thumb sn.0 op) st (map_in marks w) }
{
    let rt = bits(op, 12, 15) as usize;
    if bit(op, 20) {
        return mark_core(marks, rt, sn.known(marks));
    }
    sn.mark(marks, core_known(marks, rt))
}
