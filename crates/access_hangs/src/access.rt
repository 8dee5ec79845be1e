// Loads, stores and pairs.
ghost use Rattle.std.specs.Prelude.{◌≡◌, List, ℕ};
ghost use Rattle.std.specs.Float.{Format};
ghost use Rattle.machine.specs.Place.{State};
ghost use Rattle.meaning.specs.Hang.{hang_of};
ghost use Rattle.memory.specs.LoadStore.{access_tree, load_store_tree};
ghost use Rattle.place_marks.specs.Word.{map_in};
ghost use Rattle.hangs.specs.Hang.{hang_is};

use bits::field::bits;
use hangs::{Hang, asked};
use machine::place::CORE;
use register_marks::register::core_known;

// A load or store hangs on its base register; a pair has none.
pub fn hang_access(marks: u64, op: u32) -> Hang
    ensures { (base : ℕ) (st : State) (w : List ℕ) → hang_is result ≡ hang_of (load_store_tree base op) st (map_in marks w) }
{
    let coproc = bits(op, 8, 11);
    if coproc == 10 {
        return hang_base(marks, op);
    }
    if coproc == 11 {
        return hang_base(marks, op);
    }
    Hang::Clear
}

// In either precision.
fn hang_base(marks: u64, op: u32) -> Hang
    ensures { (f : Format) (base : ℕ) (st : State) (w : List ℕ) → hang_is result ≡ hang_of (access_tree f base op) st (map_in marks w) }
{
    if bits(op, 21, 27) == 0b110_0010 {
        return Hang::Clear;
    }
    let rn = bits(op, 16, 19) as usize;
    asked(core_known(marks, rn), CORE + rn)
}
