// VMSR and VMRS, opc1 = 7.
ghost use Rattle.std.specs.Prelude.{◌≡◌, List, ℕ};
ghost use Rattle.machine.specs.Place.{Place, State};
ghost use Rattle.meaning.specs.Step.{all_known};
ghost use Rattle.meaning.specs.Hang.{marked};
ghost use Rattle.transfers.specs.Transfer.{read_system, read_flags, system_tree};
ghost use Rattle.place_marks.specs.Word.{map_in};

use bits::field::{bit, bits};
use machine::place::{CONTROL, EXC, EXCEPTIONS, FLAGS, NZCV};
use place_marks::place::{is_known, set_known};
use register_marks::register::{core_known, mark_core};

pub fn mark_system(marks: u64, op: u32) -> u64
    ensures { (st : State) (w : List ℕ) → map_in result w ≡ marked (system_tree op) st (map_in marks w) }
{
    let rt = bits(op, 12, 15) as usize;
    let reg = bits(op, 16, 19);
    if bit(op, 20) {
        if rt == 15 {
            return set_known(marks, NZCV, flags_known(marks, reg));
        }
        return mark_core(marks, rt, value_known(marks, reg));
    }
    let b = core_known(marks, rt);
    if reg == 1 {
        // The three parts of FPSCR alike.
        let y = set_known(marks, FLAGS, b);
        let z = set_known(y, CONTROL, b);
        return set_known(z, EXCEPTIONS, b);
    }
    if reg == 8 {
        return set_known(marks, EXC, b);
    }
    marks
}

// A read of FPSCR needs all its parts; what is constant is known.
fn value_known(marks: u64, reg: u32) -> bool
    ensures { (w : List ℕ) (p : Place) → result ≡ all_known (map_in marks w) (read_system reg p).sources }
{
    match reg {
        1 => is_known(marks, EXCEPTIONS) & is_known(marks, CONTROL) & is_known(marks, FLAGS),
        8 => is_known(marks, EXC),
        _ => true,
    }
}

// Of FPSCR bits 31:28 go to NZCV.
fn flags_known(marks: u64, reg: u32) -> bool
    ensures { (w : List ℕ) → result ≡ all_known (map_in marks w) (read_flags reg).sources }
{
    match reg {
        1 => is_known(marks, FLAGS),
        8 => is_known(marks, EXC),
        _ => true,
    }
}
