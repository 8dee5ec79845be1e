// The marks of VMOV between two core registers and either a double or two singles.
#![tactic(auto)]

ghost use Rattle.std.specs.Prelude.{◌≡◌, List, ℕ};
ghost use Rattle.bits.specs.Field.{bit_of};
ghost use Rattle.machine.specs.Place.{s_word};
ghost use Rattle.meaning.specs.Step.{step_marks};
ghost use Rattle.addresses.specs.Address.{format_of};
ghost use Rattle.pairs.specs.Pair.{pair_of, pair_step};
ghost use Rattle.place_marks.specs.Word.{map_in};

use addresses::halves::{high_word, low_word};
use bits::field::{bit, bits};
use register_marks::register::{MarkedRegister, core_known, mark_core};
use registers::registers::{Single, dreg, sreg};

pub fn mark_pair(marks: u64, op: u32, double: bool) -> u64
    ensures { (w : List ℕ) → map_in result w ≡ step_marks (pair_step (format_of double) op) (map_in marks w) }
{
    let m_bit = bits(op, 5, 5);
    let vm = op % 16;
    if double {
        let dm = dreg(vm, m_bit);
        return mark_both(marks, op, low_word(dm), high_word(dm));
    }
    let sm = sreg(vm, m_bit);
    mark_both(marks, op, sm, Single(sm.0 + 1))
}

// The words from or to the core registers of bits 15:12 and 19:16.
fn mark_both(marks: u64, op: u32, first: Single, second: Single) -> u64
    ensures { (w : List ℕ) → map_in result w ≡ step_marks (pair_of (bit_of op 20) op (s_word first.0) (s_word second.0)) (map_in marks w) }
{
    let rt = bits(op, 12, 15) as usize;
    let rt2 = bits(op, 16, 19) as usize;
    if bit(op, 20) {
        let y = mark_core(marks, rt, first.known(marks));
        return mark_core(y, rt2, second.known(marks));
    }
    let y = first.mark(marks, core_known(marks, rt));
    second.mark(y, core_known(marks, rt2))
}
