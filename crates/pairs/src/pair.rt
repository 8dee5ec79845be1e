// VMOV between two core registers and either a double or two singles.
ghost use Rattle.std.specs.Prelude.{◌≡◌, List, ℕ};
ghost use Rattle.bits.specs.Field.{bit_of};
ghost use Rattle.machine.specs.declared.Machine.{Machine};
ghost use Rattle.machine.specs.Machine.{with_s, with_r};
ghost use Rattle.machine.specs.Place.{state, s_word};
ghost use Rattle.meaning.specs.Step.{step};
ghost use Rattle.addresses.specs.Address.{format_of};
ghost use Rattle.pairs.specs.Pair.{pair_of, pair_step};

use addresses::halves::{high_word, low_word};
use bits::field::{bit, bits};
use registers::registers::{Single, dreg, get_single, set_single, sreg};

pub fn move_pair(s: &mut [u32; 32], r: &mut [u32; 16], op: u32, double: bool)
    ensures { (q : Machine) (v : List ℕ) → state (with_s (with_r q r.new) s.new) v ≡ step (pair_step (format_of double) op) (state (with_s (with_r q r.old) s.old) v) }
{
    let m_bit = bits(op, 5, 5);
    let vm = op % 16;
    if double {
        let dm = dreg(vm, m_bit);
        move_both(s, r, op, low_word(dm), high_word(dm));
        return;
    }
    let sm = sreg(vm, m_bit);
    move_both(s, r, op, sm, Single(sm.0 + 1));
}

// The words from or to the core registers of bits 15:12 and 19:16.
fn move_both(s: &mut [u32; 32], r: &mut [u32; 16], op: u32, first: Single, second: Single)
    ensures { (q : Machine) (v : List ℕ) → state (with_s (with_r q r.new) s.new) v ≡ step (pair_of (bit_of op 20) op (s_word first.0) (s_word second.0)) (state (with_s (with_r q r.old) s.old) v) }
{
    let rt = bits(op, 12, 15) as usize;
    let rt2 = bits(op, 16, 19) as usize;
    if bit(op, 20) {
        r[rt] = get_single(s, first);
        r[rt2] = get_single(s, second);
        return;
    }
    set_single(s, first, r[rt]);
    set_single(s, second, r[rt2]);
}
