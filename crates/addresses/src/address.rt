// The addresses and the number of registers that a load or store goes by.
ghost use Rattle.std.specs.Prelude.{◌≡◌, cond, List, ℕ, ◌+◌, ◌-◌, ◌*◌, ◌%◌, ◌<◌, ◌≤◌, ◌^◌};
ghost use Rattle.bits.specs.Field.{field, bit_of};
ghost use Rattle.machine.specs.declared.Machine.{Machine};
ghost use Rattle.machine.specs.Machine.{with_r};
ghost use Rattle.registers.specs.Registers.{reg_of};
ghost use Rattle.machine.specs.Place.{state};
ghost use Rattle.meaning.specs.Step.{step};
ghost use Rattle.addresses.specs.Address.{format_of, offset, one_only, several, count_of, words_in, first_word, start_of, write_back};

use super::halves::low_word;
use bits::field::{bit, bits};
use machine::address::{minus, plus};
use registers::registers::{Single, dreg, sreg};

// P set and W clear: VLDR and VSTR, one register at base + or - offset.
pub fn one_only(op: u32) -> bool
    ensures { result ≡ one_only op }
{
    bit(op, 24) & !bit(op, 21)
}

pub fn count_of(op: u32, double: bool) -> u32
    ensures { (result ≡ count_of (format_of double) op) × (result ≤ 255) }
{
    if one_only(op) {
        return 1;
    }
    let count = several_of(op, double);
    if count == 0 {
        return 1;
    }
    count
}

// The words of the registers that move: of a double two.
pub fn word_count(op: u32, double: bool) -> u32
    ensures { (result ≡ words_in (format_of double) * count_of (format_of double) op) × (result ≤ 510) }
{
    let count = count_of(op, double);
    if double {
        return 2 * count;
    }
    count
}

// The first of those words, as a single: of a double the low one.
pub fn first_word(op: u32, double: bool) -> Single
    ensures { (result.0 ≡ first_word (format_of double) (reg_of (format_of double) (field op 12 15) (field op 22 22))) × (result.0 < 32) }
{
    let d_bit = bits(op, 22, 22);
    let vd = bits(op, 12, 15);
    if double {
        return low_word(dreg(vd, d_bit));
    }
    sreg(vd, d_bit)
}

// imm8 words, halved down for doubles.
fn several_of(op: u32, double: bool) -> u32
    ensures { (result ≡ several (format_of double) op) × (result ≤ 255) }
{
    if double {
        return op % 256 / 2;
    }
    op % 256
}

// The first address: base + or - offset, but the base itself where U is set and more than one register may move.
pub fn start_of(op: u32, from: u32) -> u32
    ensures { result ≡ start_of op from }
{
    if bit(op, 23) & !one_only(op) {
        return from;
    }
    offset_from(op, from)
}

// base + or - offset, by U.
fn offset_from(op: u32, from: u32) -> u32
    ensures { result ≡ (from + cond (bit_of op 23) (offset op) (2 ^ 32 - offset op)) % 2 ^ 32 }
{
    if bit(op, 23) {
        return plus(from, op % 256 * 4);
    }
    minus(from, op % 256 * 4)
}

// W: the base register becomes base + or - offset.
pub fn write_back(r: &mut [u32; 16], op: u32)
    ensures { (q : Machine) (v : List ℕ) → state (with_r q r.new) v ≡ step (write_back op) (state (with_r q r.old) v) }
{
    if bit(op, 21) {
        let rn = bits(op, 16, 19) as usize;
        r[rn] = offset_from(op, r[rn]);
    }
}
