// A load or store by its fields: one register, several, or a pair.
ghost use Rattle.std.specs.Prelude.{◌≡◌};
ghost use Rattle.machine.specs.declared.Machine.{Machine};
ghost use Rattle.machine.specs.Machine.{with_s, with_r};
ghost use Rattle.registers.specs.Registers.{reg_of};
ghost use Rattle.machine.specs.Place.{state};
ghost use Rattle.bits.specs.Field.{field, bit_of};
ghost use Rattle.meaning.specs.Step.{step, after};
ghost use Rattle.meaning.specs.Tree.{out, plain, on};
ghost use Rattle.addresses.specs.Address.{format_of, count_of};
ghost use Rattle.memory.specs.LoadStore.{access_step, access_at, access_tree, load_store_tree};

use addresses::address;
use bits::field::bits;
use machine::address::plus;
use memory::words;
use pairs::pair;
use registers::registers::Single;

pub fn coprocessor_load_store(
    s: &mut [u32; 32],
    r: &mut [u32; 16],
    window: &mut [u32],
    base: u32,
    op: u32,
)
    ensures { (q : Machine) → out (state (with_s (with_r q r.new) s.new) window.new) on ≡ plain (load_store_tree base op) (state (with_s (with_r q r.old) s.old) window.old) }
{
    let coproc = bits(op, 8, 11);
    if (coproc != 10) & (coproc != 11) {
        return;
    }
    load_store(s, r, window, base, op, coproc == 11);
}

// In either precision. The base register is written back first: neither loads nor stores touch core registers.
fn load_store(
    s: &mut [u32; 32],
    r: &mut [u32; 16],
    window: &mut [u32],
    base: u32,
    op: u32,
    double: bool,
)
    ensures { (q : Machine) → out (state (with_s (with_r q r.new) s.new) window.new) on ≡ plain (access_tree (format_of double) base op) (state (with_s (with_r q r.old) s.old) window.old) }
{
    // bits 27:21 = 1100010 is the 64-bit transfer space.
    if bits(op, 21, 27) == 0b110_0010 {
        pair::move_pair(s, r, op, double);
        return;
    }
    let rn = bits(op, 16, 19) as usize;
    // VLDR and VSTR need neither a loop nor a write-back.
    if address::one_only(op) {
        let start = address::start_of(op, r[rn]);
        move_one(s, window, base, op, double, start);
        return;
    }
    let start = address::start_of(op, r[rn]);
    address::write_back(r, op);
    transfer(s, window, base, op, double, start);
}

// The registers of the transfer in turn, from an address on: their words in turn.
fn transfer(s: &mut [u32; 32], window: &mut [u32], base: u32, op: u32, double: bool, start: u32)
    ensures { (q : Machine) → state (with_s q s.new) window.new ≡ after (count_of (format_of double) op) (access_at (format_of double) (bit_of op 20) base (reg_of (format_of double) (field op 12 15) (field op 22 22)) start) (state (with_s q s.old) window.old) }
{
    let first = address::first_word(op, double);
    let count = address::word_count(op, double);
    words::move_words(s, window, base, op, start, first, count);
}

// One register.
fn move_one(s: &mut [u32; 32], window: &mut [u32], base: u32, op: u32, double: bool, start: u32)
    ensures { (q : Machine) → state (with_s q s.new) window.new ≡ step (access_step (format_of double) (bit_of op 20) base (reg_of (format_of double) (field op 12 15) (field op 22 22)) start) (state (with_s q s.old) window.old) }
{
    let first = address::first_word(op, double);
    words::move_word(s, window, base, op, start, first);
    if double {
        let high = Single(first.0 + 1);
        words::move_word(s, window, base, op, plus(start, 4), high);
    }
}
