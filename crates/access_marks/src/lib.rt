// Loads, stores and pairs of the watched run: the work of crate `memory` with the marks that it leaves, from one decoding.
#![tactic(auto)]

mod one;

ghost use Rattle.std.specs.Prelude.{◌≡◌, List, ℕ};
ghost use Rattle.bits.specs.Field.{field, bit_of};
ghost use Rattle.machine.specs.declared.Machine.{Machine};
ghost use Rattle.machine.specs.Machine.{with_s, with_r};
ghost use Rattle.registers.specs.Registers.{reg_of};
ghost use Rattle.machine.specs.Place.{state};
ghost use Rattle.meaning.specs.Step.{after, after_marks};
ghost use Rattle.meaning.specs.Tree.{out, plain, on};
ghost use Rattle.meaning.specs.Hang.{marked};
ghost use Rattle.addresses.specs.Address.{format_of, count_of};
ghost use Rattle.memory.specs.LoadStore.{access_at, access_tree, load_store_tree};
ghost use Rattle.place_marks.specs.Word.{map_in};
ghost use Rattle.window_marks.specs.Marks.{ones_of};

use addresses::address::{first_word, one_only, start_of, word_count, write_back};
use bits::field::bits;
use pair_marks::mark_pair;
use pairs::pair::move_pair;
use watched_words::watched_words;

// The base register's value says which window words move. A write-back changes no mark. The number of ones among the window's marks is kept.
pub fn watched_load_store(
    s: &mut [u32; 32],
    r: &mut [u32; 16],
    window: &mut [u32],
    marks: u64,
    window_marks: &mut [u8],
    ones: &mut usize,
    base: u32,
    op: u32,
) -> u64
    requires { ones.old ≡ ones_of window_marks.old }
    ensures { ((q : Machine) → out (state (with_s (with_r q r.new) s.new) window.new) on ≡ plain (load_store_tree base op) (state (with_s (with_r q r.old) s.old) window.old)) × ((q : Machine) (v : List ℕ) → map_in result window_marks.new ≡ marked (load_store_tree base op) (state (with_r q r.old) v) (map_in marks window_marks.old)) × (ones.new ≡ ones_of window_marks.new) }
{
    let coproc = bits(op, 8, 11);
    if (coproc != 10) & (coproc != 11) {
        return marks;
    }
    let double = coproc == 11;
    watched_access(s, r, window, marks, window_marks, ones, base, op, double)
}

// In either precision.
fn watched_access(
    s: &mut [u32; 32],
    r: &mut [u32; 16],
    window: &mut [u32],
    marks: u64,
    window_marks: &mut [u8],
    ones: &mut usize,
    base: u32,
    op: u32,
    double: bool,
) -> u64
    requires { ones.old ≡ ones_of window_marks.old }
    ensures { ((q : Machine) → out (state (with_s (with_r q r.new) s.new) window.new) on ≡ plain (access_tree (format_of double) base op) (state (with_s (with_r q r.old) s.old) window.old)) × ((q : Machine) (v : List ℕ) → map_in result window_marks.new ≡ marked (access_tree (format_of double) base op) (state (with_r q r.old) v) (map_in marks window_marks.old)) × (ones.new ≡ ones_of window_marks.new) }
{
    if bits(op, 21, 27) == 0b110_0010 {
        let y = mark_pair(marks, op, double);
        move_pair(s, r, op, double);
        return y;
    }
    let rn = bits(op, 16, 19) as usize;
    // VLDR and VSTR need neither a loop nor a write-back.
    if one_only(op) {
        let start = start_of(op, r[rn]);
        return one::watched_one(
            s,
            window,
            marks,
            window_marks,
            ones,
            base,
            op,
            double,
            start,
        );
    }
    let start = start_of(op, r[rn]);
    write_back(r, op);
    watched_transfer(
        s,
        window,
        marks,
        window_marks,
        ones,
        base,
        op,
        double,
        start,
    )
}

// The registers of the transfer in turn, from an address on: their words in turn.
fn watched_transfer(
    s: &mut [u32; 32],
    window: &mut [u32],
    marks: u64,
    window_marks: &mut [u8],
    ones: &mut usize,
    base: u32,
    op: u32,
    double: bool,
    start: u32,
) -> u64
    requires { ones.old ≡ ones_of window_marks.old }
    ensures { ((q : Machine) → state (with_s q s.new) window.new ≡ after (count_of (format_of double) op) (access_at (format_of double) (bit_of op 20) base (reg_of (format_of double) (field op 12 15) (field op 22 22)) start) (state (with_s q s.old) window.old)) × (map_in result window_marks.new ≡ after_marks (count_of (format_of double) op) (access_at (format_of double) (bit_of op 20) base (reg_of (format_of double) (field op 12 15) (field op 22 22)) start) (map_in marks window_marks.old)) × (ones.new ≡ ones_of window_marks.new) }
{
    let first = first_word(op, double);
    let count = word_count(op, double);
    watched_words(
        s,
        window,
        marks,
        window_marks,
        ones,
        base,
        op,
        start,
        first,
        count,
    )
}
