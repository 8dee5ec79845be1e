// One register, VLDR or VSTR, with its marks.
ghost use Rattle.std.specs.Prelude.{◌≡◌};
ghost use Rattle.std.specs.Float.{binary32};
ghost use Rattle.bits.specs.Field.{field, bit_of};
ghost use Rattle.machine.specs.declared.Machine.{Machine};
ghost use Rattle.machine.specs.Machine.{with_s};
ghost use Rattle.registers.specs.Registers.{reg_of};
ghost use Rattle.machine.specs.Place.{state};
ghost use Rattle.meaning.specs.Step.{step, step_marks};
ghost use Rattle.addresses.specs.Address.{format_of};
ghost use Rattle.memory.specs.LoadStore.{access_step};
ghost use Rattle.place_marks.specs.Word.{map_in};
ghost use Rattle.window_marks.specs.Marks.{ones_of};

use addresses::address::first_word;
use bits::field::bit;
use known_places::ones_after;
use machine::address::plus;
use memory::words::move_word;
use place_marks::window::{mark_word, word_known};
use register_marks::register::MarkedRegister;
use registers::registers::Single;

pub(crate) fn watched_one(
    s: &mut [u32; 32],
    window: &mut [u32],
    marks: u64,
    window_marks: &mut [u8],
    ones: &mut usize,
    base: u32,
    op: u32,
    double: bool,
    start: u32,
) -> u64
    requires { ones.old ≡ ones_of window_marks.old }
    ensures { ((q : Machine) → state (with_s q s.new) window.new ≡ step (access_step (format_of double) (bit_of op 20) base (reg_of (format_of double) (field op 12 15) (field op 22 22)) start) (state (with_s q s.old) window.old)) × (map_in result window_marks.new ≡ step_marks (access_step (format_of double) (bit_of op 20) base (reg_of (format_of double) (field op 12 15) (field op 22 22)) start) (map_in marks window_marks.old)) × (ones.new ≡ ones_of window_marks.new) }
{
    let first = first_word(op, double);
    let y = watched_word(s, window, marks, window_marks, ones, base, op, start, first);
    if double {
        let high = Single(first.0 + 1);
        return watched_word(
            s,
            window,
            y,
            window_marks,
            ones,
            base,
            op,
            plus(start, 4),
            high,
        );
    }
    y
}

fn watched_word(
    s: &mut [u32; 32],
    window: &mut [u32],
    marks: u64,
    window_marks: &mut [u8],
    ones: &mut usize,
    base: u32,
    op: u32,
    address: u32,
    x: Single,
) -> u64
    requires { ones.old ≡ ones_of window_marks.old }
    ensures { ((q : Machine) → state (with_s q s.new) window.new ≡ step (access_step binary32 (bit_of op 20) base x.0 address) (state (with_s q s.old) window.old)) × (map_in result window_marks.new ≡ step_marks (access_step binary32 (bit_of op 20) base x.0 address) (map_in marks window_marks.old)) × (ones.new ≡ ones_of window_marks.new) }
{
    let y = mark_one(marks, window_marks, ones, base, op, address, x);
    move_word(s, window, base, op, address, x);
    y
}

// The mark of one word, by bit 20 from or to an address.
fn mark_one(
    marks: u64,
    window_marks: &mut [u8],
    ones: &mut usize,
    base: u32,
    op: u32,
    address: u32,
    x: Single,
) -> u64
    requires { ones.old ≡ ones_of window_marks.old }
    ensures { (map_in result window_marks.new ≡ step_marks (access_step binary32 (bit_of op 20) base x.0 address) (map_in marks window_marks.old)) × (ones.new ≡ ones_of window_marks.new) }
{
    if bit(op, 20) {
        let b = word_known(&window_marks[..], base, address);
        return x.mark(marks, b);
    }
    let b = x.known(marks);
    *ones = ones_after(&window_marks[..], *ones, base, address, b);
    mark_word(window_marks, base, address, b);
    marks
}
