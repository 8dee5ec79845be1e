// Singles in turn, from or to the words from an address on, with their marks.
#![tactic(auto)]

ghost use Rattle.std.specs.Prelude.{◌≡◌, true, false, ◌<◌, ◌≤◌, length};
ghost use Rattle.std.specs.Float.{binary32};
ghost use Rattle.bits.specs.Field.{bit_of};
ghost use Rattle.machine.specs.declared.Machine.{Machine};
ghost use Rattle.machine.specs.Machine.{with_s};
ghost use Rattle.machine.specs.Place.{state};
ghost use Rattle.meaning.specs.Step.{after, after_marks};
ghost use Rattle.addresses.specs.Contiguous.{Contiguous};
ghost use Rattle.memory.specs.LoadStore.{access_at};
ghost use Rattle.place_marks.specs.Word.{map_in};
ghost use Rattle.window_marks.specs.Marks.{ones_of};

use addresses::contiguous::is_contiguous;
use bits::field::bit;
use block_marks::{mark_block_load, mark_block_store};
use known_places::ones_after;
use machine::address::plus;
use memory::words::{move_block, move_each};
use place_marks::window::{mark_word, word_known};
use register_marks::register::MarkedRegister;
use registers::registers::Single;

// The words and their marks, by bit 20 of the word loaded or stored. Only a store moves the number of ones among the window's marks.
pub fn watched_words(
    s: &mut [u32; 32],
    window: &mut [u32],
    marks: u64,
    window_marks: &mut [u8],
    ones: &mut usize,
    base: u32,
    op: u32,
    start: u32,
    first: Single,
    count: u32,
) -> u64
    requires { (first.0 < 32) × (count ≤ 510) × (ones.old ≡ ones_of window_marks.old) }
    ensures { ((q : Machine) → state (with_s q s.new) window.new ≡ after count (access_at binary32 (bit_of op 20) base first.0 start) (state (with_s q s.old) window.old)) × (map_in result window_marks.new ≡ after_marks count (access_at binary32 (bit_of op 20) base first.0 start) (map_in marks window_marks.old)) × (ones.new ≡ ones_of window_marks.new) }
{
    // As in the plain run: nearly every transfer is contiguous. Each word of a window has a mark.
    if (window.len() == window_marks.len())
        & is_contiguous(window.len(), base, start, first, count)
    {
        let y = mark_block(marks, window_marks, ones, base, op, start, first, count);
        move_block(s, window, base, op, start, first, count);
        return y;
    }
    let y = mark_each(marks, window_marks, ones, base, op, start, first, count);
    move_each(s, window, base, op, start, first, count);
    y
}

// The marks of a contiguous transfer.
fn mark_block(
    marks: u64,
    window_marks: &mut [u8],
    ones: &mut usize,
    base: u32,
    op: u32,
    start: u32,
    first: Single,
    count: u32,
) -> u64
    requires { (Contiguous (length window_marks.old) base start first.0 count) × (ones.old ≡ ones_of window_marks.old) }
    ensures { (map_in result window_marks.new ≡ after_marks count (access_at binary32 (bit_of op 20) base first.0 start) (map_in marks window_marks.old)) × (ones.new ≡ ones_of window_marks.new) }
{
    if bit(op, 20) {
        return mark_block_load(marks, &window_marks[..], base, start, first, count);
    }
    *ones = mark_block_store(marks, window_marks, *ones, base, start, first, count);
    marks
}

// Those of any transfer, with a test of each word.
fn mark_each(
    marks: u64,
    window_marks: &mut [u8],
    ones: &mut usize,
    base: u32,
    op: u32,
    start: u32,
    first: Single,
    count: u32,
) -> u64
    requires { (first.0 < 32) × (count ≤ 510) × (ones.old ≡ ones_of window_marks.old) }
    ensures { (map_in result window_marks.new ≡ after_marks count (access_at binary32 (bit_of op 20) base first.0 start) (map_in marks window_marks.old)) × (ones.new ≡ ones_of window_marks.new) }
{
    if bit(op, 20) {
        return mark_loads(marks, &window_marks[..], base, start, first, count);
    }
    *ones = mark_stores(marks, window_marks, *ones, base, start, first, count);
    marks
}

fn mark_loads(
    marks: u64,
    window_marks: &[u8],
    base: u32,
    start: u32,
    first: Single,
    count: u32,
) -> u64
    requires { (first.0 < 32) × (count ≤ 510) }
    ensures { map_in result window_marks.now ≡ after_marks count (access_at binary32 true base first.0 start) (map_in marks window_marks.now) }
{
    let mut y = marks;
    for i in 0..count {
        let b = word_known(window_marks, base, plus(start, 4 * i));
        y = Single(first.0 + i as usize).mark(y, b);
    }
    y
}

fn mark_stores(
    marks: u64,
    window_marks: &mut [u8],
    ones: usize,
    base: u32,
    start: u32,
    first: Single,
    count: u32,
) -> usize
    requires { (first.0 < 32) × (count ≤ 510) × (ones ≡ ones_of window_marks.old) }
    ensures { (map_in marks window_marks.new ≡ after_marks count (access_at binary32 false base first.0 start) (map_in marks window_marks.old)) × (result ≡ ones_of window_marks.new) }
{
    let mut y = ones;
    for i in 0..count {
        let b = Single(first.0 + i as usize).known(marks);
        let address = plus(start, 4 * i);
        y = ones_after(&window_marks[..], y, base, address, b);
        mark_word(window_marks, base, address, b);
    }
    y
}
