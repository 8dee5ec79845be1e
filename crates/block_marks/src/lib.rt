// The marks of a contiguous transfer of singles, from or to the words from an address on.
#![tactic(auto)]

ghost use Rattle.std.specs.Prelude.{◌≡◌, true, false, length};
ghost use Rattle.std.specs.Float.{binary32};
ghost use Rattle.meaning.specs.Step.{after_marks};
ghost use Rattle.addresses.specs.Contiguous.{Contiguous};
ghost use Rattle.memory.specs.LoadStore.{access_at};
ghost use Rattle.place_marks.specs.Word.{map_in};
ghost use Rattle.window_marks.specs.Marks.{ones_of};

use machine::window::word_at;
use place_marks::place::{is_known, set_known};
use place_marks::window::byte_of;
use registers::registers::Single;

// Loads: the word of marks is handed back.
pub fn mark_block_load(
    marks: u64,
    window_marks: &[u8],
    base: u32,
    start: u32,
    first: Single,
    count: u32,
) -> u64
    requires { Contiguous (length window_marks.now) base start first.0 count }
    ensures { map_in result window_marks.now ≡ after_marks count (access_at binary32 true base first.0 start) (map_in marks window_marks.now) }
{
    let at = word_at(base, start);
    let n = count as usize;
    let mut y = marks;
    for i in 0..n {
        y = set_known(y, first.0 + i, window_marks[at + i] == 1);
    }
    y
}

// Stores: the number of ones among the window's marks is handed back.
pub fn mark_block_store(
    marks: u64,
    window_marks: &mut [u8],
    ones: usize,
    base: u32,
    start: u32,
    first: Single,
    count: u32,
) -> usize
    requires { (Contiguous (length window_marks.old) base start first.0 count) × (ones ≡ ones_of window_marks.old) }
    ensures { (map_in marks window_marks.new ≡ after_marks count (access_at binary32 false base first.0 start) (map_in marks window_marks.old)) × (result ≡ ones_of window_marks.new) }
{
    let at = word_at(base, start);
    let n = count as usize;
    // 32 more than the ones that came less those that went: a byte, so that the compiler can take several marks at a time.
    let mut y: u8 = 32;
    for i in 0..n {
        let b = byte_of(is_known(marks, first.0 + i));
        y = y + b - byte_of(window_marks[at + i] == 1);
        window_marks[at + i] = b;
    }
    ones + y as usize - 32
}
