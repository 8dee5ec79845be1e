// The number of known places, kept beside the marks: of a word of marks and of a window's.
#![tactic(auto)]

ghost use Rattle.std.specs.Prelude.{◌≡◌, ◌<◌, ◌≤◌, length, set};
ghost use Rattle.bits.specs.Psr.{one_of};
ghost use Rattle.machine.specs.Place.{before};
ghost use Rattle.machine.specs.Window.{word_at};
ghost use Rattle.window_marks.specs.Marks.{ones_of};
ghost use Rattle.place_marks.specs.Word.{marks_of};
ghost use Rattle.known_places.specs.Count.{known_before};

use machine::window::word_at;
use place_marks::window::byte_of;
use window_marks::marks::one;

// Of the places before the window. Bits above the last place do not count.
pub fn known_before(marks: u64) -> usize
    ensures { (result ≡ known_before (marks_of marks)) × (result ≤ before) }
{
    u64::count_ones(marks % 0x20_0000_0000_0000) as usize
}

// The ones among a window's marks once a word is marked, from those before. Outside the window a mark is dropped.
pub fn ones_after(marks: &[u8], ones: usize, base: u32, address: u32, b: bool) -> usize
    requires { ones ≡ ones_of marks.now }
    ensures { result ≡ ones_of (set marks.now (word_at base address) (one_of b)) }
{
    let i = word_at(base, address);
    if i < marks.len() {
        return ones_with(marks, ones, i, b);
    }
    ones
}

// Inside the window: the mark that is replaced counts no more.
pub fn ones_with(marks: &[u8], ones: usize, i: usize, b: bool) -> usize
    requires { (ones ≡ ones_of marks.now) × (i < length marks.now) }
    ensures { result ≡ ones_of (set marks.now i (one_of b)) }
{
    ones + byte_of(b) as usize - one(marks[i])
}
