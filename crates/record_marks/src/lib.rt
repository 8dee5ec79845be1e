// The marks of a record, which are numbers there.
#![tactic(auto)]

ghost use Rattle.std.specs.Prelude.{◌≡◌, true, ◌+◌, ◌*◌, ◌<◌, ◌≤◌, length, take, drop};
ghost use Rattle.machine.specs.Place.{before};
ghost use Rattle.window_marks.specs.Marks.{bits_only};
ghost use Rattle.records.specs.Number.{numbers_of};
ghost use Rattle.records.specs.Recorded.{word_of_marks};

use machine::place::WINDOW;
use record_numbers::nth;

// Whether so many numbers from one on are 0 or 1.
pub fn bits_only(bytes: &[u8], from: usize, count: usize) -> bool
    requires { 4 * (from + count) ≤ length bytes.now }
    ensures { result ≡ bits_only (take count (drop from (numbers_of bytes.now))) }
{
    let mut i: usize = 0;
    while i < count {
        if 1 < nth(bytes, from + i) {
            return false;
        }
        i += 1;
    }
    true
}

fn byte_of(x: u32) -> u8
    requires { x < 2 }
    ensures { result ≡ x }
{
    x as u8
}

// A byte for each of the marks from one on, as many as there is room for.
pub fn fill(bytes: &[u8], from: usize, to: &mut [u8])
    requires { (4 * (from + length to.old) ≤ length bytes.now)
        × (bits_only (take (length to.old) (drop from (numbers_of bytes.now))) ≡ true) }
    ensures { to.new ≡ take (length to.old) (drop from (numbers_of bytes.now)) }
{
    let mut i: usize = 0;
    while i < to.len() {
        to[i] = byte_of(nth(bytes, from + i));
        i += 1;
    }
}

fn wide(x: u32) -> u64
    ensures { result ≡ x }
{
    x as u64
}

// The marks of the places before the window, from one on, in a word: bit p is the mark of place p.
pub fn word(bytes: &[u8], from: usize) -> u64
    requires { (4 * (from + before) ≤ length bytes.now) × (bits_only (take before (drop from (numbers_of bytes.now))) ≡ true) }
    ensures { result ≡ word_of_marks (take before (drop from (numbers_of bytes.now))) }
{
    let mut w: u64 = 0;
    let mut i: usize = WINDOW;
    while 0 < i {
        i -= 1;
        w = w * 2 + wide(nth(bytes, from + i));
    }
    w
}
