// The writer of a record: its numbers one after another into a lent buffer.
#![tactic(auto)]

ghost use Rattle.std.specs.Prelude.{◌≡◌, ◌+◌, ◌*◌, ◌%◌, ◌^◌, ◌<◌, ◌≤◌, length};
ghost use Rattle.machine.specs.Place.{before};
ghost use Rattle.window_marks.specs.Marks.{bytes_of};
ghost use Rattle.records.specs.Number.{written, laid};
ghost use Rattle.records.specs.Recorded.{marks_of_word, record_of, Fits, Wrote};

use machine::place::WINDOW;
use record_numbers::count::LAYOUT_BIT;

fn low_byte(x: u32) -> u8
    ensures { result ≡ x % 256 }
{
    (x % 256) as u8
}

// Writes a number from a position on. Gives the position past it, as the functions below do.
pub fn put_number(to: &mut [u8], at: usize, x: u32) -> usize
    requires { at + 4 ≤ length to.old }
    ensures { (result ≡ at + 4) × (to.new ≡ laid to.old at (bytes_of 4 x)) }
{
    to[at] = low_byte(x);
    to[at + 1] = low_byte(x / 256);
    to[at + 2] = low_byte(x / 256 / 256);
    to[at + 3] = low_byte(x / 256 / 256 / 256);
    at + 4
}

// Writes numbers.
pub fn put_numbers(to: &mut [u8], at: usize, words: &[u32]) -> usize
    requires { at + 4 * length words.now ≤ length to.old }
    ensures { (result ≡ at + 4 * length words.now) × (to.new ≡ laid to.old at (written words.now)) }
{
    let mut next = at;
    let mut i: usize = 0;
    while i < words.len() {
        next = put_number(to, next, words[i]);
        i += 1;
    }
    next
}

fn number(x: u8) -> u32
    ensures { result ≡ x }
{
    x as u32
}

// Writes marks, each as a number.
pub fn put_marks(to: &mut [u8], at: usize, marks: &[u8]) -> usize
    requires { at + 4 * length marks.now ≤ length to.old }
    ensures { (result ≡ at + 4 * length marks.now) × (to.new ≡ laid to.old at (written marks.now)) }
{
    let mut next = at;
    let mut i: usize = 0;
    while i < marks.len() {
        next = put_number(to, next, number(marks[i]));
        i += 1;
    }
    next
}

fn low_bit(x: u64) -> u32
    ensures { result ≡ x % 2 }
{
    (x % 2) as u32
}

// Writes the marks of the places before the window: bit p of a word as number p.
pub fn put_word_marks(to: &mut [u8], at: usize, marks: u64) -> usize
    requires { at + 4 * before ≤ length to.old }
    ensures { (result ≡ at + 4 * before) × (to.new ≡ laid to.old at (written (marks_of_word before marks))) }
{
    let mut next = at;
    let mut rest = marks;
    let mut i: usize = 0;
    while i < WINDOW {
        next = put_number(to, next, low_bit(rest));
        rest /= 2;
        i += 1;
    }
    next
}

fn count(n: usize) -> u32
    requires { n < 2 ^ 32 }
    ensures { result ≡ n }
{
    n as u32
}

// Writes the record of a state's words and the word of their marks, a window with its marks, a base and a list, to the start of a buffer.
// Gives the count of its bytes.
pub fn write(
    state: &[u32],
    marks: u64,
    window: &[u32],
    window_marks: &[u8],
    base: u32,
    list: &[u32],
    to: &mut [u8],
) -> usize
    requires { Fits state.now window.now window_marks.now list.now to.old }
    ensures { Wrote (record_of state.now marks window.now window_marks.now base list.now)
        to.old result to.new }
{
    let at = put_number(to, 0, LAYOUT_BIT + count(list.len()));
    let at = put_number(to, at, count(WINDOW + window.len()));
    let at = put_numbers(to, at, state);
    let at = put_numbers(to, at, window);
    let at = put_word_marks(to, at, marks);
    let at = put_marks(to, at, window_marks);
    let at = put_number(to, at, base);
    put_numbers(to, at, list)
}
