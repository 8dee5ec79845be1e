// The marks and values of places, by their numbers: the words of the state and of the window, the word of marks, and the window's own marks.
ghost use Rattle.std.specs.Prelude.{◌≡◌, ◌≤◌};
ghost use Rattle.place_values.specs.Place.{marked_at, word_at, differs_of};
ghost use Rattle.place_values.specs.Seen.{known_in, value_in, next_unknown_in, changed_in, next_change_in};

use machine::place::{FLAGS, NZCV, WINDOW};

// What is there before a run or after it: the words of the state and of the window, with their marks.
#[derive(Clone, Copy, Debug, PartialEq, Eq)]
pub struct Seen<'a> {
    pub state: &'a [u32],
    pub marks: u64,
    pub window: &'a [u32],
    pub window_marks: &'a [u8],
}

impl Seen<'_> {
    // Whether a place is known.
    pub fn is_known(self, p: usize) -> bool
        ensures { result ≡ known_in self.entry p }
    {
        if p < WINDOW {
            return place_marks::place::is_known(self.marks, p);
        }
        marked(self.window_marks, p - WINDOW)
    }

    // The bits that a place holds: those of places 48 and 51 stand in bits 31:28 of the state's word.
    pub fn value(self, p: usize) -> u32
        ensures { result ≡ value_in self.entry p }
    {
        if p == FLAGS {
            return word(self.state, p) / 0x1000_0000;
        }
        if p == NZCV {
            return word(self.state, p) / 0x1000_0000;
        }
        if p < WINDOW {
            return word(self.state, p);
        }
        word(self.window, p - WINDOW)
    }

    // The first place that is unknown, from a place on and below an end, or the end.
    // No plainer by `(from..end).find(..)`: from a place past the end it is that place.
    pub fn next_unknown(self, from: usize, end: usize) -> usize
        ensures { (from ≤ result) × (result ≡ next_unknown_in self.entry from end) }
    {
        let mut p = from;
        while p < end && self.is_known(p) {
            p += 1;
        }
        p
    }
}

// The mark of a word of the window.
fn marked(marks: &[u8], i: usize) -> bool
    ensures { result ≡ marked_at marks.now i }
{
    match marks.get(i) {
        Some(mark) => *mark == 1,
        None => true,
    }
}

pub fn word(words: &[u32], i: usize) -> u32
    ensures { result ≡ word_at words.now i }
{
    words.get(i).copied().unwrap_or(0)
}

// Whether a place's mark or its known value is another.
pub fn differs(was: bool, old: u32, is: bool, new: u32) -> bool
    ensures { result ≡ differs_of was old is new }
{
    if was != is {
        return true;
    }
    if is {
        return old != new;
    }
    false
}

// Whether a place is another in its mark or its known value.
fn changed(before: Seen, after: Seen, p: usize) -> bool
    ensures { result ≡ changed_in before.entry after.entry p }
{
    differs(
        before.is_known(p),
        before.value(p),
        after.is_known(p),
        after.value(p),
    )
}

// The first place that changed, from a place on and below an end, or the end.
pub fn next_change(before: Seen, after: Seen, from: usize, end: usize) -> usize
    ensures { (from ≤ result) × (result ≡ next_change_in before.entry after.entry from end) }
{
    let mut p = from;
    while p < end && !changed(before, after, p) {
        p += 1;
    }
    p
}
