// Transfers that a plain loop can move: their words stand one after the other in the window, and their singles do not go on at s0.
ghost use Rattle.std.specs.Prelude.{◌≡◌, true};
ghost use Rattle.addresses.specs.Contiguous.{Contiguous};

use machine::window::word_at;
use registers::registers::Single;

// Whether so many words from an address on, and singles from the first on, are so in a window of so many words.
pub fn is_contiguous(words: usize, base: u32, start: u32, first: Single, count: u32) -> bool
    ensures { result ≡ true → Contiguous words base start first.0 count }
{
    let n = count as usize;
    if n > 32 {
        return false;
    }
    if first.0 > 32 - n {
        return false;
    }
    let end = word_at(base, start) + n;
    if end > words {
        return false;
    }
    // Numbers of words go on at 0 after 2^30 - 1, as addresses do after 2^32 - 4.
    if end > 0x4000_0000 {
        return false;
    }
    true
}
