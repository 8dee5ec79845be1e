// The refusals: of a window, of a plain run, of a watched run.
ghost use Rattle.std.specs.Prelude.{◌≡◌};
ghost use Rattle.limits.specs.Limit.{window_limit, run_limit, watch_limit};
ghost use Rattle.window_marks.specs.Marks.{ones_of};

use window_marks::marks::count_bits;

// The first of refusals 2, 3 and 4 that applies to a window of so many words, or 0.
pub fn window_limit(base: u32, words: usize) -> u8
    ensures { result ≡ window_limit base words }
{
    if 16384 < words {
        return 2;
    }
    if base % 4 != 0 {
        return 3;
    }
    if 0x1_0000_0000 < base as usize + 4 * words {
        return 4;
    }
    0
}

// The first of refusals 1 to 5 that applies, or 0.
pub fn run_limit(list: usize, base: u32, words: usize, thumb: bool) -> u8
    ensures { result ≡ run_limit list base words thumb }
{
    if 4096 < list {
        return 1;
    }
    let window = window_limit(base, words);
    if window != 0 {
        return window;
    }
    if thumb {
        return 5;
    }
    0
}

// The first of refusals 1 to 7 that applies, or 0, and then how many marks are 1.
#[derive(Clone, Copy)]
pub struct Limit {
    pub number: u8,
    pub ones: usize,
}

pub fn watch_limit(list: usize, base: u32, words: usize, thumb: bool, marks: &[u8]) -> Limit
    ensures { (result.number ≡ watch_limit list base words thumb marks.now) × (result.number ≡ 0 → result.ones ≡ ones_of marks.now) }
{
    let number = run_limit(list, base, words, thumb);
    if number != 0 {
        return Limit { number, ones: 0 };
    }
    if marks.len() != words {
        return Limit { number: 6, ones: 0 };
    }
    let counted = count_bits(marks);
    if counted.bits {
        return Limit {
            number: 0,
            ones: counted.ones,
        };
    }
    Limit { number: 7, ones: 0 }
}
