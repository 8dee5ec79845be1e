// When no chain is given after a run.
ghost use Rattle.std.specs.Prelude.{◌≡◌, ◌+◌, ◌<◌, ◌≤◌, length};
ghost use Rattle.machine.specs.Place.{before, place};
ghost use Rattle.meaning.specs.Map.{known};
ghost use Rattle.place_marks.specs.Word.{map_in};
ghost use Rattle.walk_back.specs.Refusal.{origin_refusal};

use machine::place::WINDOW;
use place_marks::place::is_known;

// The first of refusals 11, 12 and 13 that applies to place q after a run of so many words, or 0; so many numbers are lent for the pairs.
pub fn origin_refusal(q: u32, marks: u64, window_marks: &[u8], count: usize, numbers: usize) -> u8
    requires { count ≤ 4096 }
    ensures { result ≡ origin_refusal q (map_in marks window_marks.now) count numbers }
{
    let at = q as usize;
    if window_marks.len() + WINDOW <= at {
        return 11;
    }
    if place_known(marks, window_marks, at) {
        return 12;
    }
    if numbers / 2 < 8 * count {
        return 13;
    }
    0
}

// The mark of a place, before the window or in it.
fn place_known(marks: u64, window_marks: &[u8], n: usize) -> bool
    requires { n < length window_marks.now + before }
    ensures { result ≡ known (map_in marks window_marks.now) (place n) }
{
    if n < WINDOW {
        return is_known(marks, n);
    }
    window_marks[n - WINDOW] == 1
}
