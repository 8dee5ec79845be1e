// The mark of the cumulative exception bits, place 52.
ghost use Rattle.std.specs.Prelude.{◌≡◌, List, ℕ};
ghost use Rattle.place_marks.specs.Word.{map_in};
ghost use Rattle.processing_marks.specs.Marked.{mark_raised};

use machine::place::EXCEPTIONS;
use place_marks::place::set_known;

// After a number operation they stay known where all that it reads is.
pub fn mark_raised(marks: u64, all: bool) -> u64
    ensures { (w : List ℕ) → map_in result w ≡ mark_raised (map_in marks w) all }
{
    if all {
        return marks;
    }
    set_known(marks, EXCEPTIONS, false)
}
