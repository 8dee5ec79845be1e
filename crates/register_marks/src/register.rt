// The marks of registers. A double's number and a single's are two types, so that neither can stand for the other.
ghost use Rattle.std.specs.Prelude.{◌≡◌, List, ℕ, ◌/◌, ◌%◌, ◌^◌, ◌<◌, eqb};
ghost use Rattle.machine.specs.Place.{core};
ghost use Rattle.registers.specs.Registers.{low_index, high_index};
ghost use Rattle.meaning.specs.Map.{known, mark};
ghost use Rattle.place_marks.specs.Word.{map_in, with_bit};
ghost use Rattle.register_marks.specs.Register.{known_in, mark_in, copy_in};

use machine::place::CORE;
use place_marks::place::{is_known, set_known};
use registers::register::Register;
use registers::registers::{Double, Single};

// A register with its marks: a single has one, a double one for each of its words.
pub trait MarkedRegister: Register {
    // Whether all its words are known.
    fn known(self, marks: u64) -> bool
        ensures { (w : List ℕ) → result ≡ known_in Self.Word.format (map_in marks w) (Self.number self) };

    // All its words marked alike.
    fn mark(self, marks: u64, b: bool) -> u64
        ensures { (w : List ℕ) → map_in result w ≡ mark_in Self.Word.format (map_in marks w) (Self.number self) b };

    // The marks of m copied to d, word by word.
    fn copy_marks(marks: u64, d: Self, m: Self) -> u64
        ensures { (w : List ℕ) → map_in result w ≡ copy_in Self.Word.format (map_in marks w) (Self.number d) (Self.number m) };
}

impl MarkedRegister for Single {
    fn known(self, marks: u64) -> bool {
        is_known(marks, self.0 % 32)
    }

    fn mark(self, marks: u64, b: bool) -> u64 {
        set_known(marks, self.0 % 32, b)
    }

    fn copy_marks(marks: u64, d: Single, m: Single) -> u64 {
        d.mark(marks, m.known(marks))
    }
}

// Both words at once: they are neighbours.
impl MarkedRegister for Double {
    fn known(self, marks: u64) -> bool {
        two_at(marks, self) == 3
    }

    fn mark(self, marks: u64, b: bool) -> u64 {
        if b {
            return with_two(marks, self, 3);
        }
        with_two(marks, self, 0)
    }

    fn copy_marks(marks: u64, d: Double, m: Double) -> u64 {
        with_two(marks, d, two_at(marks, m))
    }
}

// The marks of a double's low and high word, as a number of two bits.
fn two_at(marks: u64, x: Double) -> u64
    ensures { (result ≡ marks / 2 ^ low_index x.0 % 4) × (result < 4) }
{
    (marks >> (x.0 % 16 * 2)) % 4
}

fn with_two(marks: u64, x: Double, v: u64) -> u64
    requires { v < 4 }
    ensures { result ≡ with_bit (with_bit marks (low_index x.0) (eqb (v % 2) 1)) (high_index x.0) (eqb (v / 2) 1) }
{
    let at = x.0 % 16 * 2;
    let both = 3u64 << at;
    (marks - (marks & both)) | (v << at)
}

pub fn core_known(marks: u64, n: usize) -> bool
    requires { n < 16 }
    ensures { (w : List ℕ) → result ≡ known (map_in marks w) (core n) }
{
    is_known(marks, CORE + n)
}

pub fn mark_core(marks: u64, n: usize, b: bool) -> u64
    requires { n < 16 }
    ensures { (w : List ℕ) → map_in result w ≡ mark (map_in marks w) (core n) b }
{
    set_known(marks, CORE + n, b)
}
