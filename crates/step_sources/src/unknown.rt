// An unknown one among the places that a step reads, by its number. Where one place is left it is not looked at: if any is unknown, it is.
ghost use Rattle.std.specs.Prelude.{List, [], ◌∷◌};
ghost use Rattle.std.specs.Float.{binary32, binary64};
ghost use Rattle.arithmetic_steps.specs.Arithmetic.{operands};
ghost use Rattle.machine.specs.Place.{Place, control};
ghost use Rattle.numbers.specs.declared.arithmetic.Arithmetic.{Arithmetic};
ghost use Rattle.short_vectors.specs.Register.{words_of};
ghost use Rattle.sources.specs.Source.{Picks};

use machine::place::CONTROL;
use place_marks::place::is_known;
use register_marks::register::MarkedRegister;
use registers::registers::{Double, Single};

pub fn of_double(marks: u64, x: Double) -> u32
    ensures { Picks marks (words_of binary64 (x.0 ∷ [])) result }
{
    let low = x.0 % 16 * 2;
    if is_known(marks, low) {
        return (low + 1) as u32;
    }
    low as u32
}

// Of two registers; and of the first alone.
pub fn of_singles(marks: u64, a: Single, b: Single) -> u32
    ensures { Picks marks (words_of binary32 (a.0 ∷ b.0 ∷ [])) result × Picks marks (words_of binary32 (a.0 ∷ [])) result }
{
    let x = a.0 % 32;
    if is_known(marks, x) {
        return (b.0 % 32) as u32;
    }
    x as u32
}

pub fn of_doubles(marks: u64, a: Double, b: Double) -> u32
    ensures { Picks marks (words_of binary64 (a.0 ∷ b.0 ∷ [])) result × Picks marks (words_of binary64 (a.0 ∷ [])) result }
{
    if a.known(marks) {
        return of_double(marks, b);
    }
    of_double(marks, a)
}

// Of the operands of arithmetic: old d is read by an accumulate alone, and is the last to be looked at.
pub fn of_single_operands(marks: u64, d: Single, n: Single, m: Single) -> u32
    ensures { (kind : Arithmetic) → Picks marks (words_of binary32 (operands kind d.0 n.0 m.0)) result }
{
    let x = n.0 % 32;
    if is_known(marks, x) {
        return of_singles(marks, m, d);
    }
    x as u32
}

pub fn of_double_operands(marks: u64, d: Double, n: Double, m: Double) -> u32
    ensures { (kind : Arithmetic) → Picks marks (words_of binary64 (operands kind d.0 n.0 m.0)) result }
{
    if n.known(marks) {
        return of_doubles(marks, m, d);
    }
    of_double(marks, n)
}

// FPSCR 27:5, or an unknown one of others.
pub fn of_control(marks: u64, other: u32) -> u32
    ensures { (ps : List Place) → Picks marks ps other → Picks marks (control ∷ ps) result }
{
    if is_known(marks, CONTROL) {
        return other;
    }
    CONTROL as u32
}
