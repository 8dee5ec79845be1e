// One iteration of a stepping word, by the number of its operation, which is what `step_by` is of: 1 to 9 are arithmetic, 10 to 12 moves and sign changes, 13
// is the root.
ghost use Rattle.std.specs.Prelude.{ℕ, ◌<◌, ◌≤◌};
ghost use Rattle.register_fields.specs.Fields.{reg_d, reg_n, reg_m};
ghost use Rattle.short_vectors.specs.Vector.{precision};
ghost use Rattle.processing_marks.specs.Marked.{MarksStepped};
ghost use Rattle.sources.specs.Source.{Tracing};
ghost use Rattle.stepping_sources.specs.Stepping.{step_by};

use arithmetic_marks::arithmetic::mark_sum;
use decoding::operation::{Operation, arithmetic_of};
use register_fields::fields::{d_of, m_of, n_of};
use registers::registers::{Double, Single};
use root_marks::root::mark_root;
use sources::Source;
use step_sources::step::{
    arithmetic_double, arithmetic_single, root_double, root_single, sign_double, sign_single,
};

// One step back from place q, over the registers that a word names.
pub(crate) fn named_source(marks: u64, double: bool, n: u8, op: u32, q: u32) -> Source
    ensures { (control : ℕ) → Tracing (step_by (precision double) control n (reg_d (precision double) op) (reg_n (precision double) op) (reg_m (precision double) op)) marks q result }
{
    if double {
        let d = d_of::<Double>(op);
        let a = n_of::<Double>(op);
        let b = m_of::<Double>(op);
        if n < 10 {
            return arithmetic_double(marks, d, a, b, q);
        }
        if n < 13 {
            return sign_double(d, b, q);
        }
        return root_double(marks, d, b, q);
    }
    let d = d_of::<Single>(op);
    let a = n_of::<Single>(op);
    let b = m_of::<Single>(op);
    if n < 10 {
        return arithmetic_single(marks, d, a, b, q);
    }
    if n < 13 {
        return sign_single(d, b, q);
    }
    root_single(marks, d, b, q)
}

// The same over any registers, of arithmetic and the root. The loop over iterations alone calls it, so that the compiler puts it there.
pub(crate) fn number_by(
    marks: u64,
    double: bool,
    n: u8,
    d: usize,
    a: usize,
    b: usize,
    q: u32,
) -> Source
    ensures { (control : ℕ) → (10 ≤ n → 13 ≤ n) → Tracing (step_by (precision double) control n d a b) marks q result }
{
    if n < 10 {
        if double {
            return arithmetic_double(marks, Double(d), Double(a), Double(b), q);
        }
        return arithmetic_single(marks, Single(d), Single(a), Single(b), q);
    }
    if double {
        return root_double(marks, Double(d), Double(b), q);
    }
    root_single(marks, Single(d), Single(b), q)
}

// And of a move or sign change: it has one source, so that the answer is right for all marks.
pub(crate) fn move_by(double: bool, d: usize, b: usize, q: u32) -> Source
    ensures { (control n a marks : ℕ) → 10 ≤ n → n < 13 → Tracing (step_by (precision double) control n d a b) marks q result }
{
    if double {
        return sign_double(Double(d), Double(b), q);
    }
    sign_single(Single(d), Single(b), q)
}

// The marks after arithmetic or the root.
pub(crate) fn marks_by(marks: u64, double: bool, n: u8, d: usize, a: usize, b: usize) -> u64
    ensures { (control : ℕ) → (10 ≤ n → 13 ≤ n) → MarksStepped (step_by (precision double) control n d a b) marks result }
{
    if n < 10 {
        let kind = arithmetic_of(Operation::from(n));
        if double {
            return mark_sum(marks, kind, Double(d), Double(a), Double(b));
        }
        return mark_sum(marks, kind, Single(d), Single(a), Single(b));
    }
    if double {
        return mark_root(marks, Double(d), Double(b));
    }
    mark_root(marks, Single(d), Single(b))
}
