// Back through the iterations of a stepping word: the marks before each are made anew, and then the iterations are walked back.
ghost use Rattle.std.specs.Prelude.{◌≡◌, ℕ, ◌+◌, ◌*◌, ◌<◌, ◌≤◌, length};
ghost use Rattle.register_fields.specs.Fields.{reg_d, reg_n, reg_m};
ghost use Rattle.short_vectors.specs.Vector.{precision, iterations_of, Vectored};
ghost use Rattle.links.specs.Walked.{WalkedAct};
ghost use Rattle.stepping_sources.specs.Stepping.{stepping_act, Befores};

use super::iteration::{marks_by, move_by, number_by};
use links::{Back, link};
use register_fields::fields::{d_of, m_of, n_of};
use registers::registers::{Double, Single};
use short_vectors::vector::Vector;

// How many iterations a stepping word makes.
pub(crate) fn iterations_of(control: u32, double: bool, op: u32) -> usize
    ensures { result ≡ iterations_of (precision double) control (reg_d (precision double) op) }
{
    if double {
        let d = d_of::<Double>(op);
        let vector = Vector::new(control, d);
        return vector.iterations;
    }
    let d = d_of::<Single>(op);
    let vector = Vector::new(control, d);
    vector.iterations
}

// The vector from a register, by the precision.
fn vector_from(control: u32, double: bool, d: usize) -> Vector
    ensures { Vectored (precision double) control d result }
{
    if double {
        return Vector::new(control, Double(d));
    }
    Vector::new(control, Single(d))
}

// A stepping word, by the registers that it names.
pub(crate) fn vector_back(
    marks: u64,
    control: u32,
    double: bool,
    n: u8,
    op: u32,
    q: u32,
    index: u32,
    pairs: &mut [u32],
    k: usize,
) -> Back
    requires { 2 * (k + 8) ≤ length pairs.old }
    ensures { WalkedAct (stepping_act (precision double) control n (reg_d (precision double) op) (reg_n (precision double) op) (reg_m (precision double) op)) index marks q k pairs.old pairs.new result }
{
    if double {
        let d = d_of::<Double>(op);
        let a = n_of::<Double>(op);
        let b = m_of::<Double>(op);
        return registers_back(marks, control, true, n, d.0, a.0, b.0, q, index, pairs, k);
    }
    let d = d_of::<Single>(op);
    let a = n_of::<Single>(op);
    let b = m_of::<Single>(op);
    registers_back(marks, control, false, n, d.0, a.0, b.0, q, index, pairs, k)
}

// The registers d, n and m of the first iteration.
fn registers_back(
    marks: u64,
    control: u32,
    double: bool,
    n: u8,
    d: usize,
    a: usize,
    b: usize,
    q: u32,
    index: u32,
    pairs: &mut [u32],
    k: usize,
) -> Back
    requires { (d < 32) × (a < 32) × (b < 32) × (2 * (k + 8) ≤ length pairs.old) }
    ensures { WalkedAct (stepping_act (precision double) control n d a b) index marks q k pairs.old pairs.new result }
{
    if n > 9 {
        if n < 13 {
            return moves_back(control, double, d, b, q, index, pairs, k);
        }
    }
    let before = marks_before(marks, control, double, n, d, a, b);
    let vector = vector_from(control, double, d);
    let mut place = q;
    let mut count = k;
    let mut j = vector.iterations;
    while j > 0 {
        j -= 1;
        let s = number_by(
            before[j],
            double,
            n,
            vector.step(d, j),
            vector.step(a, j),
            vector.second(b, j),
            place,
        );
        let y = link(pairs, count, index, place, s);
        place = y.place;
        count = y.pairs;
    }
    Back {
        place,
        pairs: count,
    }
}

// The marks before each iteration of arithmetic or the root.
fn marks_before(
    marks: u64,
    control: u32,
    double: bool,
    n: u8,
    d: usize,
    a: usize,
    b: usize,
) -> [u64; 8]
    requires { (d < 32) × (a < 32) × (b < 32) × (10 ≤ n → 13 ≤ n) }
    ensures { Befores (precision double) control n d a b marks result }
{
    let vector = vector_from(control, double, d);
    let count = vector.iterations;
    let mut before = [marks; 8];
    let mut i: usize = 1;
    while i < count {
        let j = i - 1;
        before[i] = marks_by(
            before[j],
            double,
            n,
            vector.step(d, j),
            vector.step(a, j),
            vector.second(b, j),
        );
        i += 1;
    }
    before
}

// Moves and sign changes: a source is not looked at, so no marks are made.
fn moves_back(
    control: u32,
    double: bool,
    d: usize,
    b: usize,
    q: u32,
    index: u32,
    pairs: &mut [u32],
    k: usize,
) -> Back
    requires { (d < 32) × (b < 32) × (2 * (k + 8) ≤ length pairs.old) }
    ensures { (n a marks : ℕ) → 10 ≤ n → n < 13 → WalkedAct (stepping_act (precision double) control n d a b) index marks q k pairs.old pairs.new result }
{
    let vector = vector_from(control, double, d);
    let mut place = q;
    let mut count = k;
    let mut j = vector.iterations;
    while j > 0 {
        j -= 1;
        let s = move_by(double, vector.step(d, j), vector.second(b, j), place);
        let y = link(pairs, count, index, place, s);
        place = y.place;
        count = y.pairs;
    }
    Back {
        place,
        pairs: count,
    }
}
