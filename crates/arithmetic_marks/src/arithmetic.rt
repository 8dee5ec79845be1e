// The marks of arithmetic, iteration by iteration.
ghost use Rattle.std.specs.Prelude.{ℕ, ◌<◌};
ghost use Rattle.short_vectors.specs.Vector.{iterations_of};
ghost use Rattle.arithmetic_steps.specs.Arithmetic.{arithmetic_step, dyadic_step};
ghost use Rattle.processing_marks.specs.Marked.{MarksStepped, MarksIterated};

use numbers::arithmetic::Arithmetic;
use processing_marks::raised::mark_raised;
use register_marks::register::MarkedRegister;
use short_vectors::vector::Vector;

// Arithmetic: the target is known when every word read is; old d is read by an accumulate alone.
pub fn mark_sum<R: MarkedRegister>(marks: u64, kind: Arithmetic, d: R, n: R, m: R) -> u64
    ensures { (control : ℕ) → MarksStepped (arithmetic_step R.Word.format control kind (R.number d) (R.number n) (R.number m)) marks result }
{
    if kind.reads_d() {
        let all = d.known(marks) & m.known(marks) & n.known(marks);
        return mark_raised(d.mark(marks, all), all);
    }
    let all = m.known(marks) & n.known(marks);
    mark_raised(d.mark(marks, all), all)
}

// The loop has its test at the end, for a word makes at least one iteration: a `for` would test before the first.
pub fn arithmetic_vector<R: MarkedRegister>(
    marks: u64,
    control: u32,
    kind: Arithmetic,
    d: R,
    n: R,
    m: R,
) -> u64
    requires { (R.number d < 32) × (R.number n < 32) × (R.number m < 32) }
    ensures { MarksIterated (iterations_of R.Word.format control (R.number d)) (dyadic_step R.Word.format control kind (R.number d) (R.number n) (R.number m)) marks result }
{
    let vector = Vector::new(control, d);
    let count = vector.iterations;
    let mut done = marks;
    let mut dn = d.index();
    let mut nn = n.index();
    let mut mn = m.index();
    let mut i: usize = 0;
    loop {
        done = mark_sum(
            done,
            kind,
            R::numbered(dn),
            R::numbered(nn),
            R::numbered(mn),
        );
        i += 1;
        if i >= count {
            return done;
        }
        dn = vector.step(dn, 1);
        nn = vector.step(nn, 1);
        mn = vector.second(mn, 1);
    }
}
