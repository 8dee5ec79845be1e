// The marks of roots, iteration by iteration.
ghost use Rattle.std.specs.Prelude.{ℕ, ◌<◌};
ghost use Rattle.short_vectors.specs.Vector.{iterations_of, monadic_step};
ghost use Rattle.root_steps.specs.Root.{root_step};
ghost use Rattle.processing_marks.specs.Marked.{MarksStepped, MarksIterated};

use processing_marks::raised::mark_raised;
use register_marks::register::MarkedRegister;
use short_vectors::vector::Vector;

// A root: the target is known when every word of the operand is.
pub fn mark_root<R: MarkedRegister>(marks: u64, d: R, m: R) -> u64
    ensures { (control : ℕ) → MarksStepped (root_step R.Word.format control (R.number d) (R.number m)) marks result }
{
    let all = m.known(marks);
    mark_raised(d.mark(marks, all), all)
}

// The loop has its test at the end, for a word makes at least one iteration: a `for` would test before the first.
pub fn root_vector<R: MarkedRegister>(marks: u64, control: u32, d: R, m: R) -> u64
    requires { (R.number d < 32) × (R.number m < 32) }
    ensures { MarksIterated (iterations_of R.Word.format control (R.number d)) (monadic_step R.Word.format control (root_step R.Word.format control) (R.number d) (R.number m)) marks result }
{
    let vector = Vector::new(control, d);
    let count = vector.iterations;
    let mut done = marks;
    let mut dn = d.index();
    let mut mn = m.index();
    let mut i: usize = 0;
    loop {
        done = mark_root(done, R::numbered(dn), R::numbered(mn));
        i += 1;
        if i >= count {
            return done;
        }
        dn = vector.step(dn, 1);
        mn = vector.second(mn, 1);
    }
}
