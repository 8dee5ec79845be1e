// The marks of moves and sign changes, iteration by iteration.
ghost use Rattle.std.specs.Prelude.{ℕ, ◌<◌};
ghost use Rattle.meaning.specs.Step.{Step};
ghost use Rattle.short_vectors.specs.Vector.{iterations_of, monadic_step};
ghost use Rattle.processing_marks.specs.Marked.{MarksIterated, Copies};

use register_marks::register::MarkedRegister;
use short_vectors::vector::Vector;

// Moves and sign changes: the marks are copied. The loop has its test at the end, for a word makes at least one iteration: a `for` would test before the first.
pub fn copy_vector<R: MarkedRegister>(marks: u64, control: u32, d: R, m: R) -> u64
    requires { (R.number d < 32) × (R.number m < 32) }
    ensures { (one : ℕ → ℕ → Step) → Copies R.Word.format one → MarksIterated (iterations_of R.Word.format control (R.number d)) (monadic_step R.Word.format control one (R.number d) (R.number m)) marks result }
{
    let vector = Vector::new(control, d);
    let count = vector.iterations;
    let mut done = marks;
    let mut dn = d.index();
    let mut mn = m.index();
    let mut i: usize = 0;
    loop {
        done = R::copy_marks(done, R::numbered(dn), R::numbered(mn));
        i += 1;
        if i >= count {
            return done;
        }
        dn = vector.step(dn, 1);
        mn = vector.second(mn, 1);
    }
}
