// Square roots, rounded by the mode of the control word. They are never subnormal, so that flushing would change none. Each gives FPSCR with what was raised.
ghost use Rattle.std.specs.Prelude.{◌≡◌, ◌<◌};
ghost use Rattle.registers.specs.Registers.{stored_in};
ghost use Rattle.roots.specs.Root.{square_root, root_exceptions};
ghost use Rattle.short_vectors.specs.Vector.{iterations_of, monadic_step};
ghost use Rattle.short_vectors.specs.Register.{raised_in, SteppedWith, IteratedWith};
ghost use Rattle.root_steps.specs.Root.{root_step};

use registers::register::Register;
use root_estimates::estimate::Rooted;
use short_vectors::raise::raise;
use short_vectors::vector::Vector;
use square_roots::word::{quick_root, square_root};

// A root in every mode, and its store: apart, so that mode 00's quick path calls nothing on its way.
fn store_root<R: Register>(s: &mut [u32; 32], control: u32, fpscr: u32, d: R, b: R::Word) -> u32
where
    R::Word: Rooted,
    ensures { (s.new ≡ stored_in R.Word.format s.old (R.number d) (square_root R.Word.format control (R.Word.number b))) × (result ≡ raised_in fpscr (root_exceptions R.Word.format (R.Word.number b))) }
{
    let x = square_root(control, b);
    d.set(s, x.bits);
    raise(fpscr, x.exceptions)
}

// One step: d takes the root of m.
pub fn root<R: Register>(s: &mut [u32; 32], control: u32, fpscr: u32, d: R, m: R) -> u32
where
    R::Word: Rooted,
    ensures { SteppedWith (root_step R.Word.format control (R.number d) (R.number m)) fpscr s.old result s.new }
{
    let b = m.get(s);
    if control / 0x40_0000 % 4 == 0 {
        if let Some(x) = quick_root(b) {
            d.set(s, x.bits);
            return raise(fpscr, x.exceptions);
        }
        return store_root(s, control, fpscr, d, b);
    }
    store_root(s, control, fpscr, d, b)
}

// The iterations of a word in turn, each reading what earlier ones wrote; the numbers are below 32.
// The loop has its test at the end, for a word makes at least one iteration: a `for` would test before the first.
pub fn root_vector<R: Register>(s: &mut [u32; 32], control: u32, fpscr: u32, d: R, m: R) -> u32
where
    R::Word: Rooted,
    requires { (R.number d < 32) × (R.number m < 32) }
    ensures { IteratedWith (iterations_of R.Word.format control (R.number d)) (monadic_step R.Word.format control (root_step R.Word.format control) (R.number d) (R.number m)) fpscr s.old result s.new }
{
    let vector = Vector::new(control, d);
    let count = vector.iterations;
    let mut dn = d.index();
    let mut mn = m.index();
    let mut after = fpscr;
    let mut i: usize = 0;
    loop {
        after = root(s, control, after, R::numbered(dn), R::numbered(mn));
        i += 1;
        if i >= count {
            return after;
        }
        dn = vector.step(dn, 1);
        mn = vector.second(mn, 1);
    }
}
