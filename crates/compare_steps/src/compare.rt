// Compares: they set FPSCR 31:28, and raise invalid for a signalling NaN; with any, for any NaN.
ghost use Rattle.std.specs.Prelude.{◌≡◌, ◌+◌, ◌*◌, ◌%◌, ◌^◌, ◌<◌};
ghost use Rattle.short_vectors.specs.Register.{SteppedWith};
ghost use Rattle.compare_steps.specs.Compare.{compare_step, compare_zero_step};

use comparisons::compare::Comparable;
use floats::precision::Precision;
use registers::register::Register;
use short_vectors::raise::raise;

// FPSCR with other flags.
fn with_flags(fpscr: u32, flags: u32) -> u32
    requires { flags < 16 }
    ensures { result ≡ flags * 2 ^ 28 + fpscr % 2 ^ 28 }
{
    flags * 0x1000_0000 + fpscr % 0x1000_0000
}

// d with m.
pub fn compare<R: Register>(s: &[u32; 32], fpscr: u32, any: bool, d: R, m: R) -> u32
where
    R::Word: Comparable,
    ensures { SteppedWith (compare_step R.Word.format any (R.number d) (R.number m)) fpscr s.now result s.now }
{
    let c = comparisons::compare::compare(any, d.get(s), m.get(s));
    raise(with_flags(fpscr, c.flags), c.exceptions)
}

// d with zero.
pub fn compare_zero<R: Register>(s: &[u32; 32], fpscr: u32, any: bool, d: R) -> u32
where
    R::Word: Comparable,
    ensures { SteppedWith (compare_zero_step R.Word.format any (R.number d)) fpscr s.now result s.now }
{
    let c = comparisons::compare::compare(any, d.get(s), R::Word::of_wide(0));
    raise(with_flags(fpscr, c.flags), c.exceptions)
}
