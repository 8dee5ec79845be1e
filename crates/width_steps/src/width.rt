// Between single and double. Each gives FPSCR with what was raised. They are two functions and not one over the register: each is from the one precision to the
// other, by a definition of its own, `widen_step` and `narrow_step`.
ghost use Rattle.short_vectors.specs.Register.{SteppedWith};
ghost use Rattle.width_steps.specs.Width.{widen_step, narrow_step};

use machine::place::control_of;
use narrowing::narrow::narrow;
use registers::registers::{Double, Single, get_double, get_single, set_double, set_single};
use short_vectors::raise::raise;
use widths::convert::widen;

pub fn widen_single(s: &mut [u32; 32], fpscr: u32, d: Double, m: Single) -> u32
    ensures { SteppedWith (widen_step d.0 m.0) fpscr s.old result s.new }
{
    let widened = widen(control_of(fpscr), get_single(s, m));
    set_double(s, d, widened.bits);
    raise(fpscr, widened.exceptions)
}

pub fn narrow_double(s: &mut [u32; 32], fpscr: u32, d: Single, m: Double) -> u32
    ensures { SteppedWith (narrow_step d.0 m.0) fpscr s.old result s.new }
{
    let narrowed = narrow(control_of(fpscr), get_double(s, m));
    set_single(s, d, narrowed.bits);
    raise(fpscr, narrowed.exceptions)
}
