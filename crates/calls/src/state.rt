// A new state, a condition on its flags, and whether the arguments of a call are valid.
ghost use Rattle.std.specs.Prelude.{◌≡◌, []};
ghost use Rattle.outcomes.specs.Outcome.{outcome, valid_call, renewed, checked};

use bits::psr::Psr;
use layout::state::{encode, is_valid};
use machine::{Machine, place};

// Nothing was touched: a length, a bit of the state or thumb is not as it has to be.
pub const INVALID_ARGUMENT: u32 = 255;

// Whether a call's arguments are valid.
pub fn is_valid_call(state: &[u32], thumb: u32, words: usize) -> bool
    ensures { result ≡ valid_call state.now thumb words }
{
    if 1 < thumb {
        return false;
    }
    if words != 5 {
        return false;
    }
    is_valid(state)
}

// A new machine's state.
pub fn new_call(state: &mut [u32]) -> u32
    ensures { outcome result state.new [] [] ≡ renewed state.old }
{
    if state.len() != place::WINDOW {
        return INVALID_ARGUMENT;
    }
    encode(Machine::new(), state);
    0
}

// Whether an instruction of a condition, in its low four bits, is executed under the flags of place 51.
pub fn check_condition_call(condition: u32, nzcv: u32) -> u32
    ensures { result ≡ checked condition nzcv }
{
    if nzcv % 0x1000_0000 != 0 {
        return INVALID_ARGUMENT;
    }
    if bits::psr::check_condition(condition, Psr::from_bits(nzcv)) {
        return 1;
    }
    0
}
