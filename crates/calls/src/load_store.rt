// `coprocessor_load_store` over buffers.
ghost use Rattle.std.specs.Prelude.{◌≡◌};
ghost use Rattle.vfp.specs.Call.{load_store_reply};
ghost use Rattle.outcomes.specs.Outcome.{outcome, called};

use super::state::{INVALID_ARGUMENT, is_valid_call};
use answer::report_exit;
use layout::state::{decode, encode};

// Loads, stores and pairs.
pub fn coprocessor_load_store_call(
    state: &mut [u32],
    window: &mut [u32],
    base: u32,
    thumb: u32,
    word: u32,
    answer: &mut [u32],
) -> u32
    ensures { outcome result state.new window.new answer.new ≡ called (load_store_reply base word) state.old window.old thumb answer.old }
{
    if !is_valid_call(state, thumb, answer.len()) {
        return INVALID_ARGUMENT;
    }
    let machine = decode(state, thumb == 1);
    let done = vfp::coprocessor_load_store(machine, window, base, word);
    let exit = done.exit;
    encode(done.machine, state);
    report_exit(exit, answer)
}
