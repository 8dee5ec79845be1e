// `run` over buffers.
ghost use Rattle.std.specs.Prelude.{◌≡◌};
ghost use Rattle.run.specs.Run.{run_reply};
ghost use Rattle.outcomes.specs.Outcome.{outcome, ran};

use super::state::{INVALID_ARGUMENT, is_valid_call};
use answer::report_stop;
use layout::state::{decode, encode};

// The plain run of a list of words.
pub fn run_call(
    state: &mut [u32],
    window: &mut [u32],
    base: u32,
    thumb: u32,
    list: &[u32],
    answer: &mut [u32],
) -> u32
    ensures { outcome result state.new window.new answer.new ≡ ran (run_reply base list.now) state.old window.old thumb answer.old }
{
    if !is_valid_call(state, thumb, answer.len()) {
        return INVALID_ARGUMENT;
    }
    let machine = decode(state, thumb == 1);
    let done = run::run(machine, window, base, list);
    let stop = done.stop;
    let count = done.count;
    encode(done.machine, state);
    report_stop(stop, count, 0, answer)
}
