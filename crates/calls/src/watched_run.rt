// `watch` over buffers.
ghost use Rattle.outcomes.specs.WatchOutcome.{watch_outcome};
ghost use Rattle.outcomes.specs.WatchPromise.{WatchPromise};

use super::state::{INVALID_ARGUMENT, is_valid_call};
use answer::report_stop;
use layout::state::{decode, encode};

// The watched run of a list of words. The marks are one word, bit p for place p.
pub fn watch_call(
    state: &mut [u32],
    marks: &mut u64,
    window: &mut [u32],
    window_marks: &mut [u8],
    base: u32,
    thumb: u32,
    list: &[u32],
    answer: &mut [u32],
) -> u32
    ensures { WatchPromise base list.now state.old marks.old window.old window_marks.old thumb answer.old (watch_outcome result state.new marks.new window.new window_marks.new answer.new) }
{
    if !is_valid_call(state, thumb, answer.len()) {
        return INVALID_ARGUMENT;
    }
    let machine = decode(state, thumb == 1);
    let done = watch::watch(machine, *marks, window, window_marks, base, list);
    let stop = done.stop;
    let count = done.count;
    let known = done.known;
    *marks = done.marks;
    encode(done.machine, state);
    report_stop(stop, count, known, answer)
}
