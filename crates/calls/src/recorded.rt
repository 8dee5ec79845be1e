// The replay of a recorded cycle.
ghost use Rattle.std.specs.Prelude.{◌≡◌};
ghost use Rattle.outcomes.specs.WatchOutcome.{watch_outcome};
ghost use Rattle.outcomes.specs.Replay.{valid_replay, ReplayedPromise};

use super::state::INVALID_ARGUMENT;
use answer::report_stop;
use layout::state::encode;
use machine::place::WINDOW;

// Whether a state and an answer have as many words as they should.
fn is_valid_replay(words: usize, answers: usize) -> bool
    ensures { result ≡ valid_replay words answers }
{
    if words != WINDOW {
        return false;
    }
    answers == 5
}

// Runs what a record holds under the watch. The state and the marks are written only; the record's window is laid into the two buffers, which a
// refusal leaves as they came.
pub fn replay_call(
    bytes: &[u8],
    state: &mut [u32],
    marks: &mut u64,
    window: &mut [u32],
    window_marks: &mut [u8],
    answer: &mut [u32],
) -> u32
    ensures { ReplayedPromise bytes.now state.old marks.old window.old window_marks.old answer.old (watch_outcome result state.new marks.new window.new window_marks.new answer.new) }
{
    if !is_valid_replay(state.len(), answer.len()) {
        return INVALID_ARGUMENT;
    }
    let done = replay::replay(bytes, window, window_marks);
    let stop = done.stop;
    let count = done.count;
    let known = done.known;
    *marks = done.marks;
    encode(done.machine, state);
    report_stop(stop, count, known, answer)
}
