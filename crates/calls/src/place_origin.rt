// The origin of an unknown place.
ghost use Rattle.std.specs.Prelude.{◌≡◌, [], ◌∷◌, ◌++◌, ◌^◌, ◌<◌, ◌≤◌, length};
ghost use Rattle.meaning.specs.Stop.{report};
ghost use Rattle.run_word.specs.Stop.{stop_of};
ghost use Rattle.answer.specs.Answer.{answer_of};
ghost use Rattle.calls.specs.Outcome.{origin_outcome, valid_origin, refusal_word};
ghost use Rattle.calls.specs.Promise.{OriginCallPromise};

use super::result::of_refusal;
use super::state::INVALID_ARGUMENT;
use answer::report_stop;
use layout::state::{decode, encode, is_valid};
use origin::origin;
use run_word::Stop;

// Whether a call's arguments are valid.
fn is_valid_origin(state: &[u32], thumb: u32, words: usize, numbers: usize) -> bool
    ensures { result ≡ valid_origin state.now thumb words numbers }
{
    if 1 < thumb {
        return false;
    }
    if words != 8 {
        return false;
    }
    if numbers % 2 != 0 {
        return false;
    }
    is_valid(state)
}

// The watched run of a list of words, and a chain to a place that is unknown after it.
pub fn origin_call(
    state: &mut [u32],
    marks: &mut u64,
    window: &mut [u32],
    window_marks: &mut [u8],
    base: u32,
    thumb: u32,
    list: &[u32],
    place: u32,
    pairs: &mut [u32],
    answer: &mut [u32],
) -> u32
    ensures { OriginCallPromise base list.now state.old marks.old window.old window_marks.old thumb place pairs.old answer.old (origin_outcome result state.new marks.new window.new window_marks.new pairs.new answer.new) }
{
    if !is_valid_origin(state, thumb, answer.len(), pairs.len()) {
        return INVALID_ARGUMENT;
    }
    let machine = decode(state, thumb == 1);
    let done = origin(
        machine,
        *marks,
        window,
        window_marks,
        base,
        list,
        place,
        pairs,
    );
    let watched = done.watched;
    let stop = watched.stop;
    let count = watched.count;
    let known = watched.known;
    *marks = watched.marks;
    encode(watched.machine, state);
    report_origin(
        stop,
        count,
        known,
        done.refusal,
        done.first,
        done.pairs,
        answer,
    )
}

// The kind of a run's stop. The answer has the run's five words, the refusal of a chain, its first place and the number of its pairs.
fn report_origin(
    stop: Stop,
    count: usize,
    known: usize,
    refusal: u8,
    first: u32,
    pairs: usize,
    answer: &mut [u32],
) -> u32
    requires { (length answer.old ≡ 8) × (count < 2 ^ 32) × ((report (stop_of stop)).place < 2 ^ 32) × (refusal ≤ 13) × (pairs < 2 ^ 32) }
    ensures { (result ≡ (report (stop_of stop)).kind) × (answer.new ≡ answer_of count (report (stop_of stop)) known ++ (refusal_word refusal ∷ first ∷ pairs ∷ [])) }
{
    answer[5] = of_refusal(refusal);
    answer[6] = first;
    answer[7] = pairs as u32;
    report_stop(stop, count, known, &mut answer[..5])
}
