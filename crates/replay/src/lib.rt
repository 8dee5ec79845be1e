// The replay of a recorded cycle.
#![tactic(auto)]

mod cycle;

ghost use Rattle.std.specs.Prelude.{◌≡◌};
ghost use Rattle.place_marks.specs.Word.{map_in};
ghost use Rattle.known_places.specs.Count.{known_places};
ghost use Rattle.watch.specs.Watch.{answered};
ghost use Rattle.replay.specs.Promise.{ReplayPromise};

use cycle::run_cycle;
use machine::Machine;
use record_refusal::refusal;
use run_word::Stop;
use watch::Watched;
use window_marks::marks::count_ones;

// Runs what the bytes of a record hold, watched. Its window and window marks are laid into the two lent buffers, which a refusal leaves as they came; then of all places those
// that these marks call known are.
pub fn replay(bytes: &[u8], window: &mut [u32], window_marks: &mut [u8]) -> Watched
    ensures { (ReplayPromise bytes.now window.old window_marks.old
        (answered result window.new window_marks.new) result.marks) × (result.known ≡ known_places (map_in result.marks window_marks.new)) }
{
    let n = refusal(bytes, window.len(), window_marks.len());
    if n != 0 {
        let known = count_ones(window_marks);
        return Watched {
            stop: Stop::Refused(n),
            count: 0,
            machine: Machine::new(),
            marks: 0,
            known,
        };
    }
    run_cycle(bytes, window, window_marks)
}
