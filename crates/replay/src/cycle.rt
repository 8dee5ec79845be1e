// The watched run of a record that is not refused.
ghost use Rattle.std.specs.Prelude.{◌≡◌, true, false, ◌≤◌, length, take};
ghost use Rattle.machine.specs.Place.{before};
ghost use Rattle.records.specs.Number.{numbers_of};
ghost use Rattle.layout.specs.State.{decode};
ghost use Rattle.records.specs.Recorded.{list_count, of_bytes};
ghost use Rattle.place_marks.specs.Word.{map_in};
ghost use Rattle.known_places.specs.Count.{known_places};
ghost use Rattle.watch.specs.Watch.{answered};
ghost use Rattle.record_refusal.specs.Refusal.{well_formed, Fitting, Accepted};
ghost use Rattle.replay.specs.Promise.{Ran, CycleRan};

use layout::state::decode;
use machine::Machine;
use machine::place::WINDOW;
use record_numbers::count::list_count;
use record_numbers::{fill, nth};
use record_refusal::field;
use watch::{Watched, watch};

// The machine of the words before the window.
fn machine_of(bytes: &[u8], words: usize) -> Machine
    requires { (Fitting bytes.now words) × (well_formed (of_bytes bytes.now) ≡ true) }
    ensures { result ≡ decode false (take before (of_bytes bytes.now).values) }
{
    let mut state = [0u32; WINDOW];
    fill(bytes, field::VALUES, &mut state);
    decode(&state, false)
}

// The list, in the first words of a list of the most words.
fn fill_list(bytes: &[u8], words: usize, n: usize, list: &mut [u32])
    requires { (Fitting bytes.now words) × (n ≡ list_count (numbers_of bytes.now)) × (n ≤ length list.old) }
    ensures { take n list.new ≡ (of_bytes bytes.now).list }
{
    fill(bytes, field::LIST + 2 * words, &mut list[..n]);
}

// Runs the list of a record over a window and marks.
fn run_list(
    bytes: &[u8],
    machine: Machine,
    known: u64,
    window: &mut [u32],
    window_marks: &mut [u8],
) -> Watched
    requires { (Fitting bytes.now (length window.old)) × (length (of_bytes bytes.now).list ≤ 4096) }
    ensures { (Ran (of_bytes bytes.now).base (of_bytes bytes.now).list machine window.old known
        window_marks.old (answered result window.new window_marks.new) result.marks) × (result.known ≡ known_places (map_in result.marks window_marks.new)) }
{
    let words = window.len();
    let base = nth(bytes, field::BASE + 2 * words);
    let n = list_count(bytes);
    let mut list = [0u32; 4096];
    fill_list(bytes, words, n, &mut list);
    watch(machine, known, window, window_marks, base, &list[..n])
}

// Lays the window and its marks into the buffers, and runs the list.
pub(crate) fn run_cycle(bytes: &[u8], window: &mut [u32], window_marks: &mut [u8]) -> Watched
    requires { (Accepted bytes.now (length window.old)) × (length window_marks.old ≡ length window.old) }
    ensures { (CycleRan (of_bytes bytes.now) (answered result window.new window_marks.new) result.marks) × (result.known ≡ known_places (map_in result.marks window_marks.new)) }
{
    let words = window.len();
    let machine = machine_of(bytes, words);
    let known = record_marks::word(bytes, field::MARKS + words);
    fill(bytes, field::WINDOW_VALUES, window);
    record_marks::fill(bytes, field::WINDOW_MARKS + words, window_marks);
    run_list(bytes, machine, known, window, window_marks)
}
