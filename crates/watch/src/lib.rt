// The watched run: the plain run with a map, which stops where the outcome would hang on an unknown place.
#![tactic(auto)]

ghost use Rattle.std.specs.Prelude.{◌≡◌, false, ◌+◌, ◌%◌, ◌^◌, ◌<◌, length};
ghost use Rattle.machine.specs.Place.{state, before};
ghost use Rattle.machine.specs.Machine.{assembled};
ghost use Rattle.meaning.specs.Run as R;
ghost use Rattle.decoding.specs.Table.{operation_table};
ghost use Rattle.window_marks.specs.Marks.{ones_of};
ghost use Rattle.place_marks.specs.Word.{marks_of, map_in};
ghost use Rattle.known_places.specs.Count.{known_before, known_places};
ghost use Rattle.word_class.specs.Word.{meaning};
ghost use Rattle.run_log.specs.Log.{Logged};
ghost use Rattle.watch.specs.Watch.{answered, reply};
ghost use Rattle.watch.specs.Promise.{Promise, WordPromise};

use decode_table::table::operations;
use known_places::known_before;
use limits::limit::watch_limit;
use machine::Machine;
use progress::Progress;
use run_log::log_word;
use run_word::word::advance;
use run_word::{Next, Stop};
use watch_word::word::watch_word;
use window_marks::marks::count_ones;

// The stop, how many words were counted, the machine and the marks handed back, and how many places are known.
#[derive(Clone, Copy)]
pub struct Watched {
    pub stop: Stop,
    pub count: usize,
    pub machine: Machine,
    pub marks: u64,
    pub known: usize,
}

// Runs a list of words over a window from a base on, with the marks of the places before the window as a word, bit p for place p, and the
// window's lent. Bits above the last place are ignored.
pub fn watch(
    machine: Machine,
    marks: u64,
    window: &mut [u32],
    window_marks: &mut [u8],
    base: u32,
    list: &[u32],
) -> Watched
    ensures { Promise base list.now (state machine window.old) (map_in marks window_marks.old) (answered result window.new window_marks.new) × WordPromise base list.now (state machine window.old) marks window_marks.old (answered result window.new window_marks.new) result.marks × (result.known ≡ known_places (map_in result.marks window_marks.new)) }
{
    let limit = watch_limit(list.len(), base, window.len(), machine.thumb, window_marks);
    if limit.number != 0 {
        let known = known_before(marks) + count_ones(window_marks);
        return Watched {
            stop: Stop::Refused(limit.number),
            count: 0,
            machine,
            marks,
            known,
        };
    }
    let table = operations();
    let mut log_marks = [0u64; 1];
    let mut log_values = [0u32; 1];
    let mut log_skips = [false; 1];
    watch_words(
        &table,
        machine,
        marks,
        window,
        window_marks,
        limit.ones,
        base,
        list,
        &mut log_marks[..0],
        &mut log_values[..0],
        &mut log_skips[..0],
    )
}

// The watched run within the limits, with a log. The decode table, the registers as locals and the number of ones among the window's marks are lent to each word;
// the marks go by value. One loop serves runs with a log and without: a word's function is compiled into it only while it has a single caller.
pub fn watch_words(
    table: &[u8; 1024],
    machine: Machine,
    marks: u64,
    window: &mut [u32],
    window_marks: &mut [u8],
    ones: usize,
    base: u32,
    list: &[u32],
    log_marks: &mut [u64],
    log_values: &mut [u32],
    log_skips: &mut [bool],
) -> Watched
    requires { (machine.thumb ≡ false) × (table.now ≡ operation_table) × (ones ≡ ones_of window_marks.old) × (length log_values.old ≡ length log_marks.old) × (length log_skips.old ≡ length log_marks.old) }
    ensures { (answered result window.new window_marks.new ≡ reply (R.watch (meaning base) list.now 0 (state machine window.old) (map_in marks window_marks.old))) × (result.marks < 2 ^ before) × (result.known ≡ known_places (map_in result.marks window_marks.new)) × Logged base list.now (state machine window.old) (map_in marks window_marks.old) result.count log_marks.new log_values.new log_skips.new }
{
    let begun = Progress::new(machine);
    let mut s = begun.s;
    let mut r = begun.r;
    let mut x = begun.controls;
    let mut known = marks;
    let mut words = ones;
    let mut i: usize = 0;
    while i < list.len() {
        let op = list[i];
        log_word(&r, x, known, op, i, log_marks, log_values, log_skips);
        let done = watch_word(
            table,
            &mut s,
            &mut r,
            x,
            window,
            known,
            window_marks,
            &mut words,
            base,
            op,
        );
        x = done.controls;
        known = done.marks;
        let next = done.next;
        match next {
            Next::On => {
                advance(&mut r);
                i += 1;
            }
            Next::Last => {
                let left = Progress { s, r, controls: x };
                return ended(left, known, words, Stop::Branched, i + 1);
            }
            Next::Halt(stop) => {
                let left = Progress { s, r, controls: x };
                return ended(left, known, words, stop, i);
            }
        }
    }
    let left = Progress { s, r, controls: x };
    ended(left, known, words, Stop::Finished, i)
}

// Hands the machine and the marks back with the stop and the count, and the known places before the window and in it. No bit stays above the last place.
fn ended(left: Progress, marks: u64, words: usize, stop: Stop, count: usize) -> Watched
    requires { words < 2 ^ 63 }
    ensures { (result.stop ≡ stop) × (result.count ≡ count) × (result.machine ≡ assembled left.s left.r left.controls false) × (result.marks ≡ marks % 2 ^ before) × (result.known ≡ known_before (marks_of marks) + words) }
{
    let machine = left.machine();
    let known = known_before(marks) + words;
    Watched {
        stop,
        count,
        machine,
        marks: marks % 0x20_0000_0000_0000,
        known,
    }
}
