// Where an unknown place came from (2026-09): the watched run, and a chain to a place that is unknown after it.
#![tactic(auto)]

ghost use Rattle.std.specs.Prelude.{◌≡◌};
ghost use Rattle.machine.specs.Place.{state};
ghost use Rattle.place_marks.specs.Word.{map_in};
ghost use Rattle.known_places.specs.Count.{known_places};
ghost use Rattle.watch.specs.Watch.{answered};
ghost use Rattle.watch.specs.Promise.{Promise, WordPromise};
ghost use Rattle.origin.specs.Origin.{OriginPromise};

use decode_table::table::operations;
use limits::limit::watch_limit;
use machine::Machine;
use walk_back::refusal::origin_refusal;
use walk_back::walk;
use watch::{Watched, watch_words};

// The run's answer; the refusal of the chain, 11, 12 or 13, or 0; the chain's first place, and how many pairs it has.
#[derive(Clone, Copy)]
pub struct Originated {
    pub watched: Watched,
    pub refusal: u8,
    pub first: u32,
    pub pairs: usize,
}

// Runs a list of words as `watch` does, and gives a chain to a place, by its number: its pairs go to the front of the lent list.
pub fn origin(
    machine: Machine,
    marks: u64,
    window: &mut [u32],
    window_marks: &mut [u8],
    base: u32,
    list: &[u32],
    place: u32,
    pairs: &mut [u32],
) -> Originated
    ensures { Promise base list.now (state machine window.old) (map_in marks window_marks.old) (answered result.watched window.new window_marks.new) × WordPromise base list.now (state machine window.old) marks window_marks.old (answered result.watched window.new window_marks.new) result.watched.marks × (result.watched.known ≡ known_places (map_in result.watched.marks window_marks.new)) × OriginPromise base list.now (state machine window.old) (map_in marks window_marks.old) place (answered result.watched window.new window_marks.new) pairs.old pairs.new result.refusal result.first result.pairs }
{
    let limit = watch_limit(list.len(), base, window.len(), machine.thumb, window_marks);
    if limit.number != 0 {
        let watched = watch::watch(machine, marks, window, window_marks, base, list);
        return Originated {
            watched,
            refusal: 0,
            first: 0,
            pairs: 0,
        };
    }
    let table = operations();
    let mut log_marks = [0u64; 4096];
    let mut log_values = [0u32; 4096];
    let mut log_skips = [false; 4096];
    let watched = watch_words(
        &table,
        machine,
        marks,
        window,
        window_marks,
        limit.ones,
        base,
        list,
        &mut log_marks,
        &mut log_values,
        &mut log_skips,
    );
    let count = watched.count;
    let refusal = origin_refusal(place, watched.marks, window_marks, count, pairs.len());
    if refusal != 0 {
        return Originated {
            watched,
            refusal,
            first: 0,
            pairs: 0,
        };
    }
    let back = walk(
        &table,
        &log_marks,
        &log_values,
        &log_skips,
        base,
        list,
        count,
        place,
        pairs,
    );
    Originated {
        watched,
        refusal: 0,
        first: back.place,
        pairs: back.pairs,
    }
}
