// The pairs of a chain in a lent list. They are written as the run is walked back, the last first, and turned round at the end.
#![tactic(auto)]

ghost use Rattle.std.specs.Prelude.{◌≡◌, ◌+◌, ◌*◌, ◌<◌, ◌≤◌, length};
ghost use Rattle.links.specs.Pairs.{back_of, linked_in, swapped, Turned};

use sources::Source;

// The place before what was walked back, and how many pairs there are.
#[derive(Clone, Copy)]
pub struct Back {
    pub place: u32,
    pub pairs: usize,
}

// One step back from place q of the word of this index: a pair more, where the place has a source.
pub fn link(pairs: &mut [u32], k: usize, index: u32, q: u32, s: Source) -> Back
    requires { 2 * k + 1 < length pairs.old }
    ensures { (result ≡ back_of s q k) × (pairs.new ≡ linked_in s index q k pairs.old) }
{
    match s {
        Source::Kept => Back { place: q, pairs: k },
        Source::From(p) => {
            pairs[2 * k] = index;
            pairs[2 * k + 1] = q;
            Back {
                place: p,
                pairs: k + 1,
            }
        }
    }
}

// The first n pairs in the opposite order; the rest is not touched.
pub fn turn(pairs: &mut [u32], n: usize)
    requires { 2 * n ≤ length pairs.old }
    ensures { Turned n pairs.old pairs.new }
{
    let mut i: usize = 0;
    let mut j = n;
    while i + 1 < j {
        j -= 1;
        swap(pairs, i, j);
        i += 1;
    }
}

// Pairs i and j.
fn swap(pairs: &mut [u32], i: usize, j: usize)
    requires { (i < j) × (2 * j + 1 < length pairs.old) }
    ensures { pairs.new ≡ swapped i j pairs.old }
{
    let index = pairs[2 * i];
    let place = pairs[2 * i + 1];
    let other_index = pairs[2 * j];
    let other_place = pairs[2 * j + 1];
    pairs[2 * i] = other_index;
    pairs[2 * i + 1] = other_place;
    pairs[2 * j] = index;
    pairs[2 * j + 1] = place;
}
