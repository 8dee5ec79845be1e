// Where an unknown place came from in a load, a store or a pair. Every word that moves has one source, so that no mark is looked at.
#![tactic(auto)]

mod pair;
mod words;

ghost use Rattle.std.specs.Prelude.{◌≡◌, ℕ};
ghost use Rattle.addresses.specs.Address.{format_of};
ghost use Rattle.bits.specs.Field.{field};
ghost use Rattle.machine.specs.Place.{State, core, get};
ghost use Rattle.memory.specs.LoadStore.{access_tree, load_store_tree};
ghost use Rattle.access_sources.specs.Moved.{LeadingClear};

use addresses::address::{first_word, start_of, word_count};
use bits::field::{bit, bits};
use pair::pair_source;
use sources::Source;
use words::{load_source, store_source};

// The base register's value says which window words moved.
pub fn access_source(base: u32, value: u32, op: u32, q: u32) -> Source
    ensures { (st : State) → get st (core (field op 16 19)) ≡ value → (m : ℕ) → LeadingClear (load_store_tree base op) st m q result }
{
    let coproc = bits(op, 8, 11);
    if coproc == 10 {
        return moved_source(base, value, op, false, q);
    }
    if coproc == 11 {
        return moved_source(base, value, op, true, q);
    }
    Source::Kept
}

// In either precision.
fn moved_source(base: u32, value: u32, op: u32, double: bool, q: u32) -> Source
    ensures { (st : State) → get st (core (field op 16 19)) ≡ value → (m : ℕ) → LeadingClear (access_tree (format_of double) base op) st m q result }
{
    if bits(op, 21, 27) == 0b110_0010 {
        return pair_source(op, double, q);
    }
    let start = start_of(op, value);
    let first = first_word(op, double);
    let count = word_count(op, double);
    if bit(op, 20) {
        return load_source(base, start, first.0 as u32, count, q);
    }
    store_source(base, start, first.0 as u32, count, q)
}
