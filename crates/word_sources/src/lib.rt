// Where an unknown place came from in a word of a run, by its class.
#![tactic(auto)]

ghost use Rattle.std.specs.Prelude.{◌≡◌, ◌+◌, ◌*◌, ◌≤◌, length};
ghost use Rattle.machine.specs.Place.{State};
ghost use Rattle.decoding.specs.Table.{operation_table};
ghost use Rattle.word_class.specs.Word.{class_tree};
ghost use Rattle.links.specs.Walked.{Walked};
ghost use Rattle.word_sources.specs.Value.{value_in, value_of};

use access_sources::access_source;
use bits::field::{bit, bits};
use data_sources::data_back;
use decode_table::table::number;
use links::{Back, link};
use transfer_sources::transfer_source;

// Back through a word of this index that was not skipped, from place q, with the marks before it and the value that it asked for. The decode table is lent, and k
// pairs are in the list.
pub fn word_back(
    table: &[u8; 1024],
    marks: u64,
    value: u32,
    base: u32,
    op: u32,
    q: u32,
    index: u32,
    pairs: &mut [u32],
    k: usize,
) -> Back
    requires { (table.now ≡ operation_table) × (2 * (k + 8) ≤ length pairs.old) }
    ensures { (result.pairs ≤ k + 8) × ((st : State) → value ≡ value_of op st → Walked (class_tree base op) st index marks q k pairs.old pairs.new result) }
{
    if bits(op, 25, 27) == 0b110 {
        let s = access_source(base, value, op, q);
        return link(pairs, k, index, q, s);
    }
    if bit(op, 4) {
        let s = transfer_source(marks, op, q);
        return link(pairs, k, index, q, s);
    }
    data_back(marks, value, number(table, op), op, q, index, pairs, k)
}

// The value that a word asks for: a load or store its base register, any other FPSCR.
pub fn value_of(r: &[u32; 16], fpscr: u32, op: u32) -> u32
    ensures { result ≡ value_in r.now fpscr op }
{
    if bits(op, 25, 27) == 0b110 {
        let rn = bits(op, 16, 19) as usize;
        return r[rn];
    }
    fpscr
}
