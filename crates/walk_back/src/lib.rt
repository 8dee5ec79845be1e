// Back through the words of a run, from the last to the first: the chain of a place that is unknown after it.
#![tactic(auto)]

pub mod refusal;

ghost use Rattle.std.specs.Prelude.{◌≡◌, false, not, ◌+◌, ◌*◌, ◌≤◌, length};
ghost use Rattle.bits.specs.Field.{field};
ghost use Rattle.bits.specs.Psr.{holds};
ghost use Rattle.machine.specs.Place.{State, place};
ghost use Rattle.meaning.specs.Map.{Map, known};
ghost use Rattle.meaning.specs.Run as R;
ghost use Rattle.decoding.specs.Table.{operation_table};
ghost use Rattle.word_class.specs.Word.{meaning};
ghost use Rattle.word_sources.specs.Value.{value_of};
ghost use Rattle.run_log.specs.Log.{Logged};
ghost use Rattle.walk_back.specs.Given.{Given};
ghost use Rattle.walk_back.specs.Counted.{WalkedCounted};

use links::{Back, turn};
use word_sources::word_back;

// From place q, unknown after the run of a list of which so many words were counted and logged. The pairs are written as they are found, the last first, and
// turned round.
pub fn walk(
    table: &[u8; 1024],
    log_marks: &[u64; 4096],
    log_values: &[u32; 4096],
    log_skips: &[bool; 4096],
    base: u32,
    list: &[u32],
    count: usize,
    q: u32,
    pairs: &mut [u32],
) -> Back
    requires { (table.now ≡ operation_table) × (count ≤ length list.now) × (count ≤ 4096) × (16 * count ≤ length pairs.old) }
    ensures { (st : State) (μ : Map) → Logged base list.now st μ count log_marks.now log_values.now log_skips.now → length list.now ≤ length log_marks.now → known (R.watch (meaning base) list.now 0 st μ).map (place q) ≡ false → Given base list.now st μ q count pairs.old pairs.new result.place result.pairs }
{
    let mut at = q;
    let mut k: usize = 0;
    let mut j = count;
    while j > 0 {
        j -= 1;
        let y = logged_back(
            table,
            log_marks[j],
            log_values[j],
            log_skips[j],
            base,
            list[j],
            at,
            j as u32,
            pairs,
            k,
        );
        at = y.place;
        k = y.pairs;
    }
    turn(pairs, k);
    Back {
        place: at,
        pairs: k,
    }
}

// Back through one word that was counted, by what is logged of it. A word that was skipped made no step.
fn logged_back(
    table: &[u8; 1024],
    marks: u64,
    value: u32,
    skip: bool,
    base: u32,
    op: u32,
    q: u32,
    index: u32,
    pairs: &mut [u32],
    k: usize,
) -> Back
    requires { (table.now ≡ operation_table) × (2 * (k + 8) ≤ length pairs.old) }
    ensures { (result.pairs ≤ k + 8) × ((st : State) → value ≡ value_of op st → skip ≡ not (holds (field op 28 31) st.machine.cpsr) → WalkedCounted (meaning base op) st index marks q k pairs.old pairs.new result) }
{
    if skip {
        return Back { place: q, pairs: k };
    }
    word_back(table, marks, value, base, op, q, index, pairs, k)
}
