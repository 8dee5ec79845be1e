// The lines of a report that tell of the run: its stop, and how much of the list was run.
ghost use Rattle.std.specs.Prelude.{◌≡◌, ◌++◌};
ghost use Rattle.machine.specs.Place.{number, core};
ghost use Rattle.text.specs.Text.{clip};
ghost use Rattle.bits.specs.Field.{bit_of};
ghost use Rattle.place_values.specs.Place.{word_at};
ghost use Rattle.report.specs.Line.{word_text, last_text, r15_text, hung_text, stop_text, ran_text, known_text};

use machine::place::PC;
use place_values::place::Seen;
use text::text::Text;

// A word of the list by its index, told as the word of so many, the first being word 1.
fn at_word(t: Text, list: &[u32], i: usize) -> Text
    ensures { result ≡ clip (t ++ word_text list.now i) }
{
    if i < list.len() {
        return t
            .add(b" at word ")
            .add_count(i + 1)
            .add(b" of ")
            .add_count(list.len())
            .add(b": ")
            .add_hex(list[i]);
    }
    t.add(b"")
}

// The last word that was counted.
fn after_word(t: Text, list: &[u32], count: usize) -> Text
    ensures { result ≡ clip (t ++ last_text list.now count) }
{
    if 0 < count {
        return at_word(t, list, count - 1);
    }
    t.add(b"")
}

fn with_r15(t: Text, known: bool, r15: u32) -> Text
    ensures { result ≡ clip (t ++ r15_text known r15) }
{
    if known {
        return t.add(b", r15 ").add_hex(r15);
    }
    t.add(b", r15 unknown")
}

fn hung(t: Text, p: u32) -> Text
    ensures { result ≡ clip (t ++ hung_text p) }
{
    t.add(b"hangs on ")
        .add_place(p)
        .add(b" (place ")
        .add_decimal(p)
        .add(b")")
}

// The stop of a run by the number of its kind, with the count, the place and the address of its answer; r15 is as it stands then.
pub fn stop(kind: u32, count: usize, place: u32, address: u32, list: &[u32], after: Seen) -> Text
    ensures { result ≡ clip (stop_text kind count place address list.now (bit_of after.entry.marks (number (core 15))) (word_at after.entry.state.now (number (core 15)))) }
{
    let known = after.is_known(PC);
    let r15 = after.value(PC);
    let t = Text::new();
    match kind {
        0 => with_r15(t.add(b"finished"), known, r15),
        1 => with_r15(at_word(t.add(b"foreign"), list, count), known, r15),
        2 => at_word(t.add(b"undefined"), list, count)
            .add(b", address ")
            .add_hex(address),
        3 => with_r15(after_word(t.add(b"branched"), list, count), known, r15),
        4 => with_r15(at_word(hung(t, place), list, count), known, r15),
        _ => t.add(b"refused: ").add_decimal(kind),
    }
}

// How many words of the list were run, and how many are left.
pub fn ran(count: usize, all: usize) -> Text
    ensures { result ≡ clip (ran_text count all) }
{
    Text::new()
        .add(b"ran ")
        .add_count(count)
        .add(b" of ")
        .add_count(all)
        .add(b" words, ")
        .add_count(all.saturating_sub(count))
        .add(b" left")
}

// How many places are known, the window's among them.
pub fn known(n: usize, all: usize) -> Text
    ensures { result ≡ clip (known_text n all) }
{
    Text::new()
        .add_count(n)
        .add(b" of ")
        .add_count(all)
        .add(b" places known")
}
