// The lines of a report that tell of a place: they stand after 'unknown:' and 'changed:'.
ghost use Rattle.std.specs.Prelude.{◌≡◌, ◌++◌, ◌%◌, ◌^◌};
ghost use Rattle.text.specs.Text.{clip};
ghost use Rattle.place_values.specs.Seen.{known_in, value_in};
ghost use Rattle.place_lines.specs.Place.{named_text, unknown_text, value_text, change_text};

use place_values::place::Seen;
use text::text::Text;

// The last 32 bits of a place's number.
fn number(p: usize) -> u32
    ensures { result ≡ p % 2 ^ 32 }
{
    (p % 0x1_0000_0000) as u32
}

// A place's name with its number.
fn named(t: Text, p: u32) -> Text
    ensures { result ≡ clip (t ++ named_text p) }
{
    t.add_place(p).add(b" (").add_decimal(p).add(b")")
}

// A place that is unknown, the first of them or a later one.
pub fn unknown(first: bool, p: usize) -> Text
    ensures { result ≡ clip (unknown_text first (p % 2 ^ 32)) }
{
    let n = number(p);
    if first {
        return named(Text::new().add(b" "), n);
    }
    named(Text::new().add(b", "), n)
}

// A value, or that it is unknown.
fn valued(t: Text, known: bool, x: u32) -> Text
    ensures { result ≡ clip (t ++ value_text known x) }
{
    if known {
        return t.add_hex(x);
    }
    t.add(b"unknown")
}

// A place, what it was and what it is.
fn changed(p: u32, was: bool, old: u32, is: bool, new: u32) -> Text
    ensures { result ≡ clip (change_text p was old is new) }
{
    let from = valued(named(Text::new().add(b"\n  "), p).add(b" "), was, old);
    valued(from.add(b" -> "), is, new)
}

// The change of a place.
pub fn change(before: Seen, after: Seen, p: usize) -> Text
    ensures { result ≡ clip (change_text (p % 2 ^ 32) (known_in before.entry p) (value_in before.entry p) (known_in after.entry p) (value_in after.entry p)) }
{
    let was = before.is_known(p);
    let old = before.value(p);
    let is = after.is_known(p);
    let new = after.value(p);
    changed(number(p), was, old, is, new)
}
