// What a line says.
ghost use Rattle.std.specs.Prelude.{◌≡◌, ℕ, ◌≤◌, ◌<◌, length, drop, Ok, Some, IfErr};
ghost use Rattle.listing.specs.declared.line.Expected;
ghost use Rattle.listing.specs.Item.{read, told};
ghost use Rattle.listing.specs.Next.{named};
ghost use Rattle.listing.specs.Line.{item_of, ended_of, set_of, set_to, window_of, window_from, unknown_of, next_place};

use numerals::number::{decimal_of, hex_of, value_of};
use place_names::place::{CONTROL, EXCEPTIONS, fits, place_of};
use tokens::token::first;

// What a line should have had.
#[derive(Clone, Copy, Debug, PartialEq, Eq)]
pub enum Expected {
    Item,
    Place,
    Value,
    Flags,
    Control,
    Exceptions,
    Base,
    Count,
    End,
}

// An instruction word, a place's value, places that are unknown (they are named after the first so many bytes of the line), the
// window, or none of these.
#[derive(Clone, Copy, Debug, PartialEq, Eq)]
pub enum Item {
    Nothing,
    Word(u32),
    Set { place: u32, value: u32 },
    Unknown(usize),
    Window { base: u32, count: u32 },
}

// The item of a line, which has no comment and no line end.
pub fn item_of(line: &[u8]) -> Result<Item, Expected>
    ensures { told result ≡ item_of line.now }
{
    let (word, rest) = first(line);
    if word.is_empty() {
        Ok(Item::Nothing)
    } else if word == b"set".as_slice() {
        set_of(rest)
    } else if word == b"window".as_slice() {
        window_of(rest)
    } else if word == b"unknown".as_slice() {
        unknown_of(rest, line.len() - rest.len())
    } else if word.len() == 8 {
        let x = hex_of(word).ok_or(Expected::Item)?;
        ended(rest, Item::Word(x))
    } else {
        Err(Expected::Item)
    }
}

// An item that nothing may follow.
fn ended(rest: &[u8], item: Item) -> Result<Item, Expected>
    ensures { told result ≡ ended_of rest.now (read item) }
{
    let (word, _) = first(rest);
    if word.is_empty() {
        Ok(item)
    } else {
        Err(Expected::End)
    }
}

fn set_of(rest: &[u8]) -> Result<Item, Expected>
    ensures { told result ≡ set_of rest.now }
{
    let (word, rest) = first(rest);
    let place = place_of(word).ok_or(Expected::Place)?;
    set_to(place, rest)
}

fn set_to(place: u32, rest: &[u8]) -> Result<Item, Expected>
    ensures { told result ≡ set_to place rest.now }
{
    let (word, rest) = first(rest);
    let value = value_of(word).ok_or(Expected::Value)?;
    if fits(place, value) {
        return ended(rest, Item::Set { place, value });
    }
    Err(match place {
        CONTROL => Expected::Control,
        EXCEPTIONS => Expected::Exceptions,
        _ => Expected::Flags,
    })
}

fn window_of(rest: &[u8]) -> Result<Item, Expected>
    ensures { told result ≡ window_of rest.now }
{
    let (word, rest) = first(rest);
    let base = value_of(word).ok_or(Expected::Base)?;
    window_from(base, rest)
}

fn window_from(base: u32, rest: &[u8]) -> Result<Item, Expected>
    ensures { told result ≡ window_from base rest.now }
{
    let (word, rest) = first(rest);
    let count = decimal_of(word).ok_or(Expected::Count)?;
    ended(rest, Item::Window { base, count })
}

// At least one place is named.
fn unknown_of(rest: &[u8], from: usize) -> Result<Item, Expected>
    ensures { told result ≡ unknown_of from rest.now }
{
    let (word, _) = first(rest);
    if word.is_empty() {
        Err(Expected::Place)
    } else {
        Ok(Item::Unknown(from))
    }
}

// The place that a line names from a position on, with where to go on; none where the line names no more.
pub fn next_place(line: &[u8], from: usize) -> Result<Option<(u32, usize)>, Expected>
    ensures next { named result ≡ next_place from (drop from line.now) }
    ensures further { (p n : ℕ) → result ≡ Ok (Some (p, n)) → (from < n) × (n ≤ length line.now) }
    ensures expected { IfErr result (λ e. e ≡ Expected.Place) }
{
    if line.len() < from {
        return Ok(None);
    }
    let (word, rest) = first(&line[from..]);
    if word.is_empty() {
        return Ok(None);
    }
    match place_of(word) {
        Some(place) => Ok(Some((place, line.len() - rest.len()))),
        None => Err(Expected::Place),
    }
}
