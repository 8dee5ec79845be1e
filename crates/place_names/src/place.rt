// A place's name, or its number, as text.
ghost use Rattle.std.specs.Prelude.{◌≡◌, ◌+◌, ◌<◌, ◌^◌, eqb};
ghost use Rattle.machine.specs.Place.{place as place_at};
ghost use Rattle.place_names.specs.Place.{place_of, letter_of, within, own_bits};

use machine::place;
use numerals::number::decimal_of;

// The numbers of the places, as texts have them.
pub const CORE: u32 = place::CORE as u32;

pub const FLAGS: u32 = place::FLAGS as u32;

pub const CONTROL: u32 = place::CONTROL as u32;

pub const EXC: u32 = place::EXC as u32;

pub const NZCV: u32 = place::NZCV as u32;

pub const EXCEPTIONS: u32 = place::EXCEPTIONS as u32;

pub const WINDOW: u32 = place::WINDOW as u32;

// The places of a machine with the largest window.
const PLACES: u32 = WINDOW + 16384;

// The number of the place that a text names, or none.
#[tactic(auto, unfolding(crate::specs::Place::place_of))]
pub fn place_of(text: &[u8]) -> Option<u32>
    ensures { result ≡ place_of text.now }
{
    if text == b"flags".as_slice() {
        Some(FLAGS)
    } else if text == b"control".as_slice() {
        Some(CONTROL)
    } else if text == b"fpexc".as_slice() {
        Some(EXC)
    } else if text == b"nzcv".as_slice() {
        Some(NZCV)
    } else if text == b"exceptions".as_slice() {
        Some(EXCEPTIONS)
    } else {
        letter_of(text)
    }
}

// A letter with a number after it, or the place's own number.
#[tactic(auto, using(std::proofs::lemmas::Bool::Decides::nat_tests), unfolding(crate::specs::Place::letter_of))]
fn letter_of(text: &[u8]) -> Option<u32>
    ensures { result ≡ letter_of text.now }
{
    let (letter, digits) = text.split_first()?;
    match *letter {
        b's' => placed(decimal_of(digits), 0, 32),
        b'r' => placed(decimal_of(digits), CORE, 16),
        b'w' => placed(decimal_of(digits), WINDOW, 16384),
        _ => placed(decimal_of(text), 0, PLACES),
    }
}

// A number below a count, from the first place of its kind on.
#[tactic(auto, using(std::proofs::lemmas::Bool::Decides::nat_tests))]
fn placed(number: Option<u32>, from: u32, count: u32) -> Option<u32>
    requires { from + count < 2 ^ 32 }
    ensures { result ≡ within number from count }
{
    let n = number?;
    if n < count { Some(from + n) } else { None }
}

// A value's bits that are its place's own.
#[tactic(auto, unfolding(machine::specs::Place::place))]
pub fn own_bits(place: u32, value: u32) -> u32
    ensures { result ≡ own_bits (place_at place) value }
{
    match place {
        FLAGS | NZCV => value % 16,
        CONTROL => place::control_of(value),
        EXCEPTIONS => value % 32,
        _ => value,
    }
}

// Whether a value has no bit outside its place's own.
pub fn fits(place: u32, value: u32) -> bool
    ensures { result ≡ eqb (own_bits (place_at place) value) value }
{
    own_bits(place, value) == value
}
