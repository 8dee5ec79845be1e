// Whether a record is turned away: 9, then 10, then the refusals of a watched run on its own numbers.
#![tactic(auto)]

pub mod field;

ghost use Rattle.std.specs.Prelude.{◌≡◌, ◌^◌, ◌<◌};
ghost use Rattle.records.specs.Recorded.{of_bytes};
ghost use Rattle.record_refusal.specs.Refusal.{limit_in, fits, well_formed, refusal_of, Fitting};

use layout::state::is_valid;
use limits::limit::run_limit;
use machine::place::WINDOW;
use record_marks::bits_only;
use record_numbers::count::{is_current, list_count};
use record_numbers::{fill, nth};

fn index(x: u32) -> usize
    ensures { (result ≡ x) × (result < 2 ^ 32) }
{
    x as usize
}

// Whether bit 31 of the first number is set, and the sizes agree: those of the bytes, of the state, and of lent buffers of so many words and marks.
fn fits(bytes: &[u8], words: usize, marks: usize) -> bool
    ensures { result ≡ fits bytes.now words marks }
{
    // the least record has two counts and a base
    if bytes.len() < 12 {
        return false;
    }
    if !is_current(bytes) {
        return false;
    }
    let list = list_count(bytes);
    let stated = index(nth(bytes, field::STATE_COUNT));
    if bytes.len() != 4 * (3 + 2 * stated + list) {
        return false;
    }
    if stated < WINDOW {
        return false;
    }
    if words != stated - WINDOW {
        return false;
    }
    marks == stated - WINDOW
}

// Whether the words before the window are a machine's, and their marks 0 or 1.
fn is_well_formed(bytes: &[u8], words: usize) -> bool
    requires { Fitting bytes.now words }
    ensures { result ≡ well_formed (of_bytes bytes.now) }
{
    let mut state = [0u32; WINDOW];
    fill(bytes, field::VALUES, &mut state);
    if !is_valid(&state) {
        return false;
    }
    bits_only(bytes, field::MARKS + words, WINDOW)
}

// The first refusal of a watched run on what is recorded, or 0.
fn limit(bytes: &[u8], words: usize) -> u8
    requires { Fitting bytes.now words }
    ensures { result ≡ limit_in (of_bytes bytes.now) }
{
    let list = list_count(bytes);
    let base = nth(bytes, field::BASE + 2 * words);
    let n = run_limit(list, base, words, false);
    if n != 0 {
        return n;
    }
    if bits_only(bytes, field::WINDOW_MARKS + words, words) {
        return 0;
    }
    7
}

// The first refusal that applies, or 0.
pub fn refusal(bytes: &[u8], words: usize, marks: usize) -> u8
    ensures { result ≡ refusal_of bytes.now words marks }
{
    if !fits(bytes, words, marks) {
        return 9;
    }
    if !is_well_formed(bytes, words) {
        return 10;
    }
    limit(bytes, words)
}
