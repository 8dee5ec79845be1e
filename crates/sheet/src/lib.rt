// The register sheet for the cabinet door: the words and marks of the doubles, a line each.
#![tactic(auto)]

ghost use Rattle.std.specs.Prelude.{◌≡◌, List, ℕ, ◌<◌};
ghost use Rattle.place_marks.specs.Word.{map_in};
ghost use Rattle.sheet.specs.Line.{line, letter_of, line_text};
ghost use Rattle.sheet.specs.Sheet.{line_of, reply, laid_out};

use machine::Machine;
use numerals::number::write_digits;
use register_marks::register::MarkedRegister;
use registers::registers::{Double, Single, Words, get_words};

// 16 lines of 40 characters and a line feed.
pub const SHEET_BYTES: usize = 656;

// The refusal of a page that is shorter.
pub const SHORT_PAGE: u8 = 8;

// K for known, U for unknown.
fn letter(known: bool) -> u8
    ensures { result ≡ letter_of known }
{
    if known {
        return b'K';
    }
    b'U'
}

// The line of double n, whose words and marks are these.
fn line(n: u32, words: Words, high_known: bool, low_known: bool) -> [u8; 41]
    ensures { result ≡ line_text (line n words.high words.low high_known low_known) }
{
    let mut out = [b' '; 41];
    write_digits(n, 10, &mut out[..2]);
    write_digits(words.high, 16, &mut out[3..11]);
    write_digits(words.low, 16, &mut out[12..20]);
    out[21] = letter(high_known);
    out[22] = letter(low_known);
    out[40] = b'\n';
    out
}

// The line of double n of s0 to s31.
fn double_line(s: &[u32; 32], marks: u64, n: usize) -> [u8; 41]
    requires { n < 16 }
    ensures { (w : List ℕ) → result ≡ line_text (line_of s.now (map_in marks w) n) }
{
    let words = get_words(s, Double(n));
    let high_known = Single(2 * n + 1).known(marks);
    let low_known = Single(2 * n).known(marks);
    line(n as u32, words, high_known, low_known)
}

// Writes the sheet to the start of a page. Gives 0, or 8, the page as it came, where that is too short.
pub fn lay_out(machine: Machine, marks: u64, page: &mut [u8]) -> u8
    ensures { (w : List ℕ) → reply result page.new ≡ laid_out machine (map_in marks w) page.old }
{
    if page.len() < SHEET_BYTES {
        return SHORT_PAGE;
    }
    let s = machine.s;
    let mut n: usize = 0;
    while n < 16 {
        let text = double_line(&s, marks, n);
        let at = 41 * n;
        page[at..at + 41].copy_from_slice(&text);
        n += 1;
    }
    0
}
