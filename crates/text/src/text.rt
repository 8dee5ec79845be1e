// A text of at most 128 bytes that grows at its end. What does not fit is left out.
// No `fmt::Write`: a `write!` promises nothing of the bytes, and each piece here does.
ghost use Rattle.std.specs.Prelude.{◌≡◌, ◌≤◌, [], ◌∷◌, ◌++◌, ◌%◌, ◌^◌, length};
ghost use Rattle.numerals.specs.Number.{hex_text, decimal_text};
ghost use Rattle.place_names.specs.Place.{place_text};
ghost use Rattle.text.specs.Text.{clip};

use numerals::number::{write_digits, zeros};
use place_names::place::{CONTROL, CORE, EXC, EXCEPTIONS, FLAGS, NZCV, WINDOW};
use std::marker::Model;

// What stands behind the count is 0, so that the bytes that are taken give the fields back.
#[derive(Clone, Copy, Debug)]
pub struct Text {
    bytes: [u8; 128],
    count: usize,
}

// Clauses see the bytes that are taken.
impl Model for Text {
    ghost use Rattle.std.specs.Prelude.{ℕ, List};

    ghost Value = { List ℕ };

    ghost use Rattle.text.specs.Text.{text_of, IsText, of_bytes};

    ghost view = { text_of };

    ghost invariant = { IsText };

    ghost inverse = { of_bytes };

    ghost inverse_ok = { λ a h. h.1 };
}

impl Text {
    pub fn new() -> Text
        ensures { result ≡ [] }
    {
        Text {
            bytes: [0; 128],
            count: 0,
        }
    }

    // The bytes that are taken, at most 128.
    pub fn as_bytes(&self) -> &[u8]
        ensures bytes { result.now ≡ self.now }
        ensures room { length result.now ≤ 128 }
    {
        &self.bytes[..self.count]
    }

    pub fn push(mut self, b: u8) -> Text
        ensures { result ≡ clip (self ++ (b ∷ [])) }
    {
        if self.count < 128 {
            self.bytes[self.count] = b;
            self.count += 1;
        }
        self
    }

    pub fn add(mut self, more: &[u8]) -> Text
        ensures { result ≡ clip (self ++ more.now) }
    {
        let n = self.count;
        let taken = (128 - n).min(more.len());
        let end = n + taken;
        self.bytes[n..end].copy_from_slice(&more[..taken]);
        self.count = end;
        self
    }

    // A word in hexadecimal.
    pub fn add_hex(self, x: u32) -> Text
        ensures { result ≡ clip (self ++ hex_text x) }
    {
        let mut digits = [0u8; 8];
        write_digits(x, 16, &mut digits);
        self.add(&digits)
    }

    // A number in decimal.
    pub fn add_decimal(self, x: u32) -> Text
        ensures { result ≡ clip (self ++ decimal_text x) }
    {
        let mut digits = [0u8; 10];
        write_digits(x, 10, &mut digits);
        let n = zeros(digits);
        self.add(&digits[n..])
    }

    // A count in decimal, by its last 32 bits.
    pub fn add_count(self, n: usize) -> Text
        ensures { result ≡ clip (self ++ decimal_text (n % 2 ^ 32)) }
    {
        self.add_decimal((n % 0x1_0000_0000) as u32)
    }

    // A place's name.
    pub fn add_place(self, p: u32) -> Text
        ensures { result ≡ clip (self ++ place_text p) }
    {
        if p < CORE {
            return self.push(b's').add_decimal(p);
        }
        if p < FLAGS {
            return self.push(b'r').add_decimal(p - CORE);
        }
        if p < CONTROL {
            return self.add(b"flags");
        }
        if p < EXC {
            return self.add(b"control");
        }
        if p < NZCV {
            return self.add(b"fpexc");
        }
        if p < EXCEPTIONS {
            return self.add(b"nzcv");
        }
        if p < WINDOW {
            return self.add(b"exceptions");
        }
        self.push(b'w').add_decimal(p - WINDOW)
    }
}
