// The marks of window words: bytes, 1 where a word is known.
ghost use Rattle.std.specs.Prelude.{◌≡◌, ◌<◌, eqb, get_or, set};
ghost use Rattle.bits.specs.Psr.{one_of};
ghost use Rattle.machine.specs.Window.{word_at};

use machine::window::word_at;

// What is read outside the window is known.
pub fn word_known(marks: &[u8], base: u32, address: u32) -> bool
    ensures { result ≡ eqb (get_or marks.now (word_at base address) 1) 1 }
{
    let i = word_at(base, address);
    if i < marks.len() {
        return marks[i] == 1;
    }
    true
}

// Outside the window a mark is dropped.
pub fn mark_word(marks: &mut [u8], base: u32, address: u32, b: bool)
    ensures { marks.new ≡ set marks.old (word_at base address) (one_of b) }
{
    let i = word_at(base, address);
    let byte = byte_of(b);
    if i < marks.len() {
        marks[i] = byte;
    }
}

// The mark of a word: 1 where it is known.
pub fn byte_of(b: bool) -> u8
    ensures { (result ≡ one_of b) × (result < 2) }
{
    if b {
        return 1;
    }
    0
}
