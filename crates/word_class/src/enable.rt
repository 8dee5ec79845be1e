// Words that need no enabled unit.
ghost use Rattle.std.specs.Prelude.{◌≡◌};
ghost use Rattle.word_class.specs.Word.{exempt};

use bits::field::{bit, bits};

// Whether the word is a transfer of system register 0 or 8, which needs no enabled unit.
pub fn is_exempt(op: u32) -> bool
    ensures { result ≡ exempt op }
{
    let register = bits(op, 16, 19);
    ((bits(op, 24, 27) == 0b1110) & bit(op, 4))
        & ((bits(op, 21, 23) == 7) & ((register == 0) | (register == 8)))
}
