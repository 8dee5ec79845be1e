// Words that are no VFP instruction.
ghost use Rattle.std.specs.Prelude.{◌≡◌};
ghost use Rattle.word_class.specs.Word.{foreign_word};

use bits::field::bits;

// Whether the word is no VFP instruction.
pub fn foreign(op: u32) -> bool
    ensures { result ≡ foreign_word op }
{
    let class = bits(op, 24, 27);
    (op >= 0xF000_0000) | (bits(op, 9, 11) != 0b101) | (class < 12) | (class > 14)
}
