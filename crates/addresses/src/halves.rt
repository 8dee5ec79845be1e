// The two words of a double, as singles.
ghost use Rattle.std.specs.Prelude.{◌≡◌};
ghost use Rattle.registers.specs.Registers.{low_index, high_index};

use registers::registers::{Double, Single};

pub fn low_word(x: Double) -> Single
    ensures { result.0 ≡ low_index x.0 }
{
    Single(x.0 % 16 * 2)
}

pub fn high_word(x: Double) -> Single
    ensures { result.0 ≡ high_index x.0 }
{
    Single(x.0 % 16 * 2 + 1)
}
