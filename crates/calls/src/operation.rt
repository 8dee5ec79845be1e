// The operation of a data-processing word.
ghost use Rattle.std.specs.Prelude.{◌≡◌};
ghost use Rattle.decoding.specs.Operation.{operation_of, number_of};

use decode_table::table::number_of;

// The number of the operation that bits 23:20, 19:16, 7 and 6 name, 0 for Undefined.
pub fn operation_call(word: u32) -> u32
    ensures { result ≡ number_of (operation_of word) }
{
    number_of(word) as u32
}
