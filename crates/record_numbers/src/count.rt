// The first number of a record: bit 31 is set, and below it stands the count of instruction words.
ghost use Rattle.std.specs.Prelude.{◌≡◌, ◌<◌, ◌≤◌, leb, length, get_or};
ghost use Rattle.records.specs.Number.{numbers_of};
ghost use Rattle.records.specs.Recorded.{layout_bit, list_count};

use super::nth;

pub const LAYOUT_BIT: u32 = 0x8000_0000;

// Whether bit 31 is set: a record of 52 places has it clear.
pub fn is_current(bytes: &[u8]) -> bool
    requires { 4 ≤ length bytes.now }
    ensures { result ≡ leb layout_bit (get_or (numbers_of bytes.now) 0 0) }
{
    LAYOUT_BIT <= nth(bytes, 0)
}

pub fn list_count(bytes: &[u8]) -> usize
    requires { 4 ≤ length bytes.now }
    ensures { (result ≡ list_count (numbers_of bytes.now)) × (result < layout_bit) }
{
    index(nth(bytes, 0) % LAYOUT_BIT)
}

fn index(x: u32) -> usize
    ensures { result ≡ x }
{
    x as usize
}
