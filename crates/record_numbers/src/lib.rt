// The numbers of a record: 32 bits as bytes, little end first.
#![tactic(auto)]

pub mod count;

ghost use Rattle.std.specs.Prelude.{◌≡◌, ◌+◌, ◌*◌, ◌<◌, ◌≤◌, length, get_or, take, drop};
ghost use Rattle.records.specs.Number.{number_at, numbers_of};

fn wide(x: u8) -> u32
    ensures { (result ≡ x) × (result < 256) }
{
    x as u32
}

// The number whose lowest byte stands at a position.
pub fn number_at(bytes: &[u8], at: usize) -> u32
    requires { at + 4 ≤ length bytes.now }
    ensures { result ≡ number_at bytes.now at }
{
    wide(bytes[at])
        + wide(bytes[at + 1]) * 0x100
        + wide(bytes[at + 2]) * 0x1_0000
        + wide(bytes[at + 3]) * 0x100_0000
}

// The i-th number.
pub fn nth(bytes: &[u8], i: usize) -> u32
    requires { 4 * i + 4 ≤ length bytes.now }
    ensures { result ≡ get_or (numbers_of bytes.now) i 0 }
{
    number_at(bytes, 4 * i)
}

// The numbers from one on, as many as there is room for.
pub fn fill(bytes: &[u8], from: usize, to: &mut [u32])
    requires { 4 * (from + length to.old) ≤ length bytes.now }
    ensures { to.new ≡ take (length to.old) (drop from (numbers_of bytes.now)) }
{
    let mut i: usize = 0;
    while i < to.len() {
        to[i] = nth(bytes, from + i);
        i += 1;
    }
}
