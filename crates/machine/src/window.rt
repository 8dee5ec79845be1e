// The window: the words of memory from a base on, in place of the Rust's `Bus`. The low two bits of an address are ignored.
ghost use Rattle.std.specs.Prelude.{◌≡◌, get_or, set};
ghost use Rattle.machine.specs.Window.{word_at};

use super::address::minus;

// Outside the window a read gives 0.
pub fn read32(window: &[u32], base: u32, address: u32) -> u32
    ensures { result ≡ get_or window.now (word_at base address) 0 }
{
    let i = word_at(base, address);
    if i < window.len() {
        return window[i];
    }
    0
}

// Outside the window a write is dropped.
pub fn write32(window: &mut [u32], base: u32, address: u32, value: u32)
    ensures { window.new ≡ set window.old (word_at base address) value }
{
    let i = word_at(base, address);
    if i < window.len() {
        window[i] = value;
    }
}

// The number of the window's word that an address names, at least the window's length for an address outside.
pub fn word_at(base: u32, address: u32) -> usize
    ensures { result ≡ word_at base address }
{
    index(minus(address, base) / 4)
}

fn index(x: u32) -> usize
    ensures { result ≡ x }
{
    x as usize
}
