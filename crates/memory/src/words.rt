// Singles in turn, from or to the words from an address on. They go on at s0 after s31, addresses at 0 after 2^32 - 4.
ghost use Rattle.std.specs.Prelude.{◌≡◌, true, false, ◌<◌, ◌≤◌, length};
ghost use Rattle.std.specs.Float.{binary32};
ghost use Rattle.bits.specs.Field.{bit_of};
ghost use Rattle.machine.specs.declared.Machine.{Machine};
ghost use Rattle.machine.specs.Machine.{with_s};
ghost use Rattle.machine.specs.Place.{state};
ghost use Rattle.meaning.specs.Step.{step, after};
ghost use Rattle.addresses.specs.Contiguous.{Contiguous};
ghost use Rattle.memory.specs.LoadStore.{access_step, access_at};

use addresses::contiguous::is_contiguous;
use bits::field::bit;
use machine::address::plus;
use machine::window::{read32, word_at, write32};
use registers::registers::{Single, get_single, set_single};

// By bit 20 of the word a load or a store.
pub fn move_words(
    s: &mut [u32; 32],
    window: &mut [u32],
    base: u32,
    op: u32,
    start: u32,
    first: Single,
    count: u32,
)
    requires { (first.0 < 32) × (count ≤ 510) }
    ensures { (q : Machine) → state (with_s q s.new) window.new ≡ after count (access_at binary32 (bit_of op 20) base first.0 start) (state (with_s q s.old) window.old) }
{
    // Nearly every transfer is contiguous, and a loop without tests moves it. Any other is moved word by word.
    if is_contiguous(window.len(), base, start, first, count) {
        move_block(s, window, base, op, start, first, count);
        return;
    }
    move_each(s, window, base, op, start, first, count);
}

// A contiguous transfer.
pub fn move_block(
    s: &mut [u32; 32],
    window: &mut [u32],
    base: u32,
    op: u32,
    start: u32,
    first: Single,
    count: u32,
)
    requires { Contiguous (length window.old) base start first.0 count }
    ensures { (q : Machine) → state (with_s q s.new) window.new ≡ after count (access_at binary32 (bit_of op 20) base first.0 start) (state (with_s q s.old) window.old) }
{
    if bit(op, 20) {
        load_block(s, &window[..], base, start, first, count);
        return;
    }
    store_block(s, window, base, start, first, count);
}

// Any transfer, with a test of each word.
pub fn move_each(
    s: &mut [u32; 32],
    window: &mut [u32],
    base: u32,
    op: u32,
    start: u32,
    first: Single,
    count: u32,
)
    requires { (first.0 < 32) × (count ≤ 510) }
    ensures { (q : Machine) → state (with_s q s.new) window.new ≡ after count (access_at binary32 (bit_of op 20) base first.0 start) (state (with_s q s.old) window.old) }
{
    if bit(op, 20) {
        load_words(s, &window[..], base, start, first, count);
        return;
    }
    store_words(s, window, base, start, first, count);
}

// One word, by bit 20 from or to an address.
pub fn move_word(s: &mut [u32; 32], window: &mut [u32], base: u32, op: u32, address: u32, x: Single)
    ensures { (q : Machine) → state (with_s q s.new) window.new ≡ step (access_step binary32 (bit_of op 20) base x.0 address) (state (with_s q s.old) window.old) }
{
    if bit(op, 20) {
        let value = read32(&window[..], base, address);
        set_single(s, x, value);
        return;
    }
    let value = get_single(s, x);
    write32(window, base, address, value);
}

fn load_block(s: &mut [u32; 32], window: &[u32], base: u32, start: u32, first: Single, count: u32)
    requires { Contiguous (length window.now) base start first.0 count }
    ensures { (q : Machine) → state (with_s q s.new) window.now ≡ after count (access_at binary32 true base first.0 start) (state (with_s q s.old) window.now) }
{
    let at = word_at(base, start);
    let n = count as usize;
    for i in 0..n {
        s[first.0 + i] = window[at + i];
    }
}

fn store_block(s: &[u32; 32], window: &mut [u32], base: u32, start: u32, first: Single, count: u32)
    requires { Contiguous (length window.old) base start first.0 count }
    ensures { (q : Machine) → state (with_s q s.now) window.new ≡ after count (access_at binary32 false base first.0 start) (state (with_s q s.now) window.old) }
{
    let at = word_at(base, start);
    let n = count as usize;
    for i in 0..n {
        window[at + i] = s[first.0 + i];
    }
}

fn load_words(s: &mut [u32; 32], window: &[u32], base: u32, start: u32, first: Single, count: u32)
    requires { (first.0 < 32) × (count ≤ 510) }
    ensures { (q : Machine) → state (with_s q s.new) window.now ≡ after count (access_at binary32 true base first.0 start) (state (with_s q s.old) window.now) }
{
    for i in 0..count {
        let value = read32(window, base, plus(start, 4 * i));
        set_single(s, Single(first.0 + i as usize), value);
    }
}

fn store_words(s: &[u32; 32], window: &mut [u32], base: u32, start: u32, first: Single, count: u32)
    requires { (first.0 < 32) × (count ≤ 510) }
    ensures { (q : Machine) → state (with_s q s.now) window.new ≡ after count (access_at binary32 false base first.0 start) (state (with_s q s.now) window.old) }
{
    for i in 0..count {
        let value = get_single(s, Single(first.0 + i as usize));
        write32(window, base, plus(start, 4 * i), value);
    }
}
