// Singles in turn, loaded from the words from an address on or stored there. Of several that are moved to one place the last counts.
ghost use Rattle.std.specs.Prelude.{◌≡◌, ℕ, ◌*◌, ◌<◌, ◌≤◌, true, false};
ghost use Rattle.std.specs.Float.{Format};
ghost use Rattle.addresses.specs.Address.{words_in, first_word};
ghost use Rattle.access_sources.specs.Moved.{LeadingMoved};

use machine::address::plus;
use machine::place::WINDOW;
use machine::window::word_at;
use sources::Source;

// A single was loaded every 32 words: the last of them.
pub(crate) fn load_source(base: u32, start: u32, first: u32, count: u32, q: u32) -> Source
    requires { (first < 32) × (count ≤ 510) }
    ensures { (f : Format) (n k op : ℕ) → first ≡ first_word f n → count ≡ words_in f * k → (m : ℕ) → LeadingMoved f true base n start k op m q result }
{
    if q >= 32 {
        return Source::Kept;
    }
    let one = (q + 32 - first) % 32;
    if one >= count {
        return Source::Kept;
    }
    let last = count - 1 - (count - 1 - one) % 32;
    let address = plus(start, 4 * last);
    Source::From(WINDOW as u32 + word_at(base, address) as u32)
}

// A window word was stored once at most: numbers of words go on at 0 after 2^30 - 1.
pub(crate) fn store_source(base: u32, start: u32, first: u32, count: u32, q: u32) -> Source
    requires { (first < 32) × (count ≤ 510) }
    ensures { (f : Format) (n k op : ℕ) → first ≡ first_word f n → count ≡ words_in f * k → (m : ℕ) → LeadingMoved f false base n start k op m q result }
{
    if q < WINDOW as u32 {
        return Source::Kept;
    }
    let v = q - WINDOW as u32;
    if v >= 0x4000_0000 {
        return Source::Kept;
    }
    let one = (v + 0x4000_0000 - word_at(base, start) as u32) % 0x4000_0000;
    if one >= count {
        return Source::Kept;
    }
    Source::From((first + one) % 32)
}
