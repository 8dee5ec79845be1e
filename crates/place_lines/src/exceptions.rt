// The line of a report that spells the cumulative exceptions.
ghost use Rattle.std.specs.Prelude.{◌≡◌, ◌++◌};
ghost use Rattle.text.specs.Text.{clip};
ghost use Rattle.place_lines.specs.Exceptions.{raised_text, exceptions_text, exceptions_told};

use place_values::place::differs;
use text::text::Text;

// A name that is told or not, the first or a later one.
fn also(t: Text, told: bool, first: bool, name: &[u8]) -> Text
    ensures { result ≡ clip (t ++ raised_text told first name.now) }
{
    if !told {
        return t.add(b"");
    }
    if first {
        return t.add(b" ").add(name);
    }
    t.add(b", ").add(name)
}

// Those of bits 0 to 4 that are set.
pub fn exceptions(x: u32) -> Text
    ensures { result ≡ clip (exceptions_text x) }
{
    let a = Text::new().add(b"exceptions:");
    let b = also(a, x % 2 == 1, true, b"invalid");
    let c = also(b, x / 2 % 2 == 1, x % 2 == 0, b"division by zero");
    let d = also(c, x / 4 % 2 == 1, x % 4 == 0, b"overflow");
    let e = also(d, x / 8 % 2 == 1, x % 8 == 0, b"underflow");
    let f = also(e, x / 16 % 2 == 1, x % 16 == 0, b"inexact");
    also(f, x % 32 == 0, true, b"none")
}

// Whether they are told: what they were stands first.
pub fn is_told(was: bool, old: u32, is: bool, new: u32) -> bool
    ensures { result ≡ exceptions_told was old is new }
{
    if !is {
        return false;
    }
    if new != 0 {
        return true;
    }
    differs(was, old, is, new)
}
