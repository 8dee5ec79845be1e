// The parts of an instruction's text. They are functions: a method of another crate's `Text` would call for a trait, which is no plainer.
ghost use Rattle.std.specs.Prelude.{◌≡◌, ◌++◌, ◌+◌, ◌≤◌, ◌<◌, ◌^◌, length, take, drop};
ghost use Rattle.addresses.specs.Address.{format_of};
ghost use Rattle.text.specs.Text.{clip};
ghost use Rattle.mnemonics.specs.Parts.{condition_text, reg_text, core_text, named_text, precise_text};

use bits::field::bits;
use text::text::Text;

// Two of the letters.
fn two_letters(t: Text, letters: &[u8], i: usize) -> Text
    requires { i + 2 ≤ length letters.now }
    ensures { result ≡ clip (t ++ take 2 (drop i letters.now)) }
{
    let end = i + 2;
    t.add(&letters[i..end])
}

// The condition of a word, none where it is always executed.
pub fn condition(t: Text, op: u32) -> Text
    ensures { result ≡ clip (t ++ condition_text op) }
{
    let c = bits(op, 28, 31);
    if c < 14 {
        return two_letters(t, b"EQNECSCCMIPLVSVCHILSGELTGTLE", 2 * c as usize);
    }
    t.add(b"")
}

// A name with the condition.
pub fn named(t: Text, name: &[u8], op: u32) -> Text
    ensures { result ≡ clip (t ++ named_text op name.now) }
{
    condition(t.add(name), op).add(b" ")
}

// A name with the precision's letter and the condition.
pub fn precise(t: Text, name: &[u8], double: bool, op: u32) -> Text
    ensures { result ≡ clip (t ++ precise_text (format_of double) op name.now) }
{
    if double {
        return named(t.add(name), b"D", op);
    }
    named(t.add(name), b"S", op)
}

// A register of the unit by its number.
pub fn register(t: Text, double: bool, n: usize) -> Text
    requires { n < 2 ^ 32 }
    ensures { result ≡ clip (t ++ reg_text (format_of double) n) }
{
    if double {
        return t.push(b'd').add_decimal(n as u32);
    }
    t.push(b's').add_decimal(n as u32)
}

// A core register by its number.
pub fn core(t: Text, n: u32) -> Text
    ensures { result ≡ clip (t ++ core_text n) }
{
    t.push(b'r').add_decimal(n)
}
