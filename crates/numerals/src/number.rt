// Numbers as text: a hexadecimal or decimal number is read, and the last digits of a number are written.
ghost use Rattle.std.specs.Prelude.{◌≡◌, ◌%◌, ◌≤◌, ◌<◌, length, drop};
ghost use Rattle.numerals.specs.Number.{digit_of, read_from, hex_of, decimal_of, value_of, digit_text, digits_text, stripped};

// The value of a digit of either case, and 16 for what is none.
#[tactic(auto, using(std::proofs::lemmas::Bool::Decides::nat_tests), unfolding(crate::specs::Number::digit_of))]
pub fn digit_of(b: u8) -> u64
    ensures { result ≡ digit_of b }
{
    match b {
        b'0'..=b'9' => u64::from(b - b'0'),
        b'A'..=b'F' => u64::from(b - b'A') + 10,
        b'a'..=b'f' => u64::from(b - b'a') + 10,
        _ => 16,
    }
}

// One to eight hexadecimal digits, or none.
#[tactic(auto, using(std::proofs::lemmas::Bool::Decides::nat_tests), unfolding(crate::specs::Number::hex_of))]
pub fn hex_of(text: &[u8]) -> Option<u32>
    ensures { result ≡ hex_of text.now }
{
    if text.is_empty() || 8 < text.len() {
        return None;
    }
    read_digits(text, 16)
}

// At least one decimal digit, of a number below 2 ^ 32, or none.
#[tactic(auto, using(std::proofs::lemmas::Bool::Decides::nat_tests), unfolding(crate::specs::Number::decimal_of))]
pub fn decimal_of(text: &[u8]) -> Option<u32>
    ensures { result ≡ decimal_of text.now }
{
    if text.is_empty() {
        return None;
    }
    read_digits(text, 10)
}

// A hexadecimal number of one to eight digits, with or without 0x before it, or none.
pub fn value_of(text: &[u8]) -> Option<u32>
    ensures { result ≡ value_of text.now }
{
    match text.strip_prefix(b"0x") {
        Some(digits) => hex_of(digits),
        None => hex_of(text),
    }
}

// Digit by digit, the highest first.
fn read_digits(text: &[u8], base: u64) -> Option<u32>
    requires { base ≤ 16 }
    ensures { result ≡ read_from base text.now 0 }
{
    let mut v: u32 = 0;
    for &b in text {
        let d = digit_of(b);
        if base <= d {
            return None;
        }
        v = u32::try_from(u64::from(v) * base + d).ok()?;
    }
    Some(v)
}

// The digit of a value below 16, in upper case.
#[tactic(auto, using(std::proofs::lemmas::Bool::Decides::nat_tests), unfolding(crate::specs::Number::digit_text))]
pub fn digit_text(d: u32) -> u8
    ensures { result ≡ digit_text (d % 16) }
{
    let k = (d % 16) as u8;
    if k < 10 { b'0' + k } else { b'A' + (k - 10) }
}

// Fills a slice with the last digits of a number.
pub fn write_digits(x: u32, base: u32, out: &mut [u8])
    requires { (0 < base) × (base ≤ 16) }
    ensures { out.new ≡ digits_text base (length out.old) x }
{
    let mut rest = x;
    for i in (0..out.len()).rev() {
        out[i] = digit_text(rest % base);
        rest /= base;
    }
}

// How many zeros stand before a number's first digit, at most nine.
pub fn zeros(digits: [u8; 10]) -> usize
    ensures { (result ≤ 9) × (drop result digits ≡ stripped 9 digits) }
{
    digits[..9].iter().position(|&d| d != b'0').unwrap_or(9)
}
