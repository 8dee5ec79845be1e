// Marks that are lent as bytes, tested and counted eight at a time.
ghost use Rattle.std.specs.Prelude.{◌+◌, ◌*◌, ◌<◌, ◌≤◌, ◌≡◌, true, false, length, drop};
ghost use Rattle.window_marks.specs.Marks.{bits_only, is_one, ones_of, bytes_of, word_at};

// Whether every mark is 0 or 1, and then how many are 1.
#[derive(Clone, Copy)]
pub struct Counted {
    pub bits: bool,
    pub ones: usize,
}

// The test and the count in one pass.
pub fn count_bits(marks: &[u8]) -> Counted
    ensures { (result.bits ≡ bits_only marks.now) × (result.bits ≡ true → result.ones ≡ ones_of marks.now) }
{
    let mut ones: usize = 0;
    let mut i: usize = 0;
    while 8 <= marks.len() - i {
        let n = at_once(marks.len() - i);
        let c = count_words(marks, i, n);
        if !c.bits {
            return Counted {
                bits: false,
                ones: 0,
            };
        }
        ones += c.ones;
        i += 8 * n;
    }
    count_bits_from(marks, i, ones)
}

// How many words of eight marks are summed at once, of so many marks that are left: the ones of 31 are fewer than 255.
fn at_once(left: usize) -> usize
    ensures { (result ≤ 31) × (8 * result ≤ left) × (8 ≤ left → 1 ≤ result) }
{
    if left < 248 {
        return left / 8;
    }
    31
}

// The n words of eight marks from there on. As 256 is 1 more than 255, the sum of the words modulo 255 is that of their bytes.
fn count_words(marks: &[u8], from: usize, n: usize) -> Counted
    requires { (n ≤ 31) × (from + 8 * n ≤ length marks.now) }
    ensures { (result.bits ≡ false → bits_only (drop from marks.now) ≡ false) × (result.bits ≡ true → (bits_only (drop (from + 8 * n) marks.now) ≡ bits_only (drop from marks.now)) × (result.ones + ones_of (drop (from + 8 * n) marks.now) ≡ ones_of (drop from marks.now))) }
{
    let mut sum: u64 = 0;
    for i in 0..n {
        let w = word(marks, from + 8 * i);
        if !word_bits_only(w) {
            return Counted {
                bits: false,
                ones: 0,
            };
        }
        sum += w;
    }
    Counted {
        bits: true,
        ones: (sum % 255) as usize,
    }
}

// The marks from i on, one by one, after so many ones.
fn count_bits_from(marks: &[u8], from: usize, before: usize) -> Counted
    requires { before + ones_of (drop from marks.now) ≤ length marks.now }
    ensures { (result.bits ≡ bits_only (drop from marks.now)) × (result.bits ≡ true → result.ones ≡ before + ones_of (drop from marks.now)) }
{
    let mut ones = before;
    let mut i = from;
    while i < marks.len() {
        let m = marks[i];
        if 1 < m {
            return Counted {
                bits: false,
                ones: 0,
            };
        }
        ones += m as usize;
        i += 1;
    }
    Counted { bits: true, ones }
}

// How many marks are 1, whatever the others are.
pub fn count_ones(marks: &[u8]) -> usize
    ensures { result ≡ ones_of marks.now }
{
    let mut ones: usize = 0;
    let mut i: usize = 0;
    while i < marks.len() {
        ones += one(marks[i]);
        i += 1;
    }
    ones
}

// A mark that is 1 counts.
pub fn one(m: u8) -> usize
    ensures { (result ≡ is_one m) × (result ≤ 1) }
{
    if m == 1 {
        return 1;
    }
    0
}

// Whether each of the eight bytes of a word is 0 or 1.
fn word_bits_only(w: u64) -> bool
    ensures { result ≡ bits_only (bytes_of 8 w) }
{
    w & 0xFEFE_FEFE_FEFE_FEFE == 0
}

// The word of the eight marks from i on: one load.
fn word(marks: &[u8], i: usize) -> u64
    requires { i + 8 ≤ length marks.now }
    ensures { result ≡ word_at marks.now i }
{
    wide(marks[i])
        + wide(marks[i + 1]) * 0x100
        + wide(marks[i + 2]) * 0x1_0000
        + wide(marks[i + 3]) * 0x100_0000
        + wide(marks[i + 4]) * 0x1_0000_0000
        + wide(marks[i + 5]) * 0x100_0000_0000
        + wide(marks[i + 6]) * 0x1_0000_0000_0000
        + wide(marks[i + 7]) * 0x100_0000_0000_0000
}

fn wide(x: u8) -> u64
    ensures { (result ≡ x) × (result < 256) }
{
    x as u64
}
