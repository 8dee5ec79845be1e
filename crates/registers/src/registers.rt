// Register numbers, and the words of singles and doubles. A double's number and a single's are two types, so that neither can
// stand for the other.
ghost use Rattle.std.specs.Prelude.{◌≡◌, ◌%◌, ◌<◌, ◌^◌, ◌/◌, get_or, set};
ghost use Rattle.registers.specs.Registers.{sreg_of, dreg_of, single_index, low_index, high_index, double_of};

#[derive(Clone, Copy)]
pub struct Single(pub usize);

#[derive(Clone, Copy)]
pub struct Double(pub usize);

// The number of a single: its four bits and the extra bit below them.
pub fn sreg(vd: u32, extra: u32) -> Single
    requires { (vd < 16) × (extra < 2) }
    ensures { result.0 ≡ sreg_of vd extra }
{
    Single((vd * 2 + extra) as usize)
}

// The number of a double: its four bits and the extra bit above them.
pub fn dreg(vd: u32, extra: u32) -> Double
    requires { (vd < 16) × (extra < 2) }
    ensures { result.0 ≡ dreg_of vd extra }
{
    Double((extra * 16 + vd) as usize)
}

pub fn get_single(s: &[u32; 32], x: Single) -> u32
    ensures { result ≡ get_or s.now (single_index x.0) 0 }
{
    let i = x.0 % 32;
    s[i]
}

pub fn set_single(s: &mut [u32; 32], x: Single, v: u32)
    ensures { s.new ≡ set s.old (single_index x.0) v }
{
    let i = x.0 % 32;
    s[i] = v;
}

// The low word is the even single, the high word the one after it.
pub fn get_double(s: &[u32; 32], x: Double) -> u64
    ensures { result ≡ double_of (get_or s.now (low_index x.0) 0) (get_or s.now (high_index x.0) 0) }
{
    let even = x.0 % 16 * 2;
    let low = wide(s[even]);
    let high = wide(s[even + 1]);
    high * 0x1_0000_0000 + low
}

pub fn set_double(s: &mut [u32; 32], x: Double, v: u64)
    ensures { s.new ≡ set (set s.old (low_index x.0) (v % 2 ^ 32)) (high_index x.0) (v / 2 ^ 32) }
{
    let i = x.0 % 16 * 2;
    s[i] = (v % 0x1_0000_0000) as u32;
    s[i + 1] = (v / 0x1_0000_0000) as u32;
}

// The two words of a double.
#[derive(Clone, Copy)]
pub struct Words {
    pub low: u32,
    pub high: u32,
}

pub fn get_words(s: &[u32; 32], x: Double) -> Words
    ensures { (result.low ≡ get_or s.now (low_index x.0) 0) × (result.high ≡ get_or s.now (high_index x.0) 0) }
{
    let at = x.0 % 16 * 2;
    Words {
        low: s[at],
        high: s[at + 1],
    }
}

pub fn set_words(s: &mut [u32; 32], x: Double, w: Words)
    ensures { s.new ≡ set (set s.old (low_index x.0) w.low) (high_index x.0) w.high }
{
    let at = x.0 % 16 * 2;
    s[at] = w.low;
    s[at + 1] = w.high;
}

fn wide(x: u32) -> u64
    ensures { (result ≡ x) × (result < 2 ^ 32) }
{
    x as u64
}
