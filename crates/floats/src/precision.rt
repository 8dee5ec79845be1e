// What a word of either width is: a pattern of its format, and the float of it.
ghost use Rattle.std.specs.Prelude.{◌≡◌, ℕ, ◌<◌, ◌*◌, ◌+◌, ◌/◌, ◌%◌, false, refl, from_bits, to_bits, Float};
ghost use Rattle.std.specs.Float.{Format, binary32, binary64, nan};
ghost use Rattle.std.specs.Float.Ieee.{prec, low, top, hid, nan_bits, ne, add, sub, mul, div, neg};

// A word of a width: `u32` of a single, `u64` of a double.
pub trait Precision: Copy {
    // The float of the width.
    type Float: Copy;

    // The format of the width, of IEEE 754.
    ghost format: { Format };

    // The number that a word is.
    ghost number: { Self → ℕ };

    // The value that a float is.
    ghost value: { Self.Float → Float };

    // How many digits the format keeps, and the places below the point of its smallest value.
    ghost DIGITS: { ℕ };

    ghost PLACES: { ℕ };

    // The weight of the sign.
    ghost SIGN: { ℕ };

    // The least normal value, as a pattern.
    ghost LEAST: { ℕ };

    const DIGITS: u64;

    const PLACES: u64;

    const SIGN: u64;

    const LEAST: u64;

    // The word as a number of 64 bits.
    fn wide(self) -> u64
        ensures value { result ≡ number self }
        ensures in_range { result < 2 * top format };

    // The word that a number is.
    fn of_wide(n: u64) -> Self
        requires { n < 2 * top format }
        ensures { number result ≡ n };

    // The word with its other sign.
    fn flipped(self) -> Self
        ensures { number result ≡ (number self + top format) % (top format * 2) };

    // The two words' sum, of which what passes the width is dropped.
    fn wrapping_add(self, other: Self) -> Self
        ensures value { number result ≡ (number self + number other) % (2 * top format) }
        ensures in_range { (number self < 2 * top format) × (number result < 2 * top format) };

    // The float of a word that is no NaN.
    fn from_bits(self) -> Self::Float
        requires { nan_bits format (number self) ≡ false }
        ensures { value result ≡ from_bits format (number self) };

    // The word of a float that is no NaN.
    fn to_bits(x: Self::Float) -> Self
        requires { ne (value x) (value x) ≡ false }
        ensures { number result ≡ to_bits format (value x) };

    // Whether a float differs from itself: a NaN does.
    fn differs(x: Self::Float) -> bool
        ensures { result ≡ ne (value x) (value x) };

    fn nan() -> Self::Float
        ensures { value result ≡ nan };

    // The width's own operators. Each rounds once, to nearest even.
    fn add(x: Self::Float, y: Self::Float) -> Self::Float
        ensures { value result ≡ add format (value x) (value y) };

    fn subtract(x: Self::Float, y: Self::Float) -> Self::Float
        ensures { value result ≡ sub format (value x) (value y) };

    fn multiply(x: Self::Float, y: Self::Float) -> Self::Float
        ensures { value result ≡ mul format (value x) (value y) };

    fn divide(x: Self::Float, y: Self::Float) -> Self::Float
        ensures { value result ≡ div format (value x) (value y) };

    fn negate(x: Self::Float) -> Self::Float
        ensures { value result ≡ neg (value x) };

    ghost digits: { DIGITS ≡ prec format };

    ghost places: { PLACES ≡ low format };

    ghost sign_weight: { SIGN ≡ top format };

    ghost least_normal: { LEAST ≡ hid format };
}

impl Precision for u32 {
    type Float = f32;

    ghost format = { binary32 };

    ghost number = { λ w. w };

    ghost value = { λ x. x };

    ghost DIGITS = { 24 };

    ghost PLACES = { 149 };

    ghost SIGN = { 2147483648 };

    ghost LEAST = { 8388608 };

    const DIGITS: u64 = 24;

    const PLACES: u64 = 149;

    const SIGN: u64 = 0x8000_0000;

    const LEAST: u64 = 0x80_0000;

    ghost digits = { refl };

    ghost places = { refl };

    ghost sign_weight = { refl };

    ghost least_normal = { refl };

    fn wide(self) -> u64 {
        self as u64
    }

    fn of_wide(n: u64) -> u32 {
        n as u32
    }

    fn flipped(self) -> u32 {
        self.wrapping_add(0x8000_0000)
    }

    fn wrapping_add(self, other: u32) -> u32 {
        std::num::wrapping_add_u32(self, other)
    }

    fn from_bits(self) -> f32 {
        f32::from_bits(self)
    }

    fn to_bits(x: f32) -> u32 {
        f32::to_bits(x)
    }

    fn differs(x: f32) -> bool {
        x != x
    }

    fn nan() -> f32 {
        0.0 / 0.0
    }

    fn add(x: f32, y: f32) -> f32 {
        x + y
    }

    fn subtract(x: f32, y: f32) -> f32 {
        x - y
    }

    fn multiply(x: f32, y: f32) -> f32 {
        x * y
    }

    fn divide(x: f32, y: f32) -> f32 {
        x / y
    }

    fn negate(x: f32) -> f32 {
        -x
    }
}

impl Precision for u64 {
    type Float = f64;

    ghost format = { binary64 };

    ghost number = { λ w. w };

    ghost value = { λ x. x };

    ghost DIGITS = { 53 };

    ghost PLACES = { 1074 };

    ghost SIGN = { 9223372036854775808 };

    ghost LEAST = { 4503599627370496 };

    const DIGITS: u64 = 53;

    const PLACES: u64 = 1074;

    const SIGN: u64 = 0x8000_0000_0000_0000;

    const LEAST: u64 = 0x10_0000_0000_0000;

    ghost digits = { refl };

    ghost places = { refl };

    ghost sign_weight = { refl };

    ghost least_normal = { refl };

    fn wide(self) -> u64 {
        self
    }

    fn of_wide(n: u64) -> u64 {
        n
    }

    fn flipped(self) -> u64 {
        self.wrapping_add(0x8000_0000_0000_0000)
    }

    fn wrapping_add(self, other: u64) -> u64 {
        std::num::wrapping_add_u64(self, other)
    }

    fn from_bits(self) -> f64 {
        f64::from_bits(self)
    }

    fn to_bits(x: f64) -> u64 {
        f64::to_bits(x)
    }

    fn differs(x: f64) -> bool {
        x != x
    }

    fn nan() -> f64 {
        0.0 / 0.0
    }

    fn add(x: f64, y: f64) -> f64 {
        x + y
    }

    fn subtract(x: f64, y: f64) -> f64 {
        x - y
    }

    fn multiply(x: f64, y: f64) -> f64 {
        x * y
    }

    fn divide(x: f64, y: f64) -> f64 {
        x / y
    }

    fn negate(x: f64) -> f64 {
        -x
    }
}
