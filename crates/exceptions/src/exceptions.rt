// The exceptions of a rounded result, of NaNs, and of a result that is flushed.
ghost use Rattle.std.specs.Prelude.{◌≡◌};
ghost use Rattle.exceptions.specs.Exceptions.{invalid, settled_exceptions, nan_exceptions, flushed_exceptions};
ghost use Rattle.nans.specs.Nan.{default_nan};

use floats::parts::{default_nan, size_of};
use floats::precision::Precision;
use nans::nan::is_signalling;

pub const INVALID: u32 = 1;

pub const DIVISION_BY_ZERO: u32 = 2;

pub const UNDERFLOW: u32 = 8;

// A word and what making it raised.
#[derive(Clone, Copy)]
pub struct Raised<W> {
    pub bits: W,
    pub exceptions: u32,
}

// A word that raises nothing.
pub fn silent<W: Precision>(word: W) -> Raised<W>
    ensures { (result.bits ≡ word) × (result.exceptions ≡ 0) }
{
    Raised {
        bits: word,
        exceptions: 0,
    }
}

// The NaN of an operation that numbers have no result for.
pub fn no_result<W: Precision>() -> Raised<W>
    ensures { (W.number result.bits ≡ default_nan W.format) × (result.exceptions ≡ invalid) }
{
    Raised {
        bits: default_nan(),
        exceptions: INVALID,
    }
}

// A rounded result, by what rounding tells.
pub fn settled(exact: bool, over: bool, tiny: bool) -> u32
    ensures { result ≡ settled_exceptions exact over tiny }
{
    if over {
        return 20;
    }
    if exact {
        return 0;
    }
    if tiny { 24 } else { 16 }
}

// Of operands of which one is a NaN.
pub fn nan_exceptions<W: Precision>(a: W, b: W) -> u32
    ensures { result ≡ nan_exceptions W.format (W.number a) (W.number b) }
{
    if is_signalling(a) | is_signalling(b) {
        return INVALID;
    }
    0
}

// Of a result w before flushing, which raised what it did when it was rounded.
pub fn flushed_exceptions<W: Precision>(control: u32, w: W, raised: u32) -> u32
    ensures { result ≡ flushed_exceptions W.format control (W.number w) raised }
{
    let size = size_of(w);
    if (control / 0x100_0000 % 2 == 1) & ((0 < size) & (size < W::LEAST)) {
        return UNDERFLOW;
    }
    raised
}
