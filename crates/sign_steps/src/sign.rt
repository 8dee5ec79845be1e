// Moves and sign changes: they work on the bits, flush nothing and keep NaNs.
ghost use Rattle.std.specs.Prelude.{◌≡◌, ◌<◌};
ghost use Rattle.short_vectors.specs.Vector.{iterations_of, monadic_step};
ghost use Rattle.short_vectors.specs.Register.{Stepped, Iterated};
ghost use Rattle.sign_steps.specs.Sign.{changed, sign_step};

use registers::register::Register;
use registers::registers::{Double, Single, Words, get_single, get_words, set_single, set_words};
use short_vectors::vector::Vector;

// What becomes of the sign: VMOV, VABS, VNEG.
#[derive(Clone, Copy)]
pub enum SignOperation {
    Copy,
    Absolute,
    Negate,
}

// The word with the sign.
fn change(sign: SignOperation, word: u32) -> u32
    ensures { result ≡ changed sign word }
{
    match sign {
        SignOperation::Copy => word,
        SignOperation::Absolute => word % 0x8000_0000,
        SignOperation::Negate => word.wrapping_add(0x8000_0000),
    }
}

// A register's bits with the sign.
pub trait Signed: Register {
    fn sign(s: &mut [u32; 32], sign: SignOperation, d: Self, m: Self)
        ensures { Stepped (sign_step Self.Word.format sign (Self.number d) (Self.number m)) s.old s.new };
}

impl Signed for Single {
    fn sign(s: &mut [u32; 32], sign: SignOperation, d: Single, m: Single) {
        let word = get_single(s, m);
        set_single(s, d, change(sign, word));
    }
}

impl Signed for Double {
    // The sign is in the high word.
    fn sign(s: &mut [u32; 32], sign: SignOperation, d: Double, m: Double) {
        let words = get_words(s, m);
        let high = change(sign, words.high);
        set_words(
            s,
            d,
            Words {
                low: words.low,
                high,
            },
        );
    }
}

// The loop has its test at the end, for a word makes at least one iteration: a `for` would test before the first.
pub fn sign_vector<R: Signed>(s: &mut [u32; 32], control: u32, sign: SignOperation, d: R, m: R)
    requires { (R.number d < 32) × (R.number m < 32) }
    ensures { Iterated (iterations_of R.Word.format control (R.number d)) (monadic_step R.Word.format control (sign_step R.Word.format sign) (R.number d) (R.number m)) s.old s.new }
{
    let vector = Vector::new(control, d);
    let count = vector.iterations;
    let mut dn = d.index();
    let mut mn = m.index();
    let mut i: usize = 0;
    loop {
        R::sign(s, sign, R::numbered(dn), R::numbered(mn));
        i += 1;
        if i >= count {
            return;
        }
        dn = vector.step(dn, 1);
        mn = vector.second(mn, 1);
    }
}
