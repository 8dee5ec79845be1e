// A register of either precision: its number is a type of its own, so that neither can stand for the other.
ghost use Rattle.std.specs.Prelude.{◌≡◌, ◌<◌, ℕ, refl};
ghost use Rattle.registers.specs.Registers.{bank_of, value_in, stored_in};
ghost use Rattle.registers.specs.declared.registers.Single.{Single};
ghost use Rattle.registers.specs.declared.registers.Double.{Double};

use crate::registers::{Double, Single, get_double, get_single, set_double, set_single};
use floats::precision::Precision;

pub trait Register: Copy {
    // The word of a register.
    type Word: Precision;

    // Its number.
    ghost number: { Self → ℕ };

    // What `get_within` and `set_within` ask for.
    ghost within: { Self → Type 0 };

    // Registers in a bank.
    ghost BANK: { ℕ };

    const BANK: usize;

    fn numbered(n: usize) -> Self
        ensures { number result ≡ n };

    fn index(self) -> usize
        ensures { result ≡ number self };

    fn get(self, s: &[u32; 32]) -> Self::Word
        ensures { Self.Word.number result ≡ value_in Self.Word.format s.now (number self) };

    fn set(self, s: &mut [u32; 32], w: Self::Word)
        ensures { s.new ≡ stored_in Self.Word.format s.old (number self) (Self.Word.number w) };

    // The same of a register that is known to be one: a single then need not be taken modulo 32.
    fn get_within(self, s: &[u32; 32]) -> Self::Word
        requires { within self }
        ensures { Self.Word.number result ≡ value_in Self.Word.format s.now (number self) };

    fn set_within(self, s: &mut [u32; 32], w: Self::Word)
        requires { within self }
        ensures { s.new ≡ stored_in Self.Word.format s.old (number self) (Self.Word.number w) };

    ghost bank: { BANK ≡ bank_of Self.Word.format };

    // A register below 32 is one, in either precision.
    ghost few: { (x : Self) → number x < 32 → within x };
}

impl Register for Single {
    type Word = u32;

    ghost number = { λ x. x.0 };

    ghost within = { λ x. x.0 < 32 };

    ghost BANK = { 8 };

    ghost bank = { refl };

    ghost few = { λ x h. h };

    const BANK: usize = 8;

    fn numbered(n: usize) -> Single {
        Single(n)
    }

    fn index(self) -> usize {
        let Single(number) = self;
        number
    }

    fn get(self, s: &[u32; 32]) -> u32 {
        get_single(s, self)
    }

    fn set(self, s: &mut [u32; 32], w: u32) {
        set_single(s, self, w);
    }

    fn get_within(self, s: &[u32; 32]) -> u32 {
        let at = self.0;
        s[at]
    }

    fn set_within(self, s: &mut [u32; 32], w: u32) {
        let i = self.0;
        s[i] = w;
    }
}

impl Register for Double {
    type Word = u64;

    ghost number = { λ x. x.0 };

    ghost within = { λ x. Unit };

    ghost BANK = { 4 };

    ghost bank = { refl };

    ghost few = { λ x h. tt };

    const BANK: usize = 4;

    fn numbered(n: usize) -> Double {
        Double(n)
    }

    fn index(self) -> usize {
        let Double(number) = self;
        number
    }

    fn get(self, s: &[u32; 32]) -> u64 {
        get_double(s, self)
    }

    fn set(self, s: &mut [u32; 32], w: u64) {
        set_double(s, self, w);
    }

    fn get_within(self, s: &[u32; 32]) -> u64 {
        self.get(s)
    }

    fn set_within(self, s: &mut [u32; 32], w: u64) {
        self.set(s, w);
    }
}
