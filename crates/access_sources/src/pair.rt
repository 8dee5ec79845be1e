// VMOV between two core registers and either a double or two singles.
ghost use Rattle.std.specs.Prelude.{ℕ, [], ◌∷◌};
ghost use Rattle.addresses.specs.Address.{format_of};
ghost use Rattle.bits.specs.Field.{bit_of};
ghost use Rattle.machine.specs.Place.{place, s_word};
ghost use Rattle.meaning.specs.Step.{copy};
ghost use Rattle.pairs.specs.Pair.{pair_of, pair_step};
ghost use Rattle.sources.specs.Source.{Tracing};

use addresses::halves::{high_word, low_word};
use bits::field::{bit, bits};
use machine::place::CORE;
use registers::registers::{Single, dreg, sreg};
use sources::Source;

pub(crate) fn pair_source(op: u32, double: bool, q: u32) -> Source
    ensures { (m : ℕ) → Tracing (pair_step (format_of double) op) m q result }
{
    let m_bit = bits(op, 5, 5);
    let vm = op % 16;
    if double {
        let dm = dreg(vm, m_bit);
        return both_source(op, low_word(dm), high_word(dm), q);
    }
    let sm = sreg(vm, m_bit);
    both_source(op, sm, Single(sm.0 + 1), q)
}

// The words from or to the core registers of bits 15:12 and 19:16; of equal core registers the second counts.
fn both_source(op: u32, first: Single, second: Single, q: u32) -> Source
    ensures { (m : ℕ) → Tracing (pair_of (bit_of op 20) op (s_word first.0) (s_word second.0)) m q result }
{
    let a = (first.0 % 32) as u32;
    let b = (second.0 % 32) as u32;
    let t = CORE as u32 + bits(op, 12, 15);
    let u = CORE as u32 + bits(op, 16, 19);
    if bit(op, 20) {
        return copied(t, a, u, b, q);
    }
    copied(a, t, b, u, q)
}

// Two words copied, the second to x after the first to t.
fn copied(t: u32, a: u32, x: u32, b: u32, q: u32) -> Source
    ensures { (m : ℕ) → Tracing (copy (place t) (place a) ∷ copy (place x) (place b) ∷ []) m q result }
{
    if q == x {
        return Source::From(b);
    }
    if q == t {
        return Source::From(a);
    }
    Source::Kept
}
