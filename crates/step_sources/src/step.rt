// One step back from place q through a step of a word that may have several.
ghost use Rattle.std.specs.Prelude.{ℕ};
ghost use Rattle.std.specs.Float.{binary32, binary64};
ghost use Rattle.arithmetic_steps.specs.Arithmetic.{arithmetic_step};
ghost use Rattle.numbers.specs.declared.arithmetic.Arithmetic.{Arithmetic};
ghost use Rattle.sources.specs.Source.{Tracing};
ghost use Rattle.root_steps.specs.Root.{root_step};
ghost use Rattle.sign_steps.specs.Sign.{sign_step};
ghost use Rattle.sign_steps.specs.declared.sign.SignOperation.{SignOperation};

use super::unknown::{of_double, of_double_operands, of_single_operands};
use registers::registers::{Double, Single};
use sources::Source;
use sources::rule::{copy_of, source_of};

// Arithmetic of singles and of doubles, of whichever kind.
pub fn arithmetic_single(marks: u64, d: Single, n: Single, m: Single, q: u32) -> Source
    ensures { (control : ℕ) (kind : Arithmetic) → Tracing (arithmetic_step binary32 control kind d.0 n.0 m.0) marks q result }
{
    let p = of_single_operands(marks, d, n, m);
    source_of(marks, q, (d.0 % 32) as u32, 1, p, p)
}

pub fn arithmetic_double(marks: u64, d: Double, n: Double, m: Double, q: u32) -> Source
    ensures { (control : ℕ) (kind : Arithmetic) → Tracing (arithmetic_step binary64 control kind d.0 n.0 m.0) marks q result }
{
    let p = of_double_operands(marks, d, n, m);
    source_of(marks, q, (d.0 % 16 * 2) as u32, 2, p, p)
}

// Roots.
pub fn root_single(marks: u64, d: Single, m: Single, q: u32) -> Source
    ensures { (control : ℕ) → Tracing (root_step binary32 control d.0 m.0) marks q result }
{
    let p = (m.0 % 32) as u32;
    source_of(marks, q, (d.0 % 32) as u32, 1, p, p)
}

pub fn root_double(marks: u64, d: Double, m: Double, q: u32) -> Source
    ensures { (control : ℕ) → Tracing (root_step binary64 control d.0 m.0) marks q result }
{
    let p = of_double(marks, m);
    source_of(marks, q, (d.0 % 16 * 2) as u32, 2, p, p)
}

// Moves and sign changes.
pub fn sign_single(d: Single, m: Single, q: u32) -> Source
    ensures { (sign : SignOperation) (marks : ℕ) → Tracing (sign_step binary32 sign d.0 m.0) marks q result }
{
    copy_of(q, (d.0 % 32) as u32, 1, (m.0 % 32) as u32)
}

pub fn sign_double(d: Double, m: Double, q: u32) -> Source
    ensures { (sign : SignOperation) (marks : ℕ) → Tracing (sign_step binary64 sign d.0 m.0) marks q result }
{
    copy_of(q, (d.0 % 16 * 2) as u32, 2, (m.0 % 16 * 2) as u32)
}
