// The marks of stepping words: those of all iterations.
ghost use Rattle.short_vectors.specs.Vector.{iterations_of, monadic_step};
ghost use Rattle.sign_steps.specs.declared.sign.SignOperation.{SignOperation};
ghost use Rattle.sign_steps.specs.Sign.{sign_step};
ghost use Rattle.root_steps.specs.Root.{root_step};
ghost use Rattle.arithmetic_steps.specs.Arithmetic.{dyadic_step};
ghost use Rattle.register_fields.specs.Fields.{reg_d, reg_n, reg_m};
ghost use Rattle.processing_marks.specs.Marked.{MarksIterated};

use arithmetic_marks::arithmetic::arithmetic_vector;
use numbers::arithmetic::Arithmetic;
use processing_marks::vector::copy_vector;
use register_fields::fields::{Named, d_of, m_of, n_of};
use register_marks::register::MarkedRegister;
use root_marks::root::root_vector;

pub(crate) fn mark_arithmetic<R: Named + MarkedRegister>(
    marks: u64,
    control: u32,
    kind: Arithmetic,
    op: u32,
) -> u64
    ensures { MarksIterated (iterations_of R.Word.format control (reg_d R.Word.format op)) (dyadic_step R.Word.format control kind (reg_d R.Word.format op) (reg_n R.Word.format op) (reg_m R.Word.format op)) marks result }
{
    arithmetic_vector::<R>(marks, control, kind, d_of(op), n_of(op), m_of(op))
}

// Moves and sign changes: the marks are copied.
pub(crate) fn mark_signs<R: Named + MarkedRegister>(marks: u64, control: u32, op: u32) -> u64
    ensures { (sign : SignOperation) → MarksIterated (iterations_of R.Word.format control (reg_d R.Word.format op)) (monadic_step R.Word.format control (sign_step R.Word.format sign) (reg_d R.Word.format op) (reg_m R.Word.format op)) marks result }
{
    copy_vector::<R>(marks, control, d_of(op), m_of(op))
}

// Roots: the target is known when every word of the operand is.
pub(crate) fn mark_roots<R: Named + MarkedRegister>(marks: u64, control: u32, op: u32) -> u64
    ensures { MarksIterated (iterations_of R.Word.format control (reg_d R.Word.format op)) (monadic_step R.Word.format control (root_step R.Word.format control) (reg_d R.Word.format op) (reg_m R.Word.format op)) marks result }
{
    root_vector::<R>(marks, control, d_of(op), m_of(op))
}
