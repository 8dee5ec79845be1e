// The marks of one step on the registers of a word: a move or a sign change, a root; what is known of its operands.
#![tactic(auto)]

ghost use Rattle.std.specs.Prelude.{◌≡◌, List, ℕ};
ghost use Rattle.sign_steps.specs.declared.sign.SignOperation.{SignOperation};
ghost use Rattle.sign_steps.specs.Sign.{sign_step};
ghost use Rattle.root_steps.specs.Root.{root_step};
ghost use Rattle.register_fields.specs.Fields.{reg_d, reg_m};
ghost use Rattle.place_marks.specs.Word.{map_in};
ghost use Rattle.register_marks.specs.Register.{known_in};
ghost use Rattle.processing_marks.specs.Marked.{MarksStepped};

use register_fields::fields::{Named, d_of, m_of};
use register_marks::register::MarkedRegister;

// A move or a sign change: the marks are copied.
pub fn mark_sign<R: Named + MarkedRegister>(marks: u64, op: u32) -> u64
    ensures { (sign : SignOperation) → MarksStepped (sign_step R.Word.format sign (reg_d R.Word.format op) (reg_m R.Word.format op)) marks result }
{
    R::copy_marks(marks, d_of(op), m_of(op))
}

// A root: the target is known when every word of the operand is.
pub fn mark_root<R: Named + MarkedRegister>(marks: u64, op: u32) -> u64
    ensures { (control : ℕ) → MarksStepped (root_step R.Word.format control (reg_d R.Word.format op) (reg_m R.Word.format op)) marks result }
{
    root_marks::root::mark_root::<R>(marks, d_of(op), m_of(op))
}

pub fn d_known<R: Named + MarkedRegister>(marks: u64, op: u32) -> bool
    ensures { (w : List ℕ) → result ≡ known_in R.Word.format (map_in marks w) (reg_d R.Word.format op) }
{
    d_of::<R>(op).known(marks)
}

pub fn m_known<R: Named + MarkedRegister>(marks: u64, op: u32) -> bool
    ensures { (w : List ℕ) → result ≡ known_in R.Word.format (map_in marks w) (reg_m R.Word.format op) }
{
    m_of::<R>(op).known(marks)
}
