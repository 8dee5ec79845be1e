// The marks of a compare on the registers of a word.
ghost use Rattle.std.specs.Prelude.{Bool};
ghost use Rattle.compare_steps.specs.Compare.{compare_step, compare_zero_step};
ghost use Rattle.register_fields.specs.Fields.{reg_d, reg_m};
ghost use Rattle.processing_marks.specs.Marked.{MarksStepped};

use machine::place::FLAGS;
use place_marks::place::set_known;
use processing_marks::raised::mark_raised;
use register_fields::fields::Named;
use register_marks::register::MarkedRegister;
use step_marks::{d_known, m_known};

// A compare marks FPSCR 31:28 from both operands, with zero from one, whether any NaN is invalid or not.
pub fn mark_compare<R: Named + MarkedRegister>(marks: u64, op: u32) -> u64
    ensures { (any : Bool) → MarksStepped (compare_step R.Word.format any (reg_d R.Word.format op) (reg_m R.Word.format op)) marks result }
{
    let both = m_known::<R>(marks, op) & d_known::<R>(marks, op);
    mark_raised(set_known(marks, FLAGS, both), both)
}

pub fn mark_compare_zero<R: Named + MarkedRegister>(marks: u64, op: u32) -> u64
    ensures { (any : Bool) → MarksStepped (compare_zero_step R.Word.format any (reg_d R.Word.format op)) marks result }
{
    let all = d_known::<R>(marks, op);
    mark_raised(set_known(marks, FLAGS, all), all)
}
