// The marks of a conversion on the registers of a word.
ghost use Rattle.std.specs.Prelude.{Bool};
ghost use Rattle.integer_steps.specs.Integer.{from_step, truncate_step, round_step};
ghost use Rattle.register_fields.specs.Fields.{reg_d, reg_m};
ghost use Rattle.processing.specs.Data.{convert_step};
ghost use Rattle.std.specs.Float.{binary32};
ghost use Rattle.processing_marks.specs.Marked.{MarksStepped};

use machine::place::CONTROL;
use place_marks::place::is_known;
use processing_marks::raised::mark_raised;
use register_fields::fields::{Named, d_of, m_of};
use register_marks::register::MarkedRegister;
use registers::registers::{Double, Single};
use step_marks::m_known;

// A register of a precision, with the marks of the conversions that a single and a double do not have alike.
pub trait MarkedConversion: Named + MarkedRegister {
    // From an integer, signed or not. A single is rounded by the mode, so that FPSCR 27:5 is needed too, but not for what is raised; a double is exact.
    fn mark_from_integer(marks: u64, op: u32) -> u64
        ensures { (signed : Bool) → MarksStepped (from_step Self.Word.format signed (reg_d Self.Word.format op) (reg_m binary32 op)) marks result };

    // To the other precision. Both need FPSCR 27:5: narrowing rounds and flushes, and a NaN goes by bit 25. What widening raises does not.
    fn mark_convert(marks: u64, op: u32) -> u64
        ensures { MarksStepped (convert_step Self.Word.format op) marks result };
}

impl MarkedConversion for Single {
    fn mark_from_integer(marks: u64, op: u32) -> u64 {
        let all = m_of::<Single>(op).known(marks);
        let rounded = all & is_known(marks, CONTROL);
        mark_raised(d_of::<Single>(op).mark(marks, rounded), all)
    }

    fn mark_convert(marks: u64, op: u32) -> u64 {
        let known = m_of::<Single>(op).known(marks);
        let widened = known & is_known(marks, CONTROL);
        mark_raised(d_of::<Double>(op).mark(marks, widened), known)
    }
}

impl MarkedConversion for Double {
    fn mark_from_integer(marks: u64, op: u32) -> u64 {
        let all = m_of::<Single>(op).known(marks);
        mark_raised(d_of::<Double>(op).mark(marks, all), all)
    }

    fn mark_convert(marks: u64, op: u32) -> u64 {
        let known = m_of::<Double>(op).known(marks);
        let all = known & is_known(marks, CONTROL);
        mark_raised(d_of::<Single>(op).mark(marks, all), all)
    }
}

// To an integer by the mode: FPSCR 27:5 is needed too.
pub fn mark_rounded<R: Named + MarkedRegister>(marks: u64, op: u32) -> u64
    ensures { (signed : Bool) → MarksStepped (round_step R.Word.format signed (reg_d binary32 op) (reg_m R.Word.format op)) marks result }
{
    let both = m_known::<R>(marks, op) & is_known(marks, CONTROL);
    mark_raised(d_of::<Single>(op).mark(marks, both), both)
}

// Towards zero it is not.
pub fn mark_truncated<R: Named + MarkedRegister>(marks: u64, op: u32) -> u64
    ensures { (signed : Bool) → MarksStepped (truncate_step R.Word.format signed (reg_d binary32 op) (reg_m R.Word.format op)) marks result }
{
    let known = m_known::<R>(marks, op);
    mark_raised(d_of::<Single>(op).mark(marks, known), known)
}
