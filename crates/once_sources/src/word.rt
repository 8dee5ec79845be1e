// One step back through a word of one step: compares and conversions, by the precision.
ghost use Rattle.std.specs.Float.{binary32, binary64};
ghost use Rattle.std.specs.Prelude.{Bool};
ghost use Rattle.integer_steps.specs.Integer.{from_step, truncate_step, round_step};
ghost use Rattle.width_steps.specs.Width.{widen_step, narrow_step};
ghost use Rattle.register_fields.specs.Fields.{reg_d, reg_m};
ghost use Rattle.short_vectors.specs.Vector.{precision};
ghost use Rattle.sources.specs.Source.{Tracing};
ghost use Rattle.compare_steps.specs.Compare.{compare_step, compare_zero_step};

use machine::place::FLAGS;
use register_fields::fields::{d_of, m_of};
use registers::registers::{Double, Single};
use sources::Source;
use sources::rule::source_of;
use step_sources::unknown::{of_control, of_double, of_doubles, of_singles};

// Compares, whether any NaN is invalid or not.
pub fn compare(marks: u64, double: bool, op: u32, q: u32) -> Source
    ensures { (any : Bool) → Tracing (compare_step (precision double) any (reg_d (precision double) op) (reg_m (precision double) op)) marks q result }
{
    if double {
        let p = of_doubles(marks, d_of(op), m_of(op));
        return source_of(marks, q, FLAGS as u32, 1, p, p);
    }
    let p = of_singles(marks, d_of(op), m_of(op));
    source_of(marks, q, FLAGS as u32, 1, p, p)
}

pub fn compare_zero(marks: u64, double: bool, op: u32, q: u32) -> Source
    ensures { (any : Bool) → Tracing (compare_zero_step (precision double) any (reg_d (precision double) op)) marks q result }
{
    if double {
        let p = of_double(marks, d_of(op));
        return source_of(marks, q, FLAGS as u32, 1, p, p);
    }
    let d = d_of::<Single>(op);
    let p = (d.0 % 32) as u32;
    source_of(marks, q, FLAGS as u32, 1, p, p)
}

// To a double, and to a single. FPSCR 27:5 is read for both, but not for what widening raises.
pub fn widened(marks: u64, op: u32, q: u32) -> Source
    ensures { Tracing (widen_step (reg_d binary64 op) (reg_m binary32 op)) marks q result }
{
    let d = d_of::<Double>(op);
    let m = m_of::<Single>(op);
    let p = (m.0 % 32) as u32;
    source_of(marks, q, (d.0 % 16 * 2) as u32, 2, of_control(marks, p), p)
}

pub fn narrowed(marks: u64, op: u32, q: u32) -> Source
    ensures { Tracing (narrow_step (reg_d binary32 op) (reg_m binary64 op)) marks q result }
{
    let d = d_of::<Single>(op);
    let p = of_control(marks, of_double(marks, m_of(op)));
    source_of(marks, q, (d.0 % 32) as u32, 1, p, p)
}

// From an integer, signed or not.
pub fn from_integer(marks: u64, double: bool, op: u32, q: u32) -> Source
    ensures { (signed : Bool) → Tracing (from_step (precision double) signed (reg_d (precision double) op) (reg_m binary32 op)) marks q result }
{
    let m = m_of::<Single>(op);
    let p = (m.0 % 32) as u32;
    if double {
        let d = d_of::<Double>(op);
        return source_of(marks, q, (d.0 % 16 * 2) as u32, 2, p, p);
    }
    let d = d_of::<Single>(op);
    source_of(marks, q, (d.0 % 32) as u32, 1, of_control(marks, p), p)
}

// To an integer by the mode, and towards zero.
pub fn rounded(marks: u64, double: bool, op: u32, q: u32) -> Source
    ensures { (signed : Bool) → Tracing (round_step (precision double) signed (reg_d binary32 op) (reg_m (precision double) op)) marks q result }
{
    let d = d_of::<Single>(op);
    if double {
        let p = of_control(marks, of_double(marks, m_of(op)));
        return source_of(marks, q, (d.0 % 32) as u32, 1, p, p);
    }
    let m = m_of::<Single>(op);
    let p = of_control(marks, (m.0 % 32) as u32);
    source_of(marks, q, (d.0 % 32) as u32, 1, p, p)
}

pub fn truncated(marks: u64, double: bool, op: u32, q: u32) -> Source
    ensures { (signed : Bool) → Tracing (truncate_step (precision double) signed (reg_d binary32 op) (reg_m (precision double) op)) marks q result }
{
    let d = d_of::<Single>(op);
    if double {
        let p = of_double(marks, m_of(op));
        return source_of(marks, q, (d.0 % 32) as u32, 1, p, p);
    }
    let m = m_of::<Single>(op);
    let p = (m.0 % 32) as u32;
    source_of(marks, q, (d.0 % 32) as u32, 1, p, p)
}
