// The log of a watched run: of each word what walking back through it needs.
#![tactic(auto)]

ghost use Rattle.std.specs.Prelude.{◌≡◌, not, length, set};
ghost use Rattle.bits.specs.Field.{field};
ghost use Rattle.bits.specs.Psr.{holds};
ghost use Rattle.word_sources.specs.Value.{value_in};

use bits::field::bits;
use bits::psr::check_condition;
use machine::Controls;
use word_sources::value_of;

// Logs word i, before it is run: the marks before it, the value that it asks for, and whether its condition fails. Past the end of the log nothing is kept, so that a
// run that needs none lends an empty one.
pub fn log_word(
    r: &[u32; 16],
    x: Controls,
    marks: u64,
    op: u32,
    i: usize,
    log_marks: &mut [u64],
    log_values: &mut [u32],
    log_skips: &mut [bool],
)
    requires { (length log_values.old ≡ length log_marks.old) × (length log_skips.old ≡ length log_marks.old) }
    ensures { (log_marks.new ≡ set log_marks.old i marks) × (log_values.new ≡ set log_values.old i (value_in r.now x.fpscr op)) × (log_skips.new ≡ set log_skips.old i (not (holds (field op 28 31) x.cpsr))) }
{
    if i < log_marks.len() {
        let flags = x.cpsr;
        let skip = !check_condition(bits(op, 28, 31), flags);
        let value = value_of(r, x.fpscr, op);
        log_marks[i] = marks;
        log_values[i] = value;
        log_skips[i] = skip;
    }
}
