// The register sheet of a state.
ghost use Rattle.outcomes.specs.Sheet.{sheet_outcome, SheetPromise};

use super::result::of_refusal;
use super::state::INVALID_ARGUMENT;
use layout::state::{decode, is_valid};

// Lays the doubles of a state out on a page, with their marks: bit p of the word is that of place p. No line shows the Thumb bit.
pub fn sheet_call(state: &[u32], marks: u64, page: &mut [u8]) -> u32
    ensures { SheetPromise state.now marks page.old (sheet_outcome result page.new) }
{
    if !is_valid(state) {
        return INVALID_ARGUMENT;
    }
    let machine = decode(state, false);
    let refusal = sheet::lay_out(machine, marks, page);
    of_refusal(refusal)
}
