// `data_processing` over buffers.
ghost use Rattle.std.specs.Prelude.{◌≡◌, List, ℕ, eqb};
ghost use Rattle.processing.specs.Data.{data_tree};
ghost use Rattle.vfp.specs.Call.{reply};
ghost use Rattle.outcomes.specs.Outcome.{outcome, called};

use super::state::{INVALID_ARGUMENT, is_valid_call};
use answer::report_exit;
use layout::state::{decode, encode};

// Arithmetic, moves, compares and conversions.
pub fn data_processing_call(state: &mut [u32], thumb: u32, word: u32, answer: &mut [u32]) -> u32
    ensures { (v : List ℕ) → outcome result state.new v answer.new ≡ called (reply (data_tree (eqb thumb 1) word)) state.old v thumb answer.old }
{
    if !is_valid_call(state, thumb, answer.len()) {
        return INVALID_ARGUMENT;
    }
    let machine = decode(state, thumb == 1);
    let done = vfp::data_processing(machine, word);
    let exit = done.exit;
    encode(done.machine, state);
    report_exit(exit, answer)
}
