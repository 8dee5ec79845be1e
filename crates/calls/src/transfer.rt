// `coprocessor_register` over buffers.
ghost use Rattle.std.specs.Prelude.{◌≡◌, List, ℕ, eqb};
ghost use Rattle.transfers.specs.Transfer.{transfer_tree};
ghost use Rattle.vfp.specs.Call.{reply};
ghost use Rattle.outcomes.specs.Outcome.{outcome, called};

use super::state::{INVALID_ARGUMENT, is_valid_call};
use answer::report_exit;
use layout::state::{decode, encode};

// Transfers between singles, system registers and core registers.
pub fn coprocessor_register_call(
    state: &mut [u32],
    thumb: u32,
    word: u32,
    answer: &mut [u32],
) -> u32
    ensures { (v : List ℕ) → outcome result state.new v answer.new ≡ called (reply (transfer_tree (eqb thumb 1) word)) state.old v thumb answer.old }
{
    if !is_valid_call(state, thumb, answer.len()) {
        return INVALID_ARGUMENT;
    }
    let machine = decode(state, thumb == 1);
    let done = vfp::coprocessor_register(machine, word);
    let exit = done.exit;
    encode(done.machine, state);
    report_exit(exit, answer)
}
