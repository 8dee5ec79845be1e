// The result of a call that answers with the number of a refusal.
ghost use Rattle.std.specs.Prelude.{◌≡◌};
ghost use Rattle.outcomes.specs.Outcome.{result_of};

use super::state::INVALID_ARGUMENT;

// 0 for none, 100 + n for refusal n. Lists of unequal lengths are an invalid argument.
pub fn of_refusal(refusal: u8) -> u32
    ensures { result ≡ result_of refusal }
{
    if refusal == 0 {
        return 0;
    }
    if refusal == grants::UNEQUAL {
        return INVALID_ARGUMENT;
    }
    100 + refusal as u32
}
