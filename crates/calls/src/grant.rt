// The words of a period, granted to routines.
ghost use Rattle.outcomes.specs.Grant.{grant_outcome};
ghost use Rattle.outcomes.specs.GrantPromise.{GrantPromise};

use super::result::of_refusal;

// What each routine is granted of a period.
pub fn grant_call(
    period: u32,
    shares: &[u32],
    limits: &[u32],
    left: &[u32],
    grants: &mut [u32],
) -> u32
    ensures { GrantPromise period shares.now limits.now left.now grants.old (grant_outcome result grants.new) }
{
    let refusal = grants::grant(period, shares, limits, left, grants);
    of_refusal(refusal)
}
