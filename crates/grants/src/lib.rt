// What each routine is granted of a period's words.
#![tactic(auto)]

mod refusal;

ghost use Rattle.grants.specs.Grant.{reply};
ghost use Rattle.grants.specs.Promise.{Promise};

use phases::phase::{deal, share_out};
use refusal::{clear, refusal, total, wide};

// The answer where the four lists are not of one length.
pub const UNEQUAL: u8 = 255;

// Writes what each routine is granted. Gives 0, the first of refusals 14, 15 and 16 that applies, with every grant 0, or 255 with the grants as they came.
pub fn grant(period: u32, shares: &[u32], limits: &[u32], left: &[u32], grants: &mut [u32]) -> u8
    ensures { Promise period shares.now limits.now left.now grants.old (reply result grants.new) }
{
    if shares.len() != grants.len() {
        return UNEQUAL;
    }
    if limits.len() != grants.len() {
        return UNEQUAL;
    }
    if left.len() != grants.len() {
        return UNEQUAL;
    }
    let refused = refusal(period, shares, limits);
    if refused != 0 {
        clear(grants);
        return refused;
    }
    share_out(shares, left, grants);
    let rest = wide(period) - total(grants);
    deal(rest as u32, limits, left, grants);
    0
}
