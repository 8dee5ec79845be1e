// When routines are turned away.
ghost use Rattle.std.specs.Prelude.{◌≤◌, ◌≡◌, length, replicate};
ghost use Rattle.phases.specs.Round.{sum};
ghost use Rattle.grants.specs.Refusal.{within, refusal_of};

pub(crate) fn wide(x: u32) -> u64
    ensures { result ≡ x }
{
    x as u64
}

// The numbers of a short list added up.
pub(crate) fn total(numbers: &[u32]) -> u64
    requires { length numbers.now ≤ 8 }
    ensures { result ≡ sum numbers.now }
{
    let mut all: u64 = 0;
    let mut i: usize = 0;
    while i < numbers.len() {
        all += wide(numbers[i]);
        i += 1;
    }
    all
}

// Whether no share is above its limit.
fn is_within(shares: &[u32], limits: &[u32]) -> bool
    requires { length shares.now ≡ length limits.now }
    ensures { result ≡ within shares.now limits.now }
{
    let mut i: usize = 0;
    while i < shares.len() {
        if limits[i] < shares[i] {
            return false;
        }
        i += 1;
    }
    true
}

// The first of refusals 14, 15 and 16 that applies, or 0.
pub(crate) fn refusal(period: u32, shares: &[u32], limits: &[u32]) -> u8
    requires { length shares.now ≡ length limits.now }
    ensures { result ≡ refusal_of period shares.now limits.now }
{
    if shares.len() == 0 {
        return 14;
    }
    if 8 < shares.len() {
        return 14;
    }
    if !is_within(shares, limits) {
        return 15;
    }
    if wide(period) < total(shares) {
        return 16;
    }
    0
}

// Every grant becomes 0.
pub(crate) fn clear(grants: &mut [u32])
    ensures { grants.new ≡ replicate (length grants.old) 0 }
{
    let mut i: usize = 0;
    while i < grants.len() {
        grants[i] = 0;
        i += 1;
    }
}
