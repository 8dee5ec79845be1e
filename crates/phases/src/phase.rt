// The shares, and then whole rounds at once: a phase gives as many rounds as the least room or the rest of the period allows, and the last round is
// given one by one. A phase ends with a routine that has no more room, or is the last, so that there are at most eight.
ghost use Rattle.std.specs.Prelude.{◌+◌, min, ◌≡◌, length};
ghost use Rattle.phases.specs.Round.{sum, most, turns, rounds};
ghost use Rattle.phases.specs.Share.{shared};
ghost use Rattle.phases.specs.Phase.{extra, raised, roomy, narrowed, least_room, Fitting, Sized};

fn smaller(a: u32, b: u32) -> u32
    ensures { result ≡ min a b }
{
    if a < b {
        return a;
    }
    b
}

// Words for a routine that has some: so many, or none where it has its most.
fn portion(words: u32, has: u32, most: u32) -> u32
    ensures { result ≡ extra words has most }
{
    if has < most {
        return words;
    }
    0
}

// Each gets the smaller of its share and its words left.
pub fn share_out(shares: &[u32], left: &[u32], grants: &mut [u32])
    requires { (length shares.now ≡ length grants.old) × (length left.now ≡ length grants.old) }
    ensures { grants.new ≡ shared shares.now left.now }
{
    let mut i: usize = 0;
    while i < grants.len() {
        grants[i] = smaller(shares[i], left[i]);
        i += 1;
    }
}

// How many have room.
fn count(limits: &[u32], left: &[u32], grants: &[u32]) -> u32
    requires { Sized limits.now left.now grants.now }
    ensures { result ≡ roomy (most limits.now left.now) (length grants.now) grants.now }
{
    let mut n: u32 = 0;
    let mut i: usize = 0;
    while i < grants.len() {
        n += portion(1, grants[i], smaller(limits[i], left[i]));
        i += 1;
    }
    n
}

// The smaller of so many words and a routine's room, if it has room.
fn narrow(words: u32, has: u32, cap: u32) -> u32
    ensures { result ≡ narrowed words has cap }
{
    if has < cap {
        return smaller(words, cap - has);
    }
    words
}

// The least room of those that have room.
fn least(limits: &[u32], left: &[u32], grants: &[u32]) -> u32
    requires { Sized limits.now left.now grants.now }
    ensures { result ≡ least_room (most limits.now left.now) (length grants.now) grants.now }
{
    let mut words: u32 = 0xFFFF_FFFF;
    let mut i: usize = 0;
    while i < grants.len() {
        words = narrow(words, grants[i], smaller(limits[i], left[i]));
        i += 1;
    }
    words
}

// So many words more for each that has room.
fn raise(words: u32, limits: &[u32], left: &[u32], grants: &mut [u32])
    requires { Sized limits.now left.now grants.old × Fitting words (most limits.now left.now) grants.old }
    ensures { grants.new ≡ raised words (most limits.now left.now) (length grants.old) grants.old }
{
    let mut i: usize = 0;
    while i < grants.len() {
        grants[i] += portion(words, grants[i], smaller(limits[i], left[i]));
        i += 1;
    }
}

// One round, of so many words at most.
fn round(words: u32, limits: &[u32], left: &[u32], grants: &mut [u32])
    requires { Sized limits.now left.now grants.old }
    ensures { grants.new ≡ turns (sum grants.old + words) (most limits.now left.now) (length grants.old) grants.old }
{
    let mut rest = words;
    let mut turn: usize = 0;
    while turn < grants.len() {
        let one = portion(
            smaller(1, rest),
            grants[turn],
            smaller(limits[turn], left[turn]),
        );
        grants[turn] += one;
        rest -= one;
        turn += 1;
    }
}

// What is left of the period, round by round.
pub fn deal(words: u32, limits: &[u32], left: &[u32], grants: &mut [u32])
    requires { Sized limits.now left.now grants.old }
    ensures { grants.new ≡ rounds (sum grants.old + words) (most limits.now left.now) (sum grants.old + words) grants.old }
{
    let mut rest = words;
    let mut n = count(limits, left, grants);
    while n <= rest {
        if n == 0 {
            return;
        }
        let each = smaller(least(limits, left, grants), rest / n);
        raise(each, limits, left, grants);
        rest -= each * n;
        n = count(limits, left, grants);
    }
    round(rest, limits, left, grants);
}
