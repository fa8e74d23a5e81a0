//! Walks along paths of numbers: each number leads to the next by its link, and as many as there are links stands for none.

ghost use Rattle.std.specs.Prelude.{◌≡◌, ◌≢◌, ◌<◌, ◌≤◌, ℕ, length, MatchBool};
ghost use Rattle.wbt_expiry.specs.Lists.{IsUpTo};
ghost use Rattle.wbt_expiry.specs.Paths.{next_of, path_of, times_in, Ends};

// The number that is due first of those on the path that begins with a number, and of those that are due at once the least.
pub fn least_on(nexts: &[u32], dues: &[u64], first: u32) -> u32
    requires ends { Ends nexts.now first }
    requires first { first < length nexts.now }
    requires dues { length dues.now ≡ length nexts.now }
    ensures on { 1 ≤ times_in result (path_of nexts.now first) }
    ensures least { (other : ℕ) → 1 ≤ times_in other (path_of nexts.now first) → IsUpTo dues.now result other }
{
    let mut least = first;
    let mut at = nexts[first as usize];
    'walk: while (at as usize) < nexts.len() {
        if comes_before(dues, at, least) {
            least = at;
        }
        at = nexts[at as usize];
    }
    least
}

// The number that leads to another one that stands after the first on its path.
pub fn number_before(nexts: &[u32], first: u32, number: u32) -> u32
    requires ends { Ends nexts.now first }
    requires on { 1 ≤ times_in number (path_of nexts.now first) }
    requires after { first ≢ number }
    ensures on { 1 ≤ times_in result (path_of nexts.now first) }
    ensures before { next_of nexts.now result ≡ number }
{
    let mut before = first;
    'walk: while nexts[before as usize] != number {
        before = nexts[before as usize];
    }
    before
}

// Whether a number is due before another, or at once and is less.
fn comes_before(dues: &[u64], number: u32, other: u32) -> bool
    requires number { number < length dues.now }
    requires other { other < length dues.now }
    ensures { MatchBool result (IsUpTo dues.now number other) (IsUpTo dues.now other number) }
{
    let due = dues[number as usize];
    let other_due = dues[other as usize];
    if due == other_due {
        return number < other;
    }
    due < other_due
}
