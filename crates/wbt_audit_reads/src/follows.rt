//! How an estimate follows another.

ghost use Rattle.std.specs.Prelude.{◌≡◌, ◌+◌, ◌-◌, ◌==◌, nat_le};
ghost use Rattle.wbt_estimate.specs.Bandwidth.{average_after, bandwidth_after, fallen as fallen_to, risen as risen_to};
ghost use Rattle.wbt_journal.specs.Estimates as law;

use wbt_estimate::Estimate;
use wbt_rules::ESTIMATE_AGE;

// Bandwidth is averaged over so many ticks.
const PERIOD: u64 = 4096;

/// Whether an estimate follows another: its version is the next, `ESTIMATE_AGE` ticks or more lie between, and bandwidth and average are
/// those of what was written. The numbers may be any.
pub fn follows(old: &Estimate, new: &Estimate) -> bool
    ensures { result ≡ law.follows old.now new.now }
{
    is_next(old.version, new.version)
        && is_late(old.at, new.at)
        && has_bandwidth(old, new)
        && has_average(old, new)
}

fn is_next(old: u64, new: u64) -> bool
    ensures { result ≡ (new == old + 1) }
{
    match old.checked_add(1) {
        None => false,
        Some(next) => new == next,
    }
}

fn is_late(old: u64, new: u64) -> bool
    ensures { result ≡ nat_le (old + ESTIMATE_AGE) new }
{
    new.saturating_sub(old) >= ESTIMATE_AGE
}

fn has_bandwidth(old: &Estimate, new: &Estimate) -> bool
    ensures { result ≡ (new.now.bw == bandwidth_after old.now.bw new.now.written_stamp old.now.written_stamp (new.now.at - old.now.at)) }
{
    let elapsed = new.at.saturating_sub(old.at);
    let bandwidth = bandwidth(old.bw, new.written_stamp, old.written_stamp, elapsed);
    u128::from(new.bw) == bandwidth
}

fn has_average(old: &Estimate, new: &Estimate) -> bool
    ensures { result ≡ (new.now.avg == average_after old.now.avg old.now.bw new.now.bw (new.now.at - old.now.at)) }
{
    let elapsed = new.at.saturating_sub(old.at);
    new.avg == average(old.avg, old.bw, new.bw, elapsed)
}

// The bandwidth after so many ticks, from the one before and the pages written since the stamp.
fn bandwidth(bw: u64, written: u64, stamp: u64, elapsed: u64) -> u128
    ensures { result ≡ bandwidth_after bw written stamp elapsed }
{
    let grown = u128::from(written.saturating_sub(stamp)) * 1000;
    if elapsed > PERIOD {
        grown / u128::from(elapsed)
    } else {
        (grown + u128::from(bw) * u128::from(PERIOD - elapsed)) / u128::from(PERIOD)
    }
}

// The average after so many ticks.
fn average(avg: u64, old: u64, bw: u64, elapsed: u64) -> u64
    ensures { result ≡ average_after avg old bw elapsed }
{
    if elapsed > PERIOD {
        return bw.max(1);
    }
    risen(fallen(avg, old, bw), old, bw).max(1)
}

// An eighth down toward the old bandwidth.
fn fallen(avg: u64, old: u64, bw: u64) -> u64
    ensures { result ≡ fallen_to avg old bw }
{
    if avg > old && old >= bw {
        avg - ((avg - old) >> 3)
    } else {
        avg
    }
}

// An eighth up toward it.
fn risen(avg: u64, old: u64, bw: u64) -> u64
    ensures { result ≡ risen_to avg old bw }
{
    if avg < old && old <= bw {
        avg + ((old - avg) >> 3)
    } else {
        avg
    }
}
