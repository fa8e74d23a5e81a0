//! The bandwidth of a device, and its average.

ghost use Rattle.std.specs.Prelude.{◌≡◌, ◌^◌, ◌<◌, ◌≤◌};
ghost use Rattle.wbt_estimate.specs.declared.estimate.TheConstants.{ESTIMATE_AGE};
ghost use Rattle.wbt_estimate.specs.Bandwidth.{average_after, bandwidth_after, fallen, risen};

use crate::estimate::PERIOD;

/// The bandwidth after so many ticks, in pages a second, from the one before and the pages written since the stamp.
pub fn bandwidth(bw: u64, written: u64, stamp: u64, elapsed: u64) -> u64
    requires bandwidth_in_range { bw < 2 ^ 44 }
    requires written_in_range { written < 2 ^ 40 }
    requires enough { ESTIMATE_AGE ≤ elapsed }
    ensures value { result ≡ bandwidth_after bw written stamp elapsed }
    ensures in_range { result < 2 ^ 44 }
{
    let grown = written.saturating_sub(stamp) * 1000;
    if elapsed > PERIOD {
        grown / elapsed
    } else {
        (grown + bw * (PERIOD - elapsed)) >> 12
    }
}

/// The average after so many ticks, from the one before, the bandwidth before and the new bandwidth.
pub fn average(avg: u64, old: u64, bw: u64, elapsed: u64) -> u64
    requires average_in_range { avg < 2 ^ 44 }
    requires old_in_range { old < 2 ^ 44 }
    requires bandwidth_in_range { bw < 2 ^ 44 }
    ensures value { result ≡ average_after avg old bw elapsed }
    ensures at_least_one { 1 ≤ result }
    ensures in_range { result < 2 ^ 44 }
{
    if elapsed > PERIOD {
        return bw.max(1);
    }
    rise(fall(avg, old, bw), old, bw).max(1)
}

// An eighth down toward the old bandwidth.
fn fall(avg: u64, old: u64, bw: u64) -> u64
    ensures value { result ≡ fallen avg old bw }
    ensures no_higher { result ≤ avg }
{
    if avg > old && old >= bw {
        avg - ((avg - old) >> 3)
    } else {
        avg
    }
}

// An eighth up toward the old bandwidth.
fn rise(avg: u64, old: u64, bw: u64) -> u64
    requires average_in_range { avg < 2 ^ 44 }
    requires old_in_range { old < 2 ^ 44 }
    ensures value { result ≡ risen avg old bw }
    ensures in_range { result < 2 ^ 44 }
{
    if avg < old && old <= bw {
        avg + ((old - avg) >> 3)
    } else {
        avg
    }
}
