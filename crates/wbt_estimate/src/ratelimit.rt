//! The rate limit of a context's writers.

ghost use Rattle.std.specs.Prelude.{◌≡◌, ◌+◌, ◌^◌, ◌<◌, ◌≤◌};
ghost use Rattle.wbt_estimate.specs.declared.estimate.TheConstants.{ESTIMATE_AGE};
ghost use Rattle.wbt_estimate.specs.RateLimit.{balanced_rate, damped_step, dirty_rate, ratelimit_after, task_rate as rate_of_task, whole_step};

use wbt_num::ceil_div;

/// Pages dirtied a second since the stamp.
pub fn dirtying(dirtied: u64, stamp: u64, elapsed: u64) -> u64
    requires dirtied_in_range { dirtied < 2 ^ 40 }
    requires enough { ESTIMATE_AGE ≤ elapsed }
    ensures { result ≡ dirty_rate dirtied stamp elapsed }
{
    dirtied.saturating_sub(stamp) * 1000 / elapsed
}

/// What a writer was let do at a position ratio, and one more.
pub fn task_rate(ratelimit: u64, ratio: u64) -> u128
    requires ratelimit_in_range { ratelimit < 2 ^ 44 }
    requires ratio_in_range { ratio < 2 ^ 32 }
    ensures value { result ≡ rate_of_task ratelimit ratio }
    ensures in_range { result ≤ 2 ^ 66 }
{
    ((ratelimit as u128 * ratio as u128) >> 10) + 1
}

/// The rate at which as much would have been dirtied as is written, at most the average bandwidth.
pub fn balanced(task: u128, avg: u64, rate: u64) -> u64
    requires task_in_range { task ≤ 2 ^ 66 }
    requires average_in_range { avg < 2 ^ 44 }
    ensures value { result ≡ balanced_rate task avg rate }
    ensures in_range { result < 2 ^ 44 }
{
    let balanced = task * avg as u128 / (rate | 1) as u128;
    balanced.min(avg as u128) as u64
}

/// How far the rate limit would move by the whole way.
pub fn step_to_balance(
    below: bool,
    ratelimit: u64,
    balanced_before: u64,
    balanced: u64,
    task: u128,
) -> u64
    ensures value { result ≡ whole_step below ratelimit balanced_before balanced task }
    ensures up_to_balanced { ratelimit < balanced → ratelimit + result ≤ balanced }
    ensures down_to_balanced { balanced ≤ ratelimit → balanced + result ≤ ratelimit }
{
    if below {
        let least = task.min(balanced_before.min(balanced) as u128) as u64;
        least.saturating_sub(ratelimit)
    } else {
        let greatest = task.max(balanced_before.max(balanced) as u128);
        (ratelimit as u128).saturating_sub(greatest) as u64
    }
}

/// The part of the way that is gone at once.
pub fn damped(ratelimit: u64, step: u64) -> u64
    requires ratelimit_in_range { ratelimit < 2 ^ 44 }
    requires step_in_range { step < 2 ^ 44 }
    ensures value { result ≡ damped_step ratelimit step }
    ensures no_further { result ≤ step }
{
    let shift = ratelimit / (2 * step + 1);
    if shift < 64 {
        ceil_div(step >> shift, 8)
    } else {
        0
    }
}

/// The rate limit, moved by a step toward the balanced rate.
pub fn moved(ratelimit: u64, balanced: u64, step: u64) -> u64
    requires ratelimit_in_range { ratelimit < 2 ^ 44 }
    requires balanced_in_range { balanced < 2 ^ 44 }
    requires up_to_balanced { ratelimit < balanced → ratelimit + step ≤ balanced }
    requires down_to_balanced { balanced ≤ ratelimit → balanced + step ≤ ratelimit }
    ensures value { result ≡ ratelimit_after ratelimit balanced step }
    ensures at_least_one { 1 ≤ result }
    ensures in_range { result < 2 ^ 44 }
{
    if ratelimit < balanced {
        (ratelimit + step).max(1)
    } else {
        (ratelimit - step).max(1)
    }
}
