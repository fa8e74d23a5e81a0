//! Estimates, and how a sample updates one.

ghost use Rattle.std.specs.Prelude.{◌≡◌, ◌-◌, ◌^◌, ◌<◌, ◌≤◌, ◌↔◌, IsNone, IfSome};
ghost use Rattle.wbt_estimate.specs.declared.estimate.TheConstants.{ESTIMATE_AGE};
ghost use Rattle.wbt_estimate.specs.Estimate.{IsInRange, IsSound, first_at, update_of, updated};

use crate::bandwidth::{average, bandwidth};
use crate::ratelimit::{balanced, damped, dirtying, moved, step_to_balance, task_rate};

/// The four rates of the first estimate, in pages a second.
pub const FIRST_RATE: u64 = 25600;

/// An estimate is updated so many ticks after the update before, or later.
pub const ESTIMATE_AGE: u64 = 200;

/// Bandwidth is averaged over so many ticks.
pub const PERIOD: u64 = 4096;

/// What is known of a context's device and of its writers. Rates are in pages a second.
#[derive(Clone, Copy, Debug, PartialEq, Eq)]
pub struct Estimate {
    /// How many updates came before, from 0.
    pub version: u64,
    /// The bandwidth of the device.
    pub bw: u64,
    /// Its average, which follows slowly.
    pub avg: u64,
    /// What a writer may dirty at the position ratio 1024.
    pub ratelimit: u64,
    /// The rate limit at which as much would have been dirtied as was written.
    pub balanced: u64,
    /// Pages written in all at the last update.
    pub written_stamp: u64,
    /// Pages dirtied in all at the last update.
    pub dirtied_stamp: u64,
    /// The moment of the last update, in ticks.
    pub at: u64,
}

/// What was measured at a moment.
#[derive(Clone, Copy, Debug, PartialEq, Eq)]
pub struct Sample {
    /// The moment, in ticks, below 2^62.
    pub now: u64,
    /// Pages written in all, below 2^40.
    pub written: u64,
    /// Pages dirtied in all, below 2^40.
    pub dirtied: u64,
    /// The position ratio, in 1024ths, below 2^32.
    pub ratio: u64,
    /// Whether the domain's dirty pages are below its setpoint.
    pub below_setpoint: bool,
}

/// The estimate before the first sample.
#[tactic(auto, unfolding(crate::specs::Estimate::first_at))]
pub fn first_estimate(now: u64) -> Estimate
    requires { now < 2 ^ 62 }
    ensures value { result ≡ first_at now }
    ensures sound { IsSound result }
{
    Estimate {
        version: 0,
        bw: FIRST_RATE,
        avg: FIRST_RATE,
        ratelimit: FIRST_RATE,
        balanced: FIRST_RATE,
        written_stamp: 0,
        dirtied_stamp: 0,
        at: now,
    }
}

/// The next estimate; none exactly where fewer than 200 ticks passed since the last, as where the clock went back. The
/// kernel's `wb_update_dirty_ratelimit` and `wb_update_write_bandwidth`, in this order.
#[tactic(auto, unfolding(crate::specs::Estimate::update_of))]
pub fn update(old: Estimate, sample: &Sample) -> Option<Estimate>
    requires old_sound { IsSound old }
    requires sample_in_range { IsInRange sample.now }
    ensures value { result ≡ update_of old sample.entry.now }
    ensures too_early { IsNone result ↔ (sample.entry.now.now - old.at < ESTIMATE_AGE) }
    ensures sound { IfSome result IsSound }
{
    let elapsed = sample.now.saturating_sub(old.at);
    if elapsed < ESTIMATE_AGE {
        None
    } else {
        Some(next(&old, sample, elapsed))
    }
}

// The next estimate, after enough ticks.
#[tactic(auto, unfolding(crate::specs::Estimate::updated))]
fn next(old: &Estimate, sample: &Sample, elapsed: u64) -> Estimate
    requires old_sound { IsSound old.now }
    requires sample_in_range { IsInRange sample.now }
    requires ticks { elapsed ≡ sample.now.now - old.now.at }
    requires enough { ESTIMATE_AGE ≤ elapsed }
    ensures value { result ≡ updated old.now sample.entry.now }
    ensures sound { IsSound result }
{
    let task = task_rate(old.ratelimit, sample.ratio);
    let rate = dirtying(sample.dirtied, old.dirtied_stamp, elapsed);
    let balanced = balanced(task, old.avg, rate);
    let step = step_to_balance(
        sample.below_setpoint,
        old.ratelimit,
        old.balanced,
        balanced,
        task,
    );
    let ratelimit = moved(old.ratelimit, balanced, damped(old.ratelimit, step));
    let bw = bandwidth(old.bw, sample.written, old.written_stamp, elapsed);
    Estimate {
        version: old.version + 1,
        bw,
        avg: average(old.avg, old.bw, bw, elapsed),
        ratelimit,
        balanced,
        written_stamp: sample.written,
        dirtied_stamp: sample.dirtied,
        at: sample.now,
    }
}
