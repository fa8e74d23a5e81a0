//! The estimate that a context begins with.

ghost use Rattle.std.specs.Prelude.{◌≡◌, ◌<◌, ◌^◌, length, IfSome};
ghost use Rattle.wbt_estimate.specs.Estimate.{IsSound};
ghost use Rattle.wbt_rules.specs.First as spec;
ghost use Rattle.wbt_rules.specs.Things.{context_at};
ghost use Rattle.wbt_trace.specs.Lawful.{IsFirstEstimate};

use wbt_estimate::{Estimate, first_estimate as first_of_none};
use wbt_trace::{FirstEstimate, Trace};

/// The estimate of a context before its first update, of a machine that was opened at this moment, in ticks.
#[tactic(auto, unfolding(crate::specs::First::first_estimate))]
pub fn first_estimate(trace: &Trace, context: u32, now: u64) -> Estimate
    requires { context < length trace.now.contexts }
    ensures value { result ≡ spec.first_estimate trace.now context now }
    ensures version { result.version ≡ 0 }
    ensures moment { result.at ≡ now }
    ensures sound { IfSome (context_at trace.now context).estimate IsFirstEstimate → now < 2 ^ 62 → IsSound result }
{
    first_by(trace.contexts.as_slice()[context as usize].estimate, now)
}

/// That of a context with such a line, or with none.
#[tactic(auto, unfolding(wbt_estimate::specs::Estimate::first_at))]
pub fn first_by(line: Option<FirstEstimate>, now: u64) -> Estimate
    ensures value { result ≡ spec.first_by line now }
    ensures version { result.version ≡ 0 }
    ensures moment { result.at ≡ now }
    ensures sound { IfSome line IsFirstEstimate → now < 2 ^ 62 → IsSound result }
{
    match line {
        None => Estimate {
            at: now,
            ..first_of_none(0)
        },
        Some(line) => Estimate {
            version: 0,
            bw: line.bandwidth,
            avg: line.average,
            ratelimit: line.ratelimit,
            balanced: line.ratelimit,
            written_stamp: 0,
            dirtied_stamp: 0,
            at: now,
        },
    }
}
