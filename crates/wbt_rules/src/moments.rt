//! Ticks from one moment to another, and the periods that have come by a moment.

ghost use Rattle.std.specs.Prelude.{ℕ, ◌≡◌, ◌+◌, ◌*◌, ◌^◌, ◌<◌, ◌≤◌, max};
ghost use Rattle.wbt_rules.specs.Moments as spec;

/// Ticks from one turn of the timer to its next.
pub const TIMER_REST: u64 = 200;

/// Ticks from one period of the proportions to the next.
pub const PERIOD_TICKS: u64 = 3000;

/// Ticks that a flusher rests.
pub const FLUSHER_REST: u64 = 100;

/// Ticks that a flusher rests when it has given a batch back that its disk failed to write.
pub const RETRY_REST: u64 = 1000;

/// How many batches of a flusher its disk fails to write till the flusher makes no further turn.
pub const MOST_FAULTS: u32 = 8;

/// Ticks after which an estimate is updated, as the law of estimates has it.
pub const ESTIMATE_AGE: u64 = wbt_estimate::ESTIMATE_AGE;

/// How many periods have come by a moment, where the next one's was `period`; both in ticks. Those that went by unseen come at
/// once.
pub fn periods_by(now: u64, period: u64) -> u64
    ensures value { result ≡ spec.periods_by now period }
    ensures none { now < period → result ≡ 0 }
    ensures after { now < period + PERIOD_TICKS * result }
    ensures near { period + PERIOD_TICKS * result ≤ max period (now + PERIOD_TICKS) }
{
    if now < period {
        return 0;
    }
    (now - period) / PERIOD_TICKS + 1
}

/// The moment of the next period, after those that have come by a moment: a multiple of `PERIOD_TICKS` after what it was, and the
/// first such that is after the moment.
pub fn next_period(now: u64, period: u64) -> u64
    requires now { now < 2 ^ 62 }
    ensures value { result ≡ spec.next_period now period }
    ensures multiple { (count : ℕ) × (result ≡ period + PERIOD_TICKS * count) }
    ensures after { now < result }
    ensures within_a_period { period ≤ now → result ≤ now + PERIOD_TICKS }
    ensures stays { now < period → result ≡ period }
{
    period + PERIOD_TICKS * periods_by(now, period)
}
