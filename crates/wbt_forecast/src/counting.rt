//! What a machine has told is counted in.

ghost use Rattle.std.specs.Prelude.{ℕ, ◌≡◌, ◌+◌, ◌-◌, ◌≤◌, length, drop, sum_by};
ghost use Rattle.wbt_trace.specs.Lawful.{AreFirsts};
ghost use Rattle.wbt_forecast_rows.specs.Small.{AreSmall, AreSmallTotals};
ghost use Rattle.wbt_forecast_rows.specs.Tally as tally;
ghost use Rattle.wbt_forecast.specs.Kept as spec;
ghost use Rattle.wbt_replay_moves.specs.Steps.{steps_of};

use wbt_forecast_rows::tally::MOST_TOLD;
use wbt_forecast_rows::{Interval, Totals};
use wbt_grant::StepKind;
use wbt_journal::StepEntry;
use wbt_replay_moves::{Cpu, Steps};
use wbt_trace::Trace;

// What stands for a step that was forgotten.
const NO_STEP: StepEntry = StepEntry {
    who: 0,
    kind: StepKind::Add,
    context: 0,
    change: 0,
    domain: 0,
    peak: 0,
};

/// How many steps were made, of which so many are known.
pub fn made_steps(steps: &Steps, known: u64) -> u64
    requires known { known ≤ length (steps_of steps.now) }
    requires few { length (steps_of steps.now) ≤ MOST_TOLD }
    ensures { result ≡ length (steps_of steps.now) }
{
    let mut made = known;
    'counted: while steps.is_at_least(made + 1) {
        made += 1;
    }
    made
}

/// Counts the steps after the first `counted` in. `made` were made.
pub fn count_steps(interval: &mut Interval, trace: &Trace, steps: &Steps, counted: u64, made: u64)
    requires made { made ≡ length (steps_of steps.now) }
    requires counted { counted ≤ made }
    requires small { (most : ℕ) × AreSmall most interval.old × (most + made ≤ MOST_TOLD) }
    ensures value { interval.new ≡ tally.after_steps trace.now (drop counted (steps_of steps.now)) interval.old }
    ensures small { (most : ℕ) → AreSmall most interval.old → AreSmall (most + (made - counted)) interval.new }
{
    let kept = steps.kept();
    let more = (made - counted) as usize;
    if more <= kept.len() {
        interval.count_steps(trace, &kept[kept.len() - more..]);
        return;
    }
    // Those of them that were forgotten stand for steps that change nothing.
    for _step in kept.len()..more {
        interval.count_steps(trace, &[NO_STEP]);
    }
    interval.count_steps(trace, kept);
}

/// Counts the entries of all CPUs in.
pub fn count_entries(interval: &mut Interval, trace: &Trace, cpus: &[Cpu])
    requires firsts { AreFirsts 0 trace.now.inodes }
    requires small { (most : ℕ) × AreSmall most interval.old × (most + length (spec.all_entries cpus.now) ≤ MOST_TOLD) }
    ensures value { interval.new ≡ tally.after_entries trace.now (spec.all_entries cpus.now) interval.old }
    ensures small { (most : ℕ) → AreSmall most interval.old → AreSmall (most + length (spec.all_entries cpus.now)) interval.new }
{
    for cpu in cpus {
        interval.count_entries(trace, cpu.entries.as_slice());
    }
}

/// Counts the checks of all CPUs in.
pub fn count_checks(interval: &mut Interval, cpus: &[Cpu])
    requires small { (most : ℕ) × AreSmall most interval.old × (most + length (spec.all_checks cpus.now) ≤ MOST_TOLD) }
    ensures value { interval.new ≡ tally.after_checks (spec.all_checks cpus.now) interval.old }
    ensures small { (most : ℕ) → AreSmall most interval.old → AreSmall (most + length (spec.all_checks cpus.now)) interval.new }
{
    for cpu in cpus {
        interval.count_checks(cpu.checks.as_slice());
    }
}

/// Counts the entries of all CPUs into the sums of the run.
pub fn sum_up(totals: &mut Totals, cpus: &[Cpu])
    requires small { (most : ℕ) × AreSmallTotals most totals.old × (most + length (spec.all_entries cpus.now) ≤ MOST_TOLD) }
    ensures { totals.new ≡ tally.totals_after (spec.all_entries cpus.now) totals.old }
{
    for cpu in cpus {
        totals.count_entries(cpu.entries.as_slice());
    }
}
