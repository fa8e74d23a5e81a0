//! A writer that may dirty at some rate: how long it pauses.

ghost use Rattle.std.specs.Prelude.{◌≡◌, ◌+◌, ◌*◌, ◌/◌, ◌^◌, ◌<◌, ◌≤◌, max, pos, ◌+ℤ◌, ◌≤ℤ◌, unsigned_abs};
ghost use Rattle.wbt_pause.specs.Decision.{cut_decision, due_pause, go_decision, paused as after_pause, period_of, unpaused};
ghost use Rattle.wbt_pause.specs.Reads.{IsCounted, StaysSmall};

use crate::decision::{Decision, Kind, make_decision};
use crate::pauses::MinPause;
use crate::reads::Task;
use crate::rule::Rule;

/// The decision at a rate, in pages a second: no pause where it would be shorter than the least.
#[tactic(auto, unfolding(crate::specs::Decision::go_decision))]
pub fn go(
    rule: &Rule,
    cap: u32,
    rate: u128,
    longest: u64,
    least: MinPause,
    task: Task,
    now: u64,
) -> Decision
    requires rate_at_least_one { 1 ≤ rate }
    requires longest_in_range { longest ≤ 200 }
    requires least_in_range { least.pause ≤ 32000 }
    requires counted { IsCounted task }
    requires moment { now < 2 ^ 62 }
    ensures value { result ≡ go_decision rule.now cap rate longest least task now }
    ensures numbers { least.pages ≤ 2 ^ 42 → StaysSmall task result.task }
{
    let period = period(rate, task.nr_dirtied);
    let due = due(period, task.paused_when, now);
    if due < least.pause as i128 {
        return make_decision(
            rule,
            cap,
            Kind::Go,
            0,
            without_pause(due, period, now, task),
        );
    }
    cut(rule, cap, due as u128, longest, least.pages, now)
}

// Ticks that so many pages take at a rate.
fn period(rate: u128, nr_dirtied: u64) -> u64
    requires rate_at_least_one { 1 ≤ rate }
    requires dirtied_in_range { nr_dirtied < 2 ^ 52 }
    ensures value { result ≡ 1000 * nr_dirtied / rate }
    ensures in_range { result < 2 ^ 62 }
{
    (1000 * nr_dirtied as u128 / rate) as u64
}

// What is left of the period since the last pause.
fn due(period: u64, paused_when: u64, now: u64) -> i128
    ensures value { result ≡ due_pause period paused_when now }
    ensures reached { (pos paused_when +ℤ pos period) ≤ℤ (result +ℤ pos now) }
    ensures bounded { unsigned_abs result ≤ 2 ^ 66 }
{
    if paused_when == 0 {
        period as i128
    } else {
        period as i128 - (now as i128 - paused_when as i128)
    }
}

// The writer's numbers where no pause is made.
fn without_pause(due: i128, period: u64, now: u64, task: Task) -> Task
    requires counted { IsCounted task }
    requires reached { 0 < period → task.paused_when + period < 2 ^ 64 }
    ensures value { result ≡ unpaused due period now task }
    ensures dirtied { result.nr_dirtied ≤ task.nr_dirtied }
    ensures allowance { result.nr_dirtied_pause ≤ max task.nr_dirtied_pause (2 * task.nr_dirtied) }
{
    if due < -1000 {
        Task {
            nr_dirtied: 0,
            paused_when: now,
            ..task
        }
    } else if period > 0 {
        Task {
            nr_dirtied: 0,
            paused_when: task.paused_when + period,
            ..task
        }
    } else if task.nr_dirtied_pause <= task.nr_dirtied {
        Task {
            nr_dirtied_pause: task.nr_dirtied_pause + task.nr_dirtied,
            ..task
        }
    } else {
        task
    }
}

// A pause is cut at the longest, and begins later by what was cut.
#[tactic(auto, unfolding(crate::specs::Decision::cut_decision))]
fn cut(rule: &Rule, cap: u32, due: u128, longest: u64, pages: u64, now: u64) -> Decision
    requires longest_in_range { longest ≤ 200 }
    requires moment { now < 2 ^ 62 }
    ensures value { result ≡ cut_decision rule.now cap due longest pages now }
    ensures dirtied { result.task.nr_dirtied ≡ 0 }
    ensures allowance { result.task.nr_dirtied_pause ≡ pages }
{
    if due > longest as u128 {
        let late = (due - longest as u128).min(longest as u128) as u64;
        let after = paused(now + late, longest, pages);
        make_decision(rule, cap, Kind::Go, longest, after)
    } else {
        let after = paused(now, due as u64, pages);
        make_decision(rule, cap, Kind::Go, due as u64, after)
    }
}

/// The writer's numbers after a pause from a moment on.
pub fn paused(from: u64, pause: u64, pages: u64) -> Task
    requires from_in_range { from < 2 ^ 63 }
    requires pause_in_range { pause ≤ 200 }
    ensures value { result ≡ after_pause from pause pages }
    ensures dirtied { result.nr_dirtied ≡ 0 }
    ensures allowance { result.nr_dirtied_pause ≡ pages }
{
    Task {
        nr_dirtied: 0,
        nr_dirtied_pause: pages,
        paused_when: from + pause,
    }
}
