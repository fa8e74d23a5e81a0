//! What a check goes by, and the decision by it.

ghost use Rattle.std.specs.Prelude.{◌≡◌, ◌≢◌, ◌+◌, ◌*◌, ◌/◌, ◌^◌, ◌<◌, ◌≤◌, ◌↔◌, IsTrue, true};
ghost use Rattle.wbt_num.specs.declared.most.TheConstants.{MOST_CPUS};
ghost use Rattle.wbt_pause.specs.Claims.{PausesAtRate, RuleMakesWait};
ghost use Rattle.wbt_pause.specs.Decision.{exceeded_of, finished, free_task, kind_at_rest, rate_of, throttled};
ghost use Rattle.wbt_pause.specs.Pauses.{longest_pause};
ghost use Rattle.wbt_pause.specs.Reads.{IsCounted, IsUsable, StaysSmall};

use crate::decision::{Decision, Kind, make_decision};
use crate::go::{go, paused};
use crate::pauses::{max_pause, min_pause};
use crate::reads::Task;
use wbt_counter::stat_error;
use wbt_estimate::Estimate;

/// What a check goes by. `decide` makes it of the domains' pages; another law may make another.
#[derive(Clone, Copy, Debug, PartialEq, Eq)]
pub struct Rule {
    /// Whether the writer goes on at once.
    pub free: bool,
    /// The allowance of a writer that does: pages that it may dirty before its next check, at least 1.
    pub poll: u64,
    /// How fast any other writer may go, in 1024ths of its context's rate limit; below 2^32.
    pub ratio: u64,
    /// Whether the context of any other is over its threshold.
    pub over: bool,
}

/// What a check decides about a writer by a rule, from its context's pages, `wb_dirty`, the context's estimate and the writer's numbers,
/// at a moment. At most `cap` pages are left to the writer. The kernel's `balance_dirty_pages`, once the position ratio is known.
///
/// Requires: what `decide` does of pages, CPUs, cap, estimate, task and moment; of the rule a poll interval of at least a page, and a ratio
/// below 2^32.
pub fn finish(
    rule: &Rule,
    wb_dirty: u64,
    cpus: u32,
    cap: u32,
    estimate: &Estimate,
    task: Task,
    now: u64,
) -> Decision
    requires pages { wb_dirty < 2 ^ 33 }
    requires some_cpu { 1 ≤ cpus }
    requires not_too_many_cpus { cpus ≤ MOST_CPUS }
    requires some_page { 1 ≤ cap }
    requires poll { 1 ≤ rule.now.poll }
    requires ratio { rule.now.ratio < 2 ^ 32 }
    requires usable { IsUsable estimate.now }
    requires counted { IsCounted task }
    requires moment { now < 2 ^ 62 }
    ensures value { result ≡ finished rule.now wb_dirty cpus cap estimate.now task now }

    // A pause is at most the longest, and no pause is longer than 200 ticks.
    ensures longest { result.pause ≤ longest_pause wb_dirty estimate.now.avg }
    ensures at_most_200 { result.pause ≤ 200 }

    // A writer is free exactly where the rule says so, and waits exactly where the rule makes it.
    ensures free { (result.kind ≡ Kind.Free) ↔ (rule.now.free ≡ true) }
    ensures waits { (result.kind ≡ Kind.Wait) ↔ RuleMakesWait rule.now wb_dirty cpus estimate.now }

    // At most cap pages are left, and one at least to whoever doesn't wait.
    ensures at_most_cap { result.left ≤ cap }
    ensures at_least_one { result.kind ≢ Kind.Wait → 1 ≤ result.left }

    // A free writer counts anew, with the rule's allowance.
    ensures polls { result.kind ≡ Kind.Free → result.task ≡ free_task rule.now.poll now }

    // Of the pause that is due at the rule's ratio as much is made as the longest. What is left over moves on the moment at which the
    // pause counts as ended, by the longest at most. Any other pause counts as ended when it ends.
    ensures cut { result.kind ≡ Kind.Go → 1 ≤ result.pause → PausesAtRate rule.now.ratio wb_dirty estimate.now task now result }
    ensures ended { result.kind ≢ Kind.Go → result.task.paused_when ≡ now + result.pause }

    // The context is marked where the rule says that it is over, but not by a free writer.
    ensures mark { result.exceeded ≡ exceeded_of result.kind rule.now.over }

    // At the rate limit of a sound estimate the writer's counts stay as small as the next check needs them.
    ensures numbers { rule.now.poll ≤ 2 ^ 42 → estimate.now.ratelimit < 2 ^ 44 → StaysSmall task result.task }
{
    by_rule(rule, wb_dirty, cpus, cap, estimate, task, now)
}

// The decision itself.
fn by_rule(
    rule: &Rule,
    wb_dirty: u64,
    cpus: u32,
    cap: u32,
    estimate: &Estimate,
    task: Task,
    now: u64,
) -> Decision
    requires pages { wb_dirty < 2 ^ 33 }
    requires some_cpu { 1 ≤ cpus }
    requires not_too_many_cpus { cpus ≤ MOST_CPUS }
    requires ratio { rule.now.ratio < 2 ^ 32 }
    requires usable { IsUsable estimate.now }
    requires counted { IsCounted task }
    requires moment { now < 2 ^ 62 }
    ensures value { result ≡ finished rule.now wb_dirty cpus cap estimate.now task now }
    ensures numbers { rule.now.poll ≤ 2 ^ 42 → estimate.now.ratelimit < 2 ^ 44 → StaysSmall task result.task }
{
    if rule.free {
        return make_decision(rule, cap, Kind::Free, 0, task_when_free(rule.poll, now));
    }
    throttle(rule, wb_dirty, cpus, cap, estimate, task, now)
}

// Where the writer isn't free.
#[tactic(auto, unfolding(crate::specs::Decision::throttled))]
fn throttle(
    rule: &Rule,
    wb_dirty: u64,
    cpus: u32,
    cap: u32,
    estimate: &Estimate,
    task: Task,
    now: u64,
) -> Decision
    requires pages { wb_dirty < 2 ^ 33 }
    requires some_cpu { 1 ≤ cpus }
    requires not_too_many_cpus { cpus ≤ MOST_CPUS }
    requires ratio { rule.now.ratio < 2 ^ 32 }
    requires usable { IsUsable estimate.now }
    requires counted { IsCounted task }
    requires moment { now < 2 ^ 62 }
    ensures value { result ≡ throttled rule.now wb_dirty cpus cap estimate.now task now }
    ensures numbers { estimate.now.ratelimit < 2 ^ 44 → StaysSmall task result.task }
{
    let rate = task_rate(rule.ratio, estimate);
    let longest = max_pause(wb_dirty, estimate.avg);
    let least = min_pause(longest, estimate.avg, estimate.ratelimit, rate);
    if rate == 0 {
        return make_decision(
            rule,
            cap,
            kind_without_rate(wb_dirty, cpus),
            longest,
            paused(now, longest, least.pages),
        );
    }
    go(rule, cap, rate, longest, least, task, now)
}

// A free writer counts anew, and checks again after so many pages.
fn task_when_free(poll: u64, now: u64) -> Task
    ensures value { result ≡ free_task poll now }
    ensures dirtied { result.nr_dirtied ≡ 0 }
    ensures allowance { result.nr_dirtied_pause ≡ poll }
{
    Task {
        nr_dirtied: 0,
        nr_dirtied_pause: poll,
        paused_when: now,
    }
}

// What the task may dirty, in pages a second.
#[tactic(auto, unfolding(crate::specs::Decision::rate_of))]
fn task_rate(ratio: u64, estimate: &Estimate) -> u128
    requires ratio { ratio < 2 ^ 32 }
    requires usable { IsUsable estimate.now }
    ensures value { result ≡ rate_of ratio estimate.now }
    ensures in_range { result < 2 ^ 96 }
{
    (estimate.ratelimit as u128 * ratio as u128) >> 10
}

// Exempt where the context's reading may be all error.
fn kind_without_rate(wb_dirty: u64, cpus: u32) -> Kind
    requires some_cpu { 1 ≤ cpus }
    requires not_too_many_cpus { cpus ≤ MOST_CPUS }
    ensures { result ≡ kind_at_rest wb_dirty cpus }
{
    if wb_dirty <= stat_error(cpus) {
        Kind::Exempt
    } else {
        Kind::Wait
    }
}
