//! A check: what it decides about a writer.

ghost use Rattle.std.specs.Prelude.{◌≡◌, ◌≢◌, ◌+◌, ◌^◌, ◌<◌, ◌≤◌, ◌↔◌, IsTrue};
ghost use Rattle.wbt_pause.specs.Decision.{decision_of, domain_rule, is_free, is_over, least_ratio};
ghost use Rattle.wbt_pause.specs.Claims.{ChecksWithinRoot, GoesOn, HasToWait, IsCalm, MayBeGranted, PausesAsDue};
ghost use Rattle.wbt_pause.specs.Pauses.{longest_pause, poll_pages};
ghost use Rattle.wbt_pause.specs.Reads.{IsCounted, IsReadable, IsUsable, StaysSmall, every_domain, least_of, some_domain};

use crate::decision::{Decision, Kind};
use crate::pauses::poll_interval;
use crate::reads::{Reads, Task};
use crate::rule::{Rule, finish};
use wbt_estimate::Estimate;
use wbt_limits::freerun;
use wbt_position::{DomainRead, position};

/// What a check decides about a writer from its reads, the context's estimate and the writer's numbers, at a moment. The
/// kernel's `balance_dirty_pages`, one round.
///
/// Requires: lawful limits of each domain, 1 to 64 CPUs, a cap of at least a page, and fewer than 2^33 pages of the context; an average
/// bandwidth from 1 to below 2^44 and a rate limit of at least 1 page a second; fewer than 2^52 pages dirtied, and an allowance below 2^52;
/// a moment below 2^62.
pub fn decide(reads: &Reads, estimate: &Estimate, task: Task, now: u64) -> Decision
    requires readable { IsReadable reads.now }
    requires usable { IsUsable estimate.now }
    requires counted { IsCounted task }
    requires moment { now < 2 ^ 62 }
    ensures value { result ≡ decision_of reads.now estimate.now task now }

    // A pause is at most the longest, and no pause is longer than 200 ticks.
    ensures longest { result.pause ≤ longest_pause reads.now.wb_dirty estimate.now.avg }
    ensures at_most_200 { result.pause ≤ 200 }

    // Where no domain is above its freerun the writer goes on at once.
    ensures calm { IsCalm reads.now → GoesOn result }

    // Whoever doesn't wait may be granted pages on these reads.
    ensures granted { result.kind ≢ Kind.Wait → MayBeGranted reads.now result }
    ensures waits { (result.kind ≡ Kind.Wait) ↔ HasToWait reads.now estimate.now }

    // A free writer checks again after one page, or after so many that their square is free below each domain's threshold.
    ensures polls { result.kind ≡ Kind.Free → ChecksWithinRoot reads.now result }

    // Of the pause that is due as much is made as the longest. What is left over moves on the moment at which the pause counts as
    // ended, by the longest at most. Any other pause counts as ended when it ends.
    ensures cut { result.kind ≡ Kind.Go → 1 ≤ result.pause → PausesAsDue reads.now estimate.now task now result }
    ensures ended { result.kind ≢ Kind.Go → result.task.paused_when ≡ now + result.pause }

    // At the rate limit of a sound estimate the writer's counts stay as small as the next check needs them.
    ensures numbers { estimate.now.ratelimit < 2 ^ 44 → StaysSmall task result.task }
{
    by_domains(reads, estimate, task, now)
}

// The decision itself.
#[tactic(auto, unfolding(crate::specs::Decision::decision_of))]
fn by_domains(reads: &Reads, estimate: &Estimate, task: Task, now: u64) -> Decision
    requires readable { IsReadable reads.now }
    requires usable { IsUsable estimate.now }
    requires counted { IsCounted task }
    requires moment { now < 2 ^ 62 }
    ensures value { result ≡ decision_of reads.now estimate.now task now }
    ensures numbers { estimate.now.ratelimit < 2 ^ 44 → StaysSmall task result.task }
{
    let rule = rule_of(reads, estimate);
    finish(
        &rule,
        reads.wb_dirty,
        reads.cpus,
        reads.cap,
        estimate,
        task,
        now,
    )
}

// What the check goes by, in all its domains.
fn rule_of(reads: &Reads, estimate: &Estimate) -> Rule
    requires readable { IsReadable reads.now }
    requires usable { IsUsable estimate.now }
    ensures value { result ≡ domain_rule reads.now estimate.now }
    ensures some_page { 1 ≤ result.poll }
    ensures small_poll { result.poll ≤ 2 ^ 31 }
    ensures ratio_in_range { result.ratio < 2 ^ 32 }
{
    Rule {
        free: all_free(reads),
        poll: poll_of(reads),
        ratio: smaller_ratio(reads, estimate),
        over: is_over_some(reads),
    }
}

// Whether no domain is above its freerun.
fn all_free(reads: &Reads) -> bool
    ensures { result ≡ every_domain is_free reads.now }
{
    match reads.cgroup {
        Some(cgroup) => domain_free(&reads.global) && domain_free(&cgroup),
        None => domain_free(&reads.global),
    }
}

fn domain_free(domain: &DomainRead) -> bool
    ensures { result ≡ is_free domain.now }
{
    domain.dirty <= freerun(&domain.limits)
}

// A free writer checks again after the least poll interval of its domains.
fn poll_of(reads: &Reads) -> u64
    ensures value { result ≡ least_of (λ domain. poll_pages domain.limits.thresh domain.dirty) reads.now }
    ensures some_page { 1 ≤ result }
    ensures small { result ≤ 2 ^ 31 }
{
    let global = poll_interval(reads.global.limits.thresh, reads.global.dirty);
    match reads.cgroup {
        Some(cgroup) => global.min(poll_interval(cgroup.limits.thresh, cgroup.dirty)),
        None => global,
    }
}

// The smaller position ratio decides.
fn smaller_ratio(reads: &Reads, estimate: &Estimate) -> u64
    requires readable { IsReadable reads.now }
    requires usable { IsUsable estimate.now }
    ensures value { result ≡ least_ratio reads.now estimate.now }
    ensures in_range { result < 2 ^ 32 }
{
    let global = position(&reads.global, reads.wb_dirty, estimate.avg);
    match reads.cgroup {
        Some(cgroup) => global.min(position(&cgroup, reads.wb_dirty, estimate.avg)),
        None => global,
    }
}

// Whether the context and some domain are above their thresholds.
fn is_over_some(reads: &Reads) -> bool
    ensures { result ≡ some_domain (is_over reads.now.wb_dirty) reads.now }
{
    match reads.cgroup {
        Some(cgroup) => is_over(reads.wb_dirty, &reads.global) || is_over(reads.wb_dirty, &cgroup),
        None => is_over(reads.wb_dirty, &reads.global),
    }
}

fn is_over(wb_dirty: u64, domain: &DomainRead) -> bool
    ensures { result ≡ is_over wb_dirty domain.now }
{
    wb_dirty > domain.wb_thresh && domain.dirty > domain.limits.thresh
}
