//! What a check decides about a writer of a context, whether it is one of a strict device or not.

ghost use Rattle.std.specs.Prelude.{◌≡◌, ◌≢◌, ◌+◌, ◌^◌, ◌<◌, ◌≤◌, ◌↔◌, IfSome, nat_lt};
ghost use Rattle.wbt_num.specs.Limits.{IsLawful};
ghost use Rattle.wbt_pause.specs.Claims.{MayBeGranted, PausesAtRate};
ghost use Rattle.wbt_pause.specs.Decision.{exceeded_of};
ghost use Rattle.wbt_pause.specs.Pauses.{longest_pause, poll_pages};
ghost use Rattle.wbt_pause.specs.Reads.{EachDomain, IsCounted, IsReadable, IsUsable, StaysSmall, every_domain, least_of, some_domain};
ghost use Rattle.wbt_strict.specs.Bound.{greatest_reading};
ghost use Rattle.wbt_strict.specs.Claims.{ArePartsWithin, ChecksWithinOwnRoot, HasToWaitStrictly, IsStrictlyCalm};
ghost use Rattle.wbt_strict.specs.Decision.{decision_for as decision_of_either, exceeded_for, greatest_part, is_strictly_free, strict_decision, strict_rule};
ghost use Rattle.wbt_strict.specs.Position.{strict_ratio};

use crate::position::{middle, strict_position};
use wbt_pause::{
    Decision, DomainRead, Estimate, Kind, Reads, Rule, Task, decide, finish, poll_interval,
};

/// What a check decides about a writer of a context of a strict device, from its reads, the context's estimate and the writer's numbers,
/// at a moment. The context is held to its own part of each domain's threshold, whatever room the domain has: the writer is free up to the
/// middle of the context's background threshold and its threshold, and from there on goes as `strict_position` says. The kernel's
/// `balance_dirty_pages` of a device with BDI_CAP_STRICTLIMIT, one round; that nobody is free above a domain's hard limit is asked for
/// besides.
///
/// Requires: what `decide` of `wbt_pause` does, and no threshold of the context above that of its domain.
pub fn strict_decide(reads: &Reads, estimate: &Estimate, task: Task, now: u64) -> Decision
    requires readable { IsReadable reads.now }
    requires parts { ArePartsWithin reads.now }
    requires usable { IsUsable estimate.now }
    requires counted { IsCounted task }
    requires moment { now < 2 ^ 62 }
    ensures value { result ≡ strict_decision reads.now estimate.now task now }

    // A pause is at most the longest, and no pause is longer than 200 ticks.
    ensures longest { result.pause ≤ longest_pause reads.now.wb_dirty estimate.now.avg }
    ensures at_most_200 { result.pause ≤ 200 }

    // A writer is free exactly where its context has at most half of its threshold and its background threshold in every domain, and no
    // domain is above its hard limit; and it waits exactly where it has to.
    ensures free { (result.kind ≡ Kind.Free) ↔ IsStrictlyCalm reads.now }
    ensures waits { (result.kind ≡ Kind.Wait) ↔ HasToWaitStrictly reads.now estimate.now }

    // Whoever doesn't wait may be granted pages on these reads, and is in a context with at most as many pages as the greatest of its
    // thresholds, of 8 and of the statistical error.
    ensures granted { result.kind ≢ Kind.Wait → MayBeGranted reads.now result }
    ensures small { result.kind ≢ Kind.Wait → reads.now.wb_dirty ≤ greatest_reading (greatest_part reads.now) reads.now.cpus }

    // A free writer checks again after one page, or after so many that their square is free below each of its context's thresholds.
    ensures polls { result.kind ≡ Kind.Free → ChecksWithinOwnRoot reads.now result }

    // Of the pause that is due at the context's ratio as much is made as the longest. What is left over moves on the moment at which the
    // pause counts as ended, by the longest at most. Any other pause counts as ended when it ends.
    ensures cut { result.kind ≡ Kind.Go → 1 ≤ result.pause → PausesAtRate (strict_rule reads.now).ratio reads.now.wb_dirty estimate.now task now result }
    ensures ended { result.kind ≢ Kind.Go → result.task.paused_when ≡ now + result.pause }

    // The context is marked where it is over its threshold in some domain, but not by a free writer.
    ensures mark { result.exceeded ≡ exceeded_of result.kind (some_domain (λ domain. nat_lt domain.wb_thresh reads.now.wb_dirty) reads.now) }

    // At the rate limit of a sound estimate the writer's counts stay as small as the next check needs them.
    ensures numbers { estimate.now.ratelimit < 2 ^ 44 → StaysSmall task result.task }
{
    by_own_parts(reads, estimate, task, now)
}

/// What a check decides about a writer of a context, from its reads, the context's estimate and the writer's numbers, at a moment: as
/// `strict_decide` does where the context is one of a strict device, and else as `decide` does.
///
/// Requires: what `strict_decide` does, whichever rule decides.
#[tactic(auto, unfolding(crate::specs::Decision::decision_for))]
pub fn decide_for(
    strict: bool,
    reads: &Reads,
    estimate: &Estimate,
    task: Task,
    now: u64,
) -> Decision
    requires readable { IsReadable reads.now }
    requires parts { ArePartsWithin reads.now }
    requires usable { IsUsable estimate.now }
    requires counted { IsCounted task }
    requires moment { now < 2 ^ 62 }
    ensures value { result ≡ decision_of_either strict reads.now estimate.now task now }
    ensures at_most_200 { result.pause ≤ 200 }

    // Whoever doesn't wait may be granted pages on these reads.
    ensures granted { result.kind ≢ Kind.Wait → MayBeGranted reads.now result }

    // At the rate limit of a sound estimate the writer's counts stay as small as the next check needs them.
    ensures numbers { estimate.now.ratelimit < 2 ^ 44 → StaysSmall task result.task }
{
    if strict {
        strict_decide(reads, estimate, task, now)
    } else {
        decide(reads, estimate, task, now)
    }
}

// The strict decision itself.
fn by_own_parts(reads: &Reads, estimate: &Estimate, task: Task, now: u64) -> Decision
    requires readable { IsReadable reads.now }
    requires parts { ArePartsWithin reads.now }
    requires usable { IsUsable estimate.now }
    requires counted { IsCounted task }
    requires moment { now < 2 ^ 62 }
    ensures value { result ≡ strict_decision reads.now estimate.now task now }
    ensures numbers { estimate.now.ratelimit < 2 ^ 44 → StaysSmall task result.task }
{
    let rule = rule_of(reads);
    finish(
        &rule,
        reads.wb_dirty,
        reads.cpus,
        reads.cap,
        estimate,
        task,
        now,
    )
}

// What the check goes by, in all its domains.
fn rule_of(reads: &Reads) -> Rule
    requires readable { IsReadable reads.now }
    requires parts { ArePartsWithin reads.now }
    ensures value { result ≡ strict_rule reads.now }
    ensures some_page { 1 ≤ result.poll }
    ensures small_poll { result.poll ≤ 2 ^ 31 }
    ensures ratio_in_range { result.ratio ≤ 2048 }
{
    Rule {
        free: all_free(reads),
        poll: poll_of(reads),
        ratio: smaller_ratio(reads),
        over: is_over_some(reads),
    }
}

// Whether the context is free in every domain.
fn all_free(reads: &Reads) -> bool
    requires readable { IsReadable reads.now }
    requires parts { ArePartsWithin reads.now }
    ensures { result ≡ every_domain (is_strictly_free reads.now.wb_dirty) reads.now }
{
    match reads.cgroup {
        Some(cgroup) => {
            is_free(reads.wb_dirty, &reads.global) && is_free(reads.wb_dirty, &cgroup)
        }
        None => is_free(reads.wb_dirty, &reads.global),
    }
}

fn is_free(wb_dirty: u64, domain: &DomainRead) -> bool
    requires lawful { IsLawful domain.now.limits }
    requires part { domain.now.wb_thresh ≤ domain.now.limits.thresh }
    ensures { result ≡ is_strictly_free wb_dirty domain.now }
{
    wb_dirty <= middle(domain) && domain.dirty <= domain.limits.hard
}

// A free writer checks again after the least poll interval of its context's thresholds.
fn poll_of(reads: &Reads) -> u64
    ensures value { result ≡ least_of (λ domain. poll_pages domain.wb_thresh reads.now.wb_dirty) reads.now }
    ensures some_page { 1 ≤ result }
    ensures small { result ≤ 2 ^ 31 }
{
    let global = poll_interval(reads.global.wb_thresh, reads.wb_dirty);
    match reads.cgroup {
        Some(cgroup) => global.min(poll_interval(cgroup.wb_thresh, reads.wb_dirty)),
        None => global,
    }
}

// The smaller strict ratio decides.
fn smaller_ratio(reads: &Reads) -> u64
    requires readable { IsReadable reads.now }
    requires parts { ArePartsWithin reads.now }
    ensures value { result ≡ least_of (λ domain. strict_ratio domain reads.now.wb_dirty) reads.now }
    ensures in_range { result ≤ 2048 }
{
    let global = strict_position(&reads.global, reads.wb_dirty);
    match reads.cgroup {
        Some(cgroup) => global.min(strict_position(&cgroup, reads.wb_dirty)),
        None => global,
    }
}

// Whether the context is over its threshold in some domain.
fn is_over_some(reads: &Reads) -> bool
    ensures { result ≡ some_domain (λ domain. nat_lt domain.wb_thresh reads.now.wb_dirty) reads.now }
{
    match reads.cgroup {
        Some(cgroup) => {
            reads.wb_dirty > reads.global.wb_thresh || reads.wb_dirty > cgroup.wb_thresh
        }
        None => reads.wb_dirty > reads.global.wb_thresh,
    }
}
