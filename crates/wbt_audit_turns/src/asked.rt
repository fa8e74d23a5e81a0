//! What a check is to decide by what it read.

ghost use Rattle.std.specs.Prelude.{◌≡◌, ◌<◌, ◌≤◌, ◌^◌, true, nat_lt, if◌then◌else◌, Some, None, length, IfSome};
ghost use Rattle.wbt_counter.specs.History.{at_least_zero};
ghost use Rattle.wbt_journal.specs.Checks as spec;
ghost use Rattle.wbt_journal.specs.Effects.{of_part};
ghost use Rattle.wbt_pause.specs.Reads.{IsReadable};
ghost use Rattle.wbt_strict.specs.Claims.{ArePartsWithin};
ghost use Rattle.wbt_strict.specs.Decision.{decision_for};
ghost use Rattle.wbt_rules.specs.Strict as strict;
ghost use Rattle.wbt_trace.specs.Lawful.{IsLawful};
ghost use Rattle.wbt_audit_turns.specs.Sides.{IsWithin, tells_decision};

use crate::waits::END_OF_TIME;
use wbt_estimate::Estimate;
use wbt_flex::Fraction;
use wbt_journal::{CheckEntry, DomainLine};
use wbt_num::{Limits, MAX_LIMIT};
use wbt_pause::{Decision, Reads, Task};
use wbt_position::DomainRead;
use wbt_rules::is_strict;
use wbt_strict::decide_for;
use wbt_trace::Trace;

// What the numbers of the control law stay below: the pages of a context, rates, a task's pages, and events.
const MOST_READ: u64 = 1 << 33;

const MOST_RATE: u64 = 1 << 44;

const MOST_DIRTIED: u64 = 1 << 52;

const MOST_EVENTS: u64 = 1 << 41;

/// What a check is to decide by an estimate and the writer's numbers; none where one of the numbers isn't in the range of the control law.
pub fn asked_by(
    trace: &Trace,
    check: &CheckEntry,
    estimate: &Estimate,
    task: Task,
) -> Option<Decision>
    requires lawful { IsLawful trace.now }
    requires context { check.now.context < length trace.now.contexts }
    ensures value { result ≡ (if spec.is_in_range check.entry.now estimate.now task then Some (decision_for (strict.is_strict trace.now check.entry.now.context) (spec.reads_by trace.now check.entry.now) estimate.now task check.entry.now.now) else None) }
    ensures settles { IfSome result (λ decision. decision.task.nr_dirtied ≤ task.nr_dirtied) }
{
    if is_in_range(check, estimate, task) {
        Some(decide_for(
            is_strict(trace, check.context),
            &reads_by(trace, check),
            estimate,
            task,
            check.now,
        ))
    } else {
        None
    }
}

/// Whether a check's lines tell what it is to decide: all but the mark.
pub fn is_told(told: &Decision, asked: &Decision) -> bool
    ensures { result ≡ tells_decision told.now asked.now }
{
    told.kind == asked.kind
        && told.pause == asked.pause
        && told.left == asked.left
        && told.task == asked.task
}

// Whether all numbers by which the check decides are in the ranges of the control law.
fn is_in_range(check: &CheckEntry, estimate: &Estimate, task: Task) -> bool
    ensures { result ≡ spec.is_in_range check.entry.now estimate.now task }
{
    is_read(&check.global)
        && (is_group_read(&check.cgroup)
            && (check.count.reading() < MOST_READ
                && (is_rate(estimate) && (is_counted(task) && check.now < END_OF_TIME))))
}

fn is_rate(estimate: &Estimate) -> bool
    ensures { result ≡ spec.is_rate estimate.now }
{
    1 <= estimate.avg
        && (estimate.avg < MOST_RATE && (1 <= estimate.ratelimit && estimate.ratelimit < MOST_RATE))
}

fn is_counted(task: Task) -> bool
    ensures { result ≡ spec.is_counted task }
{
    task.nr_dirtied < MOST_DIRTIED && task.nr_dirtied_pause < MOST_DIRTIED
}

fn is_group_read(which: &Option<DomainLine>) -> bool
    ensures { result ≡ of_part true spec.is_read which.now }
{
    match which {
        None => true,
        Some(read) => is_read(read),
    }
}

fn is_read(read: &DomainLine) -> bool
    ensures { result ≡ spec.is_read read.now }
{
    are_lawful(&read.limits) && is_part(&read.share)
}

fn are_lawful(limits: &Limits) -> bool
    ensures { result ≡ spec.are_lawful limits.now }
{
    limits.bg <= limits.thresh && (limits.thresh <= limits.hard && limits.hard <= MAX_LIMIT)
}

fn is_part(share: &Fraction) -> bool
    ensures { result ≡ spec.is_part share.now }
{
    1 <= share.den && (share.num <= share.den && share.den < MOST_EVENTS)
}

fn reads_by(trace: &Trace, check: &CheckEntry) -> Reads
    requires lawful { IsLawful trace.now }
    requires context { check.now.context < length trace.now.contexts }
    requires global { spec.is_read check.now.global ≡ true }
    requires cgroup { of_part true spec.is_read check.now.cgroup ≡ true }
    requires pages { nat_lt (at_least_zero check.now.count.value) (2 ^ 33) ≡ true }
    ensures value { result ≡ spec.reads_by trace.now check.entry.now }
    ensures readable { IsReadable result }
    ensures parts { ArePartsWithin result }
{
    Reads {
        global: domain_read(trace, check.context, &check.global),
        cgroup: cgroup_read(trace, check.context, &check.cgroup),
        wb_dirty: check.count.reading(),
        cpus: trace.cpus,
        cap: trace.cap,
    }
}

fn cgroup_read(trace: &Trace, context: u32, which: &Option<DomainLine>) -> Option<DomainRead>
    requires lawful { IsLawful trace.now }
    requires context { context < length trace.now.contexts }
    requires read { of_part true spec.is_read which.now ≡ true }
    ensures value { result ≡ spec.cgroup_read trace.now context which.now }
    ensures readable { IfSome result IsWithin }
{
    match which {
        None => None,
        Some(read) => Some(domain_read(trace, context, read)),
    }
}

fn domain_read(trace: &Trace, context: u32, read: &DomainLine) -> DomainRead
    requires lawful { IsLawful trace.now }
    requires context { context < length trace.now.contexts }
    requires read { spec.is_read read.now ≡ true }
    ensures value { result ≡ spec.domain_read trace.now context read.now }
    ensures readable { IsWithin result }
{
    read.read_for(trace, context)
}
