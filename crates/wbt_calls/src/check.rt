//! The decision of a check.

ghost use Rattle.std.specs.Prelude.{◌≡◌, ◌≢◌, ◌≤◌, ◌↔◌};
ghost use Rattle.wbt_num.specs.declared.most.TheConstants.{MOST_CPUS};
ghost use Rattle.wbt_pause.specs.Decision.{decision_of};
ghost use Rattle.wbt_strict.specs.Decision.{strict_decision};
ghost use Rattle.wbt_calls.specs.Crossing as crossing;
ghost use Rattle.wbt_calls.specs.Ranges as spec;

use crate::ranges::{MOST_LEFT, status_of, strict_status_of};
use crate::status::OK;
use crate::types::{Check, Decided, Domain, Writer};
use wbt_num::Limits;
use wbt_pause::{Decision, DomainRead, Estimate, Kind, Reads, Task};

/// What a check decides about a writer of a context whose device isn't strict.
pub fn decide(check: &Check, out: &mut Decided) -> u32
    ensures status { result ≡ spec.status_of check.now }
    ensures taken { result ≡ OK ↔ spec.IsTaken check.now }
    ensures decided { result ≡ OK → out.new ≡ crossing.decided_by (decision_of (crossing.reads_of check.now) (crossing.rates_of check.now.avg check.now.ratelimit) (crossing.task_of check.now.writer) check.now.moment) }
    ensures refused { result ≢ OK → out.new ≡ out.old }
    ensures at_most_200 { result ≡ OK → out.new.pause ≤ 200 }
{
    let status = status_of(check);
    if status == OK {
        let decision = wbt_pause::decide(
            &reads_of(check),
            &rates_of(check.avg, check.ratelimit),
            task_of(&check.writer),
            check.moment,
        );
        *out = decided_by(&decision);
    }
    status
}

/// What a check decides about a writer of a context whose device is strict.
pub fn strict_decide(check: &Check, out: &mut Decided) -> u32
    ensures status { result ≡ spec.strict_status_of check.now }
    ensures taken { result ≡ OK ↔ spec.IsStrictlyTaken check.now }
    ensures decided { result ≡ OK → out.new ≡ crossing.decided_by (strict_decision (crossing.reads_of check.now) (crossing.rates_of check.now.avg check.now.ratelimit) (crossing.task_of check.now.writer) check.now.moment) }
    ensures refused { result ≢ OK → out.new ≡ out.old }
    ensures at_most_200 { result ≡ OK → out.new.pause ≤ 200 }
{
    let status = strict_status_of(check);
    if status == OK {
        let decision = wbt_strict::strict_decide(
            &reads_of(check),
            &rates_of(check.avg, check.ratelimit),
            task_of(&check.writer),
            check.moment,
        );
        *out = decided_by(&decision);
    }
    status
}

fn kind_number(kind: Kind) -> u64
    ensures { result ≡ crossing.kind_number kind }
{
    match kind {
        Kind::Free => 0,
        Kind::Go => 1,
        Kind::Exempt => 2,
        Kind::Wait => 3,
    }
}

fn decided_by(decision: &Decision) -> Decided
    ensures { result ≡ crossing.decided_by decision.now }
{
    Decided {
        kind: kind_number(decision.kind),
        pause: decision.pause,
        left: decision.left,
        writer: writer_of(&decision.task),
        exceeded: if decision.exceeded { 1 } else { 0 },
    }
}

/// A writer's numbers, for the crates below.
pub fn task_of(writer: &Writer) -> Task
    ensures { result ≡ crossing.task_of writer.now }
{
    Task {
        nr_dirtied: writer.nr_dirtied,
        nr_dirtied_pause: writer.nr_dirtied_pause,
        paused_when: writer.paused_when,
    }
}

/// A writer's numbers, for C.
pub fn writer_of(task: &Task) -> Writer
    ensures { result ≡ crossing.writer_of task.now }
{
    Writer {
        nr_dirtied: task.nr_dirtied,
        nr_dirtied_pause: task.nr_dirtied_pause,
        paused_when: task.paused_when,
    }
}

/// What was read of a domain.
pub fn read_of(domain: &Domain) -> DomainRead
    ensures { result ≡ crossing.read_of domain.now }
{
    DomainRead {
        limits: Limits {
            thresh: domain.thresh,
            bg: domain.bg,
            hard: domain.hard,
        },
        dirty: domain.dirty,
        wb_thresh: domain.wb_thresh,
    }
}

// The cgroup's domain, where the flag is set.
fn cgroup_of(check: &Check) -> Option<DomainRead>
    ensures { result ≡ crossing.cgroup_of check.now }
{
    if check.has_cgroup == 0 {
        None
    } else {
        Some(read_of(&check.cgroup))
    }
}

fn reads_of(check: &Check) -> Reads
    requires cpus { check.now.cpus ≤ MOST_CPUS }
    requires cap { check.now.cap ≤ MOST_LEFT }
    ensures { result ≡ crossing.reads_of check.now }
{
    Reads {
        global: read_of(&check.global),
        cgroup: cgroup_of(check),
        wb_dirty: check.wb_dirty,
        cpus: check.cpus as u32,
        cap: check.cap as u32,
    }
}

fn rates_of(avg: u64, ratelimit: u64) -> Estimate
    ensures { result ≡ crossing.rates_of avg ratelimit }
{
    Estimate {
        version: 0,
        bw: avg,
        avg,
        ratelimit,
        balanced: ratelimit,
        written_stamp: 0,
        dirtied_stamp: 0,
        at: 0,
    }
}
