//! Decisions of checks.

ghost use Rattle.std.specs.Prelude.{◌≡◌, ◌^◌, ◌<◌, ◌≤◌};
ghost use Rattle.wbt_pause.specs.Reads.{IsCounted, IsReadable, IsUsable};

use std::process::Abort;
use wbt_pause::{Decision, DomainRead, Estimate, Kind, Limits, Reads, Task, decide};

const LIMITS: Limits = Limits {
    thresh: 19995,
    bg: 9985,
    hard: 19995,
};

// One domain with so many dirty pages, on a machine with 4 CPUs.
fn reads(dirty: u64, wb_dirty: u64) -> Reads
    requires { wb_dirty < 2 ^ 33 }
    ensures readable { IsReadable result }
    ensures pages { result.wb_dirty ≡ wb_dirty }
{
    let global = DomainRead {
        limits: LIMITS,
        dirty,
        wb_thresh: 19995,
    };
    Reads {
        global,
        cgroup: None,
        wb_dirty,
        cpus: 4,
        cap: 1024,
    }
}

fn rates(avg: u64, ratelimit: u64) -> Estimate
    requires average { 1 ≤ avg }
    requires average_in_range { avg < 2 ^ 44 }
    requires ratelimit { 1 ≤ ratelimit }
    ensures { IsUsable result }
{
    Estimate {
        version: 0,
        bw: avg,
        avg,
        ratelimit,
        balanced: ratelimit,
        written_stamp: 0,
        dirtied_stamp: 0,
        at: 0,
    }
}

fn task(nr_dirtied: u64, nr_dirtied_pause: u64, paused_when: u64) -> Task
    requires dirtied { nr_dirtied < 2 ^ 52 }
    requires allowance { nr_dirtied_pause < 2 ^ 52 }
    ensures { IsCounted result }
{
    Task {
        nr_dirtied,
        nr_dirtied_pause,
        paused_when,
    }
}

// Kind, pause, pages left and the writer's new numbers; the mark is not compared.
fn is(rt: &impl Abort, decision: Decision, kind: Kind, pause: u64, left: u64, task: Task) {
    assert_eq!(rt;
        decision,
        Decision {
            kind,
            pause,
            left,
            task,
            exceeded: decision.exceeded
        }
    );
}

#[test]
fn pauses_for_what_was_dirtied(rt: HostRuntime) {
    let middle = reads(17492, 17492);
    let rates = rates(25600, 25600);
    let late = decide(&middle, &rates, task(250, 250, 4999), 5000);
    is(&rt, late, Kind::Go, 8, 250, task(0, 250, 5008));
    let early = decide(&middle, &rates, task(250, 250, 4990), 5000);
    is(&rt, early, Kind::Go, 0, 250, task(0, 250, 4999));
}

#[test]
fn cuts_the_pause_where_the_clock_went_back(rt: HostRuntime) {
    let decision = decide(
        &reads(17492, 17492),
        &rates(25600, 25600),
        task(250, 250, 1500),
        1000,
    );
    is(&rt, decision, Kind::Go, 88, 250, task(0, 250, 1176));
}

#[test]
fn exempts_a_context_that_may_be_all_error(rt: HostRuntime) {
    let before = task(32, 32, 4900);
    let exempt = decide(&reads(19995, 96), &rates(25600, 25600), before, 5000);
    is(&rt, exempt, Kind::Exempt, 1, 1, task(0, 0, 5001));
    let wait = decide(&reads(19995, 97), &rates(25600, 25600), before, 5000);
    is(&rt, wait, Kind::Wait, 1, 0, task(0, 0, 5001));
}

#[test]
fn waits_below_the_limit_where_the_rate_is_0(rt: HostRuntime) {
    let decision = decide(
        &reads(19994, 19994),
        &rates(25600, 400),
        task(32, 32, 4990),
        5000,
    );
    is(&rt, decision, Kind::Wait, 100, 0, task(0, 0, 5100));
}

#[test]
fn is_free_where_all_is_0(rt: HostRuntime) {
    let none = Limits {
        thresh: 0,
        bg: 0,
        hard: 0,
    };
    let global = DomainRead {
        limits: none,
        dirty: 0,
        wb_thresh: 0,
    };
    let reads = Reads {
        global,
        cgroup: None,
        wb_dirty: 0,
        cpus: 4,
        cap: 1024,
    };
    let decision = decide(&reads, &rates(25600, 25600), task(1, 32, 0), 7);
    is(&rt, decision, Kind::Free, 0, 1, task(0, 1, 7));
}

#[test]
fn the_smaller_ratio_decides(rt: HostRuntime) {
    let full = DomainRead {
        limits: LIMITS,
        dirty: 19995,
        wb_thresh: 10,
    };
    let both = Reads {
        cgroup: Some(full),
        ..reads(17492, 97)
    };
    let decision = decide(&both, &rates(25600, 25600), task(250, 250, 4999), 5000);
    assert!(rt; decision.kind == Kind::Wait);
    assert!(rt; decision.exceeded == false);
    let over = DomainRead {
        dirty: 19996,
        ..full
    };
    let decision = decide(
        &Reads {
            cgroup: Some(over),
            ..both
        },
        &rates(25600, 25600),
        task(250, 250, 4999),
        5000,
    );
    assert!(rt; decision.exceeded);
}
