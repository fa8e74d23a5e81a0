//! Contexts of strict devices: their bound, their ratio, and decisions of their checks.

ghost use Rattle.std.specs.Prelude.{◌^◌, ◌<◌, ◌≤◌, IfSome};
ghost use Rattle.wbt_num.specs.Limits.{IsLawful};

use std::test::Fail;
use wbt_pause::{Decision, DomainRead, Estimate, Kind, Limits, Reads, Task};
use wbt_strict::{strict_bound, strict_decide, strict_position};

#[test]
fn the_bound_of_one_cpu_and_one_writer(rt: HostRuntime) -> Result<(), Fail> {
    assert_eq!(rt; strict_bound(0, 1, 1, 1024), 1040);
    assert_eq!(rt; strict_bound(1000, 4, 2, 32), 1160);
    Ok(())
}

#[test]
fn a_context_stops_at_its_own_threshold(rt: HostRuntime) -> Result<(), Fail> {
    let read = DomainRead {
        limits: Limits {
            thresh: 19995,
            bg: 9985,
            hard: 19995,
        },
        dirty: 17492,
        wb_thresh: 1000,
    };
    assert_eq!(rt; strict_position(&read, 7), 2048);
    assert_eq!(rt; strict_position(&read, 749), 1024);
    assert_eq!(rt; strict_position(&read, 999), 14);
    assert_eq!(rt; strict_position(&read, 1000), 0);
    Ok(())
}

// A domain with so many dirty pages that runs free up to 14990, and a context with a part of it.
fn domain(dirty: u64, wb_thresh: u64) -> DomainRead
    requires part { wb_thresh ≤ 19995 }
    ensures lawful { IsLawful result.limits }
    ensures part { result.wb_thresh ≤ result.limits.thresh }
{
    DomainRead {
        limits: Limits {
            thresh: 19995,
            bg: 9985,
            hard: 19995,
        },
        dirty,
        wb_thresh,
    }
}

// What a writer that dirtied 250 pages a tick ago is told in a context with so many pages and a threshold of 1000.
fn told(dirty: u64, wb_dirty: u64, cgroup: Option<DomainRead>) -> Decision
    requires pages { wb_dirty < 2 ^ 33 }
    requires lawful { IfSome cgroup (λ domain. IsLawful domain.limits) }
    requires part { IfSome cgroup (λ domain. domain.wb_thresh ≤ domain.limits.thresh) }
{
    let reads = Reads {
        global: domain(dirty, 1000),
        cgroup,
        wb_dirty,
        cpus: 4,
        cap: 1024,
    };
    let estimate = Estimate {
        version: 0,
        bw: 25600,
        avg: 25600,
        ratelimit: 25600,
        balanced: 25600,
        written_stamp: 0,
        dirtied_stamp: 0,
        at: 0,
    };
    let task = Task {
        nr_dirtied: 250,
        nr_dirtied_pause: 250,
        paused_when: 4999,
    };
    strict_decide(&reads, &estimate, task, 5000)
}

#[test]
fn is_free_up_to_its_middle(rt: HostRuntime) {
    let free = told(17492, 749, None);
    assert!(rt; free.kind == Kind::Free);
    assert_eq!(rt; (free.pause, free.left, free.exceeded), (0, 8, false));
    let held = told(17492, 750, None);
    assert!(rt; held.kind == Kind::Go);
}

#[test]
fn pauses_between_its_middle_and_its_threshold(rt: HostRuntime) {
    let decision = told(17492, 900, None);
    assert!(rt; decision.kind == Kind::Go);
    assert_eq!(rt; (decision.pause, decision.exceeded), (5, false));
}

#[test]
fn waits_over_its_threshold_however_empty_the_domain(rt: HostRuntime) {
    let decision = told(1001, 1001, None);
    assert!(rt; decision.kind == Kind::Wait);
    assert_eq!(rt;
        (decision.pause, decision.left, decision.exceeded),
        (5, 0, true)
    );
}

#[test]
fn exempts_a_context_that_may_be_all_error(rt: HostRuntime) {
    let part = Some(domain(17492, 50));
    let exempt = told(17492, 96, part);
    assert!(rt; exempt.kind == Kind::Exempt);
    assert!(rt; exempt.exceeded);
    let wait = told(17492, 97, part);
    assert!(rt; wait.kind == Kind::Wait);
}

#[test]
fn is_held_to_its_part_of_a_cgroup(rt: HostRuntime) {
    let decision = told(17492, 500, Some(domain(0, 600)));
    assert!(rt; decision.kind == Kind::Go);
    assert!(rt; told(17492, 500, None).kind == Kind::Free);
}

#[test]
fn asks_for_room_in_the_domain(rt: HostRuntime) {
    assert!(rt; told(19995, 700, None).kind == Kind::Free);
    assert!(rt; told(19996, 700, None).kind == Kind::Wait);
}
