//! What turns look up and decide.

ghost use Rattle.std.specs.Prelude.{◌^◌, ◌<◌};

use std::test::Fail;
use wbt_estimate::Estimate;
use wbt_limits::Pair;
use wbt_num::Limits;
use wbt_position::DomainRead;
use wbt_rules::{
    avail_at, chunk_at, chunk_of, context_of, due_after, first_estimate, is_ageing, is_over_own,
    is_within_chunk, limits_after, next_period, page_at, pause_of, periods_by, place_after,
    quota_of, since_after,
};
use wbt_trace::{Avail, Device, Pace, Trace};
use wbt_trace_text::read_trace;

// Two devices; a context of the second says after how long its inodes are due, and each of its two contexts has an inode.
static TEXT: &[u8] =
    b"cpus 1\navail 0 9\ndevice 0 7 0 100\ndevice 1 7 0 100\ncontext 0 0 0\ncontext 1 1 0\ncontext 2 1 0\nexpire 2 10\ninode 0 2 1\ninode 1 1 1\nflusher 0 0 0\nflusher 1 1 0\n";

// When the inode is due that was noticed at the moment; None where the trace doesn't have it.
fn due(trace: &Trace, inode: u32, since: u64) -> Option<u64>
    requires { since < 2 ^ 62 }
{
    if inode as usize >= trace.inodes.as_slice().len() {
        return None;
    }
    if context_of(trace, inode) as usize >= trace.contexts.as_slice().len() {
        return None;
    }
    Some(due_after(trace, inode, since))
}

#[test]
fn a_device_is_ageing_where_one_of_its_contexts_says_so(rt: HostRuntime) -> Result<(), Fail> {
    let trace = read_trace(rt.alloc(), TEXT)?;
    assert_eq!(rt; is_ageing(&trace, 0), false);
    assert_eq!(rt; is_ageing(&trace, 1), true);
    assert_eq!(rt; is_ageing(&trace, 2), false);
    Ok(())
}

#[test]
fn an_inode_is_due_after_what_its_context_says_or_thirty_seconds(
    rt: HostRuntime,
) -> Result<(), Fail> {
    let trace = read_trace(rt.alloc(), TEXT)?;
    assert_eq!(rt; due(&trace, 0, 1), Some(101));
    assert_eq!(rt; due(&trace, 1, 1), Some(30001));
    assert_eq!(rt; due(&trace, 2, 1), None);
    Ok(())
}

#[test]
fn a_chunk_is_half_a_second_in_steps_of_1024(rt: HostRuntime) -> Result<(), Fail> {
    assert_eq!(rt; chunk_of(25600, 1000000), 13312);
    assert_eq!(rt; chunk_of(25600, 19995), 3072);
    assert_eq!(rt; chunk_of(0, 0), 1024);
    Ok(())
}

// With how many pages a scan ends, where the device has such a line and the laws give 13312.
fn quota_by(chunk: Option<u32>) -> u64 {
    let device = Device {
        rate: 25600,
        min: 0,
        max: 100,
        strict: false,
        chunk,
        cyclic: false,
    };
    quota_of(&device, 25600, 1000000)
}

#[test]
fn a_devices_line_ends_a_scan_earlier_and_never_later(rt: HostRuntime) -> Result<(), Fail> {
    assert_eq!(rt; quota_by(None), 13312);
    assert_eq!(rt; quota_by(Some(2097152)), 13312);
    assert_eq!(rt; quota_by(Some(13311)), 13311);
    assert_eq!(rt; quota_by(Some(1)), 1);
    Ok(())
}

// The pages at which a scan of the five pages from 100 on looks, in order, that begins at a place of theirs.
fn looks_from(start: u32) -> [u32; 5]
    requires { start < 5 }
{
    [
        page_at(100, 5, start, 0),
        page_at(100, 5, start, 1),
        page_at(100, 5, start, 2),
        page_at(100, 5, start, 3),
        page_at(100, 5, start, 4),
    ]
}

#[test]
fn a_scan_goes_round_from_the_place_where_it_begins(rt: HostRuntime) -> Result<(), Fail> {
    assert_eq!(rt; looks_from(0), [100, 101, 102, 103, 104]);
    assert_eq!(rt; looks_from(3), [103, 104, 100, 101, 102]);
    assert_eq!(rt; looks_from(4), [104, 100, 101, 102, 103]);
    assert_eq!(rt; page_at(4294967295, 1, 0, 0), 4294967295);
    Ok(())
}

#[test]
fn a_scan_comes_to_the_place_after_its_last_page(rt: HostRuntime) -> Result<(), Fail> {
    let places = [
        place_after(5, 0, 0),
        place_after(5, 3, 1),
        place_after(5, 3, 2),
        place_after(5, 3, 5),
    ];
    assert_eq!(rt; places, [0, 4, 0, 3]);
    assert_eq!(rt; place_after(1, 0, 1), 0);
    assert_eq!(rt; place_after(4294967295, 4294967294, 4294967295), 4294967294);
    Ok(())
}

#[test]
fn a_task_rests_for_its_pace_once_it_has_written_its_pages(rt: HostRuntime) -> Result<(), Fail> {
    let pace = Some(Pace {
        pages: 2,
        ticks: 50,
    });
    assert_eq!(rt; pause_of(pace, 0), None);
    assert_eq!(rt; pause_of(pace, 1), None);
    assert_eq!(rt; pause_of(pace, 2), Some(50));
    assert_eq!(rt; pause_of(None, 2), None);
    assert_eq!(rt; since_after(pace, 1), 2);
    assert_eq!(rt; since_after(None, 1), 0);
    Ok(())
}

// The second device has a chunk; flusher and context 0 are its own, flusher and context 1 are of the first.
static CROSSED: &[u8] =
    b"cpus 1\navail 0 9\ndevice 0 7 0 100\ndevice 1 7 0 100\nchunk 1 3\ncontext 0 1 0\ncontext 1 0 0\nestimate 1 100 90 50\nflusher 0 1 0\nflusher 1 0 0\n";

#[test]
fn a_flusher_has_the_chunk_of_its_device(rt: HostRuntime) -> Result<(), Fail> {
    let trace = read_trace(rt.alloc(), CROSSED)?;
    assert_eq!(rt; chunk_at(&trace, 0), Some(3));
    assert_eq!(rt; chunk_at(&trace, 1), None);
    assert_eq!(rt; is_within_chunk(Some(3), 3), true);
    assert_eq!(rt; is_within_chunk(Some(3), 4), false);
    assert_eq!(rt; is_within_chunk(None, 4), true);
    Ok(())
}

// The first estimate of a context; None where the trace doesn't have it.
fn first_of(trace: &Trace, context: u32) -> Option<Estimate> {
    if context as usize >= trace.contexts.as_slice().len() {
        return None;
    }
    Some(first_estimate(trace, context, 7))
}

#[test]
fn a_context_begins_with_the_rates_of_its_line_or_with_25600(rt: HostRuntime) -> Result<(), Fail> {
    let trace = read_trace(rt.alloc(), CROSSED)?;
    let without = Estimate {
        version: 0,
        bw: 25600,
        avg: 25600,
        ratelimit: 25600,
        balanced: 25600,
        written_stamp: 0,
        dirtied_stamp: 0,
        at: 7,
    };
    let with = Estimate {
        version: 0,
        bw: 100,
        avg: 90,
        ratelimit: 50,
        balanced: 50,
        written_stamp: 0,
        dirtied_stamp: 0,
        at: 7,
    };
    assert_eq!(rt; first_of(&trace, 0), Some(without));
    assert_eq!(rt; first_of(&trace, 1), Some(with));
    assert_eq!(rt; first_of(&trace, 2), None);
    Ok(())
}

#[test]
fn a_limit_follows_its_threshold_down(rt: HostRuntime) -> Result<(), Fail> {
    let pair = Pair {
        thresh: 1000,
        bg: 500,
    };
    assert_eq!(rt; limits_after(pair, 0, 0).hard, 1000);
    assert_eq!(rt; limits_after(pair, 4200, 0).hard, 4100);
    assert_eq!(rt; limits_after(pair, 4200, 4190).hard, 4200);
    Ok(())
}

#[test]
fn the_last_line_that_has_come_tells_what_is_available(rt: HostRuntime) -> Result<(), Fail> {
    let lines = [Avail { from: 0, pages: 7 }, Avail { from: 5, pages: 3 }];
    assert_eq!(rt; avail_at(4, &lines), 7);
    assert_eq!(rt; avail_at(5, &lines), 3);
    assert_eq!(rt; avail_at(5, &[]), 0);
    Ok(())
}

#[test]
fn periods_that_went_by_unseen_come_at_once(rt: HostRuntime) -> Result<(), Fail> {
    for (now, period, come, next) in [
        (3000, 3001, 0, 3001),
        (3001, 3001, 1, 6001),
        (6000, 3001, 1, 6001),
        (9500, 3001, 3, 12001),
    ] {
        assert_eq!(rt; periods_by(now, period), come, "at {now}");
        assert_eq!(rt; next_period(now, period), next, "at {now}");
    }
    Ok(())
}

#[test]
fn a_context_is_over_its_part_of_the_background(rt: HostRuntime) -> Result<(), Fail> {
    let read = DomainRead {
        limits: Limits {
            thresh: 19995,
            bg: 9985,
            hard: 19995,
        },
        dirty: 3000,
        wb_thresh: 1000,
    };
    assert_eq!(rt; is_over_own(0, &read), false);
    assert_eq!(rt; is_over_own(499, &read), false);
    assert_eq!(rt; is_over_own(500, &read), true);
    Ok(())
}

#[test]
fn a_domain_without_pages_leaves_no_part(rt: HostRuntime) -> Result<(), Fail> {
    let read = DomainRead {
        limits: Limits {
            thresh: 0,
            bg: 0,
            hard: 0,
        },
        dirty: 0,
        wb_thresh: 0,
    };
    assert_eq!(rt; is_over_own(0, &read), false);
    assert_eq!(rt; is_over_own(1, &read), true);
    Ok(())
}
