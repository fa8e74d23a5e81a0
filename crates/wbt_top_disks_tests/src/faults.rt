//! Runs over disks that fail: pages that are given back and written later, and the eighth failure, which ends a run.

use plain_in_use::Outcome;
use std::alloc::Global;
use std::sync::Wait;
use std::test::Fail;
use std::thread::Threads;
use top_in_use::{Input, SlowClock, TWO_PAGES, call, calm};
use wbt_io::{FaultyRack, FreeGate};
use wbt_top_plain::{Status, code};

// How many lines of a text are this one.
fn lines_like(text: &[u8], line: &str) -> u64 {
    let mut lines: u64 = 0;
    for found in text.split(|byte| *byte == b'\n') {
        if found == line.as_bytes() {
            lines = lines.saturating_add(1);
        }
    }
    lines
}

// A text has this part.
fn has_part(text: &[u8], part: &[u8]) -> bool {
    for start in 0..=text.len() {
        if let Some(rest) = text.get(start..) {
            if rest.starts_with(part) {
                return true;
            }
        }
    }
    false
}

// A hundred pages, which the disk gets in one batch: so few are written in the drain alone.
const HUNDRED_PAGES: &str =
    "cpus 1\navail 0 100000\ndevice 0 100000 0 100\ncontext 0 0 0\ninode 0 0 100\ntask 0 0\nflusher 0 0 0\nwrite 0 0 0 100\n";

// A run over disks that fail at some writes.
fn run_faulty<H: Threads + Wait + Sync>(
    rt: &H,
    alloc: Global,
    text: &str,
    rack: &mut FaultyRack,
) -> Result<Outcome, Fail> {
    call(
        rt,
        alloc,
        &calm(&["run"], text),
        &SlowClock::make(),
        &FreeGate,
        rack,
    )
}

#[test]
fn a_disk_that_fails_once_has_its_pages_given_back(rt: HostRuntime) -> Result<(), Fail> {
    let alloc = rt.alloc();
    let mut rack = FaultyRack::make([1].to_vec(alloc)?);
    let done = run_faulty(&rt, alloc, TWO_PAGES, &mut rack)?;
    assert_eq!(rt; done.status, Status::Good);
    assert_eq!(rt; (rack.fault_count(), rack.page_count()), (1, 2));
    assert!(rt;
        has_part(
            done.held.as_slice(),
            b"claim 0 0\nclaim 0 1\nfault 0 2\nback 0 0 dirty\nback 0 1 dirty\nclaim 0 0\nclaim 0 1\nbatch 0 2 "
        )
    );
    assert!(rt;
        done.held.ends_with(b"done 0 0\ndone 0 1\nshare 0 0 2\ncensus 0 0\ntotals 2 2\nend done\n")
    );
    Ok(())
}

#[test]
fn a_large_batch_that_fails_is_told_and_given_back(rt: HostRuntime) -> Result<(), Fail> {
    let alloc = rt.alloc();
    let mut rack = FaultyRack::make([1].to_vec(alloc)?);
    let done = run_faulty(&rt, alloc, HUNDRED_PAGES, &mut rack)?;
    assert_eq!(rt; done.status, Status::Good);
    assert_eq!(rt; (rack.fault_count(), rack.page_count()), (1, 100));
    assert_eq!(rt; lines_like(done.held.as_slice(), "fault 0 100"), 1);
    assert!(rt;
        done.held
            .ends_with(b"census 0 0\ntotals 100 100\nend done\n")
    );
    Ok(())
}

#[test]
fn a_disk_that_fails_seven_times_writes_all_at_last(rt: HostRuntime) -> Result<(), Fail> {
    let alloc = rt.alloc();
    let mut rack = FaultyRack::make([1, 2, 3, 4, 5, 6, 7].to_vec(alloc)?);
    let done = run_faulty(&rt, alloc, TWO_PAGES, &mut rack)?;
    assert_eq!(rt; done.status, Status::Good);
    assert_eq!(rt; (rack.fault_count(), rack.page_count()), (7, 2));
    assert_eq!(rt; lines_like(done.held.as_slice(), "fault 0 2"), 7);
    assert!(rt; done.held.ends_with(b"census 0 0\ntotals 2 2\nend done\n"));
    Ok(())
}

#[test]
fn a_disk_that_fails_eight_times_is_told_with_what_is_left(rt: HostRuntime) -> Result<(), Fail> {
    let alloc = rt.alloc();
    let mut rack = FaultyRack::make([1, 2, 3, 4, 5, 6, 7, 8].to_vec(alloc)?);
    let faulted = run_faulty(&rt, alloc, TWO_PAGES, &mut rack)?;
    assert_eq!(rt; faulted.status, Status::DiskFault);
    assert_eq!(rt; code(&faulted.status), 5);
    assert_eq!(rt; (rack.fault_count(), rack.page_count()), (8, 0));
    assert_eq!(rt; lines_like(faulted.held.as_slice(), "fault 0 2"), 8);
    assert_eq!(rt; lines_like(faulted.held.as_slice(), "back 0 0 dirty"), 7);
    assert!(rt;
        faulted.held.ends_with(
            b"left 0 writeback\nleft 1 writeback\ncensus 0 2\ntotals 2 0\nend faulted\n"
        )
    );
    Ok(())
}

#[test]
fn a_bulk_run_over_disks_that_fail_cleans_all(rt: HostRuntime) -> Result<(), Fail> {
    let alloc = rt.alloc();
    let mut rack = FaultyRack::make([1, 3].to_vec(alloc)?);
    let done = call(
        &rt,
        alloc,
        &calm(&["bulk", "1000"], ""),
        &SlowClock::make(),
        &FreeGate,
        &mut rack,
    )?;
    assert_eq!(rt; done.status, Status::Good);
    assert_eq!(rt;
        done.held.as_slice(),
        b"bulk 1000 dirtied 1000 cleaned 1000 left 0\n".as_slice()
    );
    assert!(rt; 1 <= rack.fault_count());
    Ok(())
}

#[test]
fn a_disk_that_fails_stands_before_a_sink_that_fails(rt: HostRuntime) -> Result<(), Fail> {
    let alloc = rt.alloc();
    let input = Input {
        words: &["run"],
        text: TWO_PAGES,
        read_fails: 0,
        write_fails: 1,
    };
    let faulted = call(
        &rt,
        alloc,
        &input,
        &SlowClock::make(),
        &FreeGate,
        &mut FaultyRack::make([1, 2, 3, 4, 5, 6, 7, 8].to_vec(alloc)?),
    )?;
    assert_eq!(rt; faulted.status, Status::DiskFault);
    assert!(rt; faulted.held.is_empty());
    Ok(())
}
