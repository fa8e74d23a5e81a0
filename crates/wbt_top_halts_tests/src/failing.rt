//! Runs over disks that fail their first writes: pages are given back while tasks dirty them anew, and each page's ledger is even.

use super::ledger::adds_up;
use std::alloc::{AllocError, Global};
use std::sync::Wait;
use std::test::Fail;
use std::thread::Threads;
use top_in_use::{TWO_PAGES, call, calm, jumping_clock};
use wbt_io::{Clock, FaultyRack, FreeGate, HaltGate, HandClock};
use wbt_top_plain::Status;

// Four tasks on two CPUs write the same pages again and again, with rests after which a flusher that gave pages back may try again. It is
// on the CPU of two of them, so that they take turns, and writes back whatever there is.
const FOUR_WRITERS: &str =
    "cpus 2\nset dirty_background_bytes 4096\navail 0 100000\ndevice 0 25600 0 100\ncontext 0 0 0\ninode 0 0 64\ntask 0 0\ntask 1 0\ntask 2 1\ntask 3 1\nflusher 0 0 0\nwrite 0 0 0 64\nrest 0 100\nwrite 0 0 0 64\nrest 1 100\nwrite 1 0 56 8\nwrite 1 0 0 64\nrest 2 100\nwrite 2 0 0 64\nrest 3 1100\nwrite 3 0 32 32\nrest 0 1100\nwrite 0 0 0 64\nrest 1 2200\nwrite 1 0 0 64\nrest 2 3300\nwrite 2 0 0 64\nrest 3 3300\nwrite 3 0 0 64\n";

// Two tasks and a flusher on one CPU, whose disk takes 250 ticks for a page. At tick 101, or as soon as the clock is past it, both tasks write
// all pages anew, and the first batch is still in flight then, whoever moves the clock.
const TWO_WRITERS: &str =
    "cpus 1\nset dirty_background_bytes 4096\navail 0 100000\ndevice 0 4 0 100\ncontext 0 0 0\ninode 0 0 64\ntask 0 0\ntask 1 0\nflusher 0 0 0\nwrite 0 0 0 64\nrest 0 100\nwrite 0 0 0 64\nrest 1 100\nwrite 1 0 56 8\nwrite 1 0 0 64\n";

// No more pages are left than are in their two places.
const TWICE_ALL: u64 = 128;

// What came of a run, and the faults that its rack counted.
#[derive(Drop)]
struct Ran {
    status: Status,
    held: Vec<u8>,
    faults: u64,
}

// Disks that fail their first writes.
fn failing(alloc: Global, fails: u64) -> Result<FaultyRack, AllocError> {
    let mut calls = Vec::new(alloc);
    for call in 0..fails {
        calls.push(call.saturating_add(1))?;
    }
    Ok(FaultyRack::make(calls))
}

fn run<H: Threads + Wait + Sync, C: Clock + Sync>(
    rt: &H,
    alloc: Global,
    text: &str,
    clock: &C,
    fails: u64,
) -> Result<Ran, Fail> {
    let mut rack = failing(alloc, fails)?;
    let done = call(
        rt,
        alloc,
        &calm(&["run"], text),
        clock,
        &FreeGate,
        &mut rack,
    )?;
    Ok(Ran {
        status: done.status,
        held: done.held,
        faults: rack.fault_count(),
    })
}

// How many lines of a text begin so and end so.
fn lines_of(text: &[u8], begin: &[u8], end: &[u8]) -> u64 {
    let mut lines: u64 = 0;
    for line in text.split(|byte| *byte == b'\n') {
        if line.starts_with(begin) && line.ends_with(end) {
            lines = lines.saturating_add(1);
        }
    }
    lines
}

// All was done, each page's ledger is even, and just so many writes failed.
fn is_done(alloc: Global, ran: &Ran, faults: u64) -> Result<bool, AllocError> {
    let text = ran.held.as_slice();
    Ok(
        ran.status == Status::Good
            && ran.faults == faults
            && lines_of(text, b"fault 0 ", b"") == faults
            && text.ends_with(b"end done\n")
            && lines_of(text, b"census 0 0", b"") == 1
            && adds_up(alloc, text, 0)?,
    )
}

// The disk failed for good: what is left is told, and each page's ledger is even.
fn is_faulted(alloc: Global, ran: &Ran) -> Result<bool, AllocError> {
    let text = ran.held.as_slice();
    Ok(
        ran.status == Status::DiskFault
            && ran.faults == 8
            && lines_of(text, b"fault 0 ", b"") == 8
            && 1 <= lines_of(text, b"left ", b"")
            && text.ends_with(b"end faulted\n")
            && adds_up(alloc, text, TWICE_ALL)?,
    )
}

#[test]
fn seven_failures_leave_nothing_behind(rt: HostRuntime) -> Result<(), Fail> {
    let alloc = rt.alloc();
    let ran = run(&rt, alloc, FOUR_WRITERS, &HandClock::make(1), 7)?;
    assert!(rt; is_done(alloc, &ran, 7)?);
    assert!(rt; 1 <= lines_of(ran.held.as_slice(), b"back 0 ", b" dirty"));
    let jumped = run(&rt, alloc, FOUR_WRITERS, &jumping_clock(alloc)?, 7)?;
    assert!(rt; is_done(alloc, &jumped, 7)?);
    Ok(())
}

#[test]
fn pages_that_are_dirtied_anew_are_absorbed(rt: HostRuntime) -> Result<(), Fail> {
    let alloc = rt.alloc();
    let mut absorbed = false;
    for _run in 0..20 {
        if !absorbed {
            let ran = run(&rt, alloc, TWO_WRITERS, &HandClock::make(1), 7)?;
            assert!(rt; is_done(alloc, &ran, 7)?);
            absorbed = 1 <= lines_of(ran.held.as_slice(), b"back 0 ", b" absorbed");
        }
    }
    assert!(rt; absorbed);
    Ok(())
}

#[test]
fn eight_failures_are_told_with_what_is_left(rt: HostRuntime) -> Result<(), Fail> {
    let alloc = rt.alloc();
    let ran = run(&rt, alloc, FOUR_WRITERS, &HandClock::make(1), 8)?;
    assert!(rt; is_faulted(alloc, &ran)?);
    let jumped = run(&rt, alloc, FOUR_WRITERS, &jumping_clock(alloc)?, 8)?;
    assert!(rt; is_faulted(alloc, &jumped)?);
    Ok(())
}

// A run of two pages whose first write fails, stopped after so many steps: it adds up, and leaves no more than the two pages.
fn is_even_at<H: Threads + Wait + Sync>(rt: &H, alloc: Global, halt: u64) -> Result<bool, Fail> {
    let done = call(
        rt,
        alloc,
        &calm(&["run"], TWO_PAGES),
        &HandClock::make(1),
        &HaltGate { halt },
        &mut failing(alloc, 1)?,
    )?;
    Ok(done.status == Status::Good && adds_up(alloc, done.held.as_slice(), 2)?)
}

// The run makes fewer than sixty steps, of which the return makes five.
#[test]
fn a_return_is_stopped_at_each_of_its_steps(rt: HostRuntime) -> Result<(), Fail> {
    for halt in 0..60u64 {
        assert!(rt; is_even_at(&rt, rt.alloc(), halt)?);
    }
    Ok(())
}
