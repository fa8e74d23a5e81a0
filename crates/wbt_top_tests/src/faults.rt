//! The table of faults: texts that are cut, a source and a sink of one byte a call that fail, each with its status and its bytes.

use super::worked::{EMPTY, EMPTY_TEXT};
use plain_in_use::{Outcome, run, serve};
use std::alloc::Global;
use std::test::Fail;
use wbt_io::{MemSink, MemSource};
use wbt_top_plain::Status;
use wbt_trace_text::{Missing, TraceFault};

// The empty trace, and a task that writes two pages.
pub(super) const TWO_PAGES: &str =
    "cpus 1\navail 0 100000\ndevice 0 25600 0 100\ncontext 0 0 0\ninode 0 0 2\ntask 0 0\nflusher 0 0 0\nwrite 0 0 0 2\n";

const TWO_PAGES_TEXT: &str =
    "timer\nlimits 0 1 19995 9985 19995\ncpu 0\nwrite 0 0 fresh\nwrite 0 1 fresh\nclaim 0 0\nclaim 0 1\nbatch 0 2 1 2\ndone 0 0\ndone 0 1\nshare 0 0 2\nsteps\nstep 1 0 dirty 1 21067\nstep 2 0 add 1 21067\nstep 3 0 add 1 21067\nstep 4 0 mark 1 21067\nstep 5 0 first 1 21067\nstep 6 0 middle 1 21067\nstep 7 0 limits 1 21067\nstep 8 0 count 1 21067\nstep 9 0 dirty 2 21067\nstep 10 0 add 2 21067\nstep 11 0 add 2 21067\nstep 12 0 mark 2 21067\nstep 13 0 unmark 2 21067\nstep 14 0 look 2 21067\nstep 15 0 claim 2 21067\nstep 16 0 look 2 21067\nstep 17 0 claim 2 21067\nstep 18 0 complete 1 21067\nstep 19 0 add 1 21067\nstep 20 0 add 1 21067\nstep 21 0 complete 0 21067\nstep 22 0 add 0 21067\nstep 23 0 add 0 21067\ncensus 0 0\ntotals 2 2\nend done\n";

// A replay by a source and a sink of one byte a call, which fail at these calls.
fn replay_by_bytes(
    alloc: Global,
    text: &str,
    read_fails: u64,
    write_fails: u64,
) -> Result<Outcome, Fail> {
    let bytes = text.as_bytes().to_vec(alloc)?;
    let source = MemSource::make(bytes, 1, [read_fails].to_vec(alloc)?);
    let sink = MemSink::make(alloc, 4096, 1, [write_fails].to_vec(alloc)?)?;
    serve(alloc, &["replay"], source, sink)
}

// The line in which a text ends, counted from 1, where it has no line feed.
fn last_line(text: &str) -> u64 {
    let mut line: u64 = 1;
    for byte in text.as_bytes() {
        if *byte == b'\n' {
            line = line.saturating_add(1);
        }
    }
    line
}

// What comes of the trace that is cut so, and what is then written. A machine without a device needs no flusher.
fn wanted(text: &str) -> (Status, &str) {
    let missing = |what: Missing| Status::BadTrace(TraceFault::Missing { what });
    if text == EMPTY || text == "cpus 1\navail 0 100000\n" {
        (Status::Good, EMPTY_TEXT)
    } else if text == TWO_PAGES {
        (Status::Good, TWO_PAGES_TEXT)
    } else if text.is_empty() {
        (missing(Missing::Cpus), "")
    } else if text == "cpus 1\n" {
        (missing(Missing::Avail), "")
    } else if text.ends_with('\n') {
        (missing(Missing::Flusher), "")
    } else {
        let line = last_line(text);
        (Status::BadTrace(TraceFault::BadLine { line }), "")
    }
}

#[test]
fn a_trace_that_is_cut_is_refused_unless_it_is_one(rt: HostRuntime) -> Result<(), Fail> {
    for cut in 0..=TWO_PAGES.len() {
        if let Some(text) = TWO_PAGES.get(..cut) {
            let done = run(rt.alloc(), "replay", text)?;
            let (status, held) = wanted(text);
            assert_eq!(rt; done.status, status, "cut at {cut}");
            assert_eq!(rt; done.held.as_slice(), held.as_bytes(), "cut at {cut}");
        }
    }
    Ok(())
}

#[test]
fn a_source_that_fails_early_is_told(rt: HostRuntime) -> Result<(), Fail> {
    for fails in 1..=3u64 {
        let failed = replay_by_bytes(rt.alloc(), TWO_PAGES, fails, 0)?;
        assert_eq!(rt; failed.status, Status::ReadFault, "at read {fails}");
        assert!(rt; failed.held.is_empty(), "at read {fails}");
    }
    Ok(())
}

#[test]
fn a_sink_that_fails_early_holds_what_it_took_before(rt: HostRuntime) -> Result<(), Fail> {
    for (fails, held) in [(1, ""), (2, "t"), (3, "ti"), (4, "tim")] {
        let failed = replay_by_bytes(rt.alloc(), TWO_PAGES, 0, fails)?;
        assert_eq!(rt; failed.status, Status::WriteFault, "at write {fails}");
        assert_eq!(rt; failed.held.as_slice(), held.as_bytes(), "at write {fails}");
    }
    let whole = replay_by_bytes(rt.alloc(), TWO_PAGES, 0, 0)?;
    assert_eq!(rt; whole.status, Status::Good);
    assert_eq!(rt; whole.held.as_slice(), TWO_PAGES_TEXT.as_bytes());
    Ok(())
}
