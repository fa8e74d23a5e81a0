//! Texts that are read, and the first fault of texts that are refused.

use std::alloc::{AllocError, Global};
use std::test::Fail;
use wbt_trace::{Action, Inode, Trace, generate};
use wbt_trace_text::{Missing, TraceFault, read_trace, write_trace};

// A text with a line of each kind, in the order in which a trace is written, and one with the same lines in another.
static EACH_KIND: &[u8] =
    b"cpus 2\ncap 5\nset dirty_ratio 30\nset dirty_background_ratio 15\nset dirty_bytes 4096\nset dirty_background_bytes 8192\navail 0 100\navail 7 200\ndevice 0 128 0 100\nstrict 0\nchunk 0 6\ncyclic 0\ncgroup 1 1000 2000\ncontext 0 0 1\nexpire 0 50\nestimate 0 7 8 9\ninode 0 0 3\ninode 1 0 4\ntask 0 1\npace 0 3 8\nflusher 0 0 0\nwrite 0 1 1 2\nrest 0 9\norder 0 3\norder timer 2\ntick 5\nhalt 11\n";

static ANOTHER_ORDER: &[u8] =
    b"halt 11\ncgroup 1 1000 2000\ndevice 0 128 0 100\ncontext 0 0 1\ncyclic 0\nestimate 0 7 8 9\ncpus 2\norder 0 3\ninode 0 0 3\ninode 1 0 4\nset dirty_background_bytes 8192\norder timer 2\ntask 0 1\nwrite 0 1 1 2\navail 0 100\nflusher 0 0 0\ntick 5\npace 0 3 8\nchunk 0 6\nstrict 0\nexpire 0 50\nrest 0 9\nset dirty_bytes 4096\navail 7 200\nset dirty_background_ratio 15\nset dirty_ratio 30\ncap 5\n";

// A text with the lines that must stand, and what is written of it.
static SHORT: &[u8] =
    b"cpus 1\navail 0 100000\ndevice 0 25600 0 100\ncontext 0 0 0\ninode 0 0 2\ntask 0 0\nflusher 0 0 0\n";

static SHORT_WRITTEN: &[u8] =
    b"cpus 1\ncap 1024\nset dirty_ratio 20\nset dirty_background_ratio 10\nset dirty_bytes 0\nset dirty_background_bytes 0\navail 0 100000\ndevice 0 25600 0 100\ncontext 0 0 0\ninode 0 0 2\ntask 0 0\nflusher 0 0 0\n";

// The trace of a text.
pub(super) fn trace_of(alloc: Global, text: &[u8]) -> Result<Trace, Fail> {
    Ok(read_trace(alloc, text)?)
}

// What is written of the trace of a text.
pub(super) fn written(alloc: Global, text: &[u8]) -> Result<Vec<u8>, Fail> {
    let trace = read_trace(alloc, text)?;
    Ok(write_trace(alloc, &trace)?)
}

// The fault of a text, if there is one.
pub(super) fn fault_of(alloc: Global, text: &[u8]) -> Option<TraceFault> {
    read_trace(alloc, text).err()
}

#[test]
fn what_is_read_is_written_in_order(rt: HostRuntime) -> Result<(), Fail> {
    for (text, wanted) in [
        (EACH_KIND, EACH_KIND),
        (ANOTHER_ORDER, EACH_KIND),
        (SHORT, SHORT_WRITTEN),
    ] {
        let found = written(rt.alloc(), text)?;
        assert_eq!(rt; found.as_slice(), wanted);
    }
    Ok(())
}

#[test]
fn pages_run_through_the_inodes(rt: HostRuntime) -> Result<(), Fail> {
    let trace = trace_of(rt.alloc(), EACH_KIND)?;
    assert_eq!(rt;
        trace.inodes.as_slice(),
        [
            Inode {
                context: 0,
                first: 0,
                pages: 3
            },
            Inode {
                context: 0,
                first: 3,
                pages: 4
            }
        ]
        .as_slice()
    );
    assert_eq!(rt;
        trace.actions.as_slice(),
        [
            Action::Write {
                task: 0,
                inode: 1,
                from: 1,
                pages: 2
            },
            Action::Rest { task: 0, ticks: 9 }
        ]
        .as_slice()
    );
    assert_eq!(rt; trace.halt, Some(11));
    Ok(())
}

static REFUSED: [(&[u8], TraceFault); 65] = [
    (
        b"",
        TraceFault::Missing {
            what: Missing::Cpus,
        },
    ),
    (
        b"cpus 1\n",
        TraceFault::Missing {
            what: Missing::Avail,
        },
    ),
    (
        b"cpus 1\navail 0 9\ndevice 0 9 0 100\n",
        TraceFault::Missing {
            what: Missing::Flusher,
        },
    ),
    (b"cpus 0\n", TraceFault::OutOfRange { line: 1 }),
    (b"cpus 65\n", TraceFault::OutOfRange { line: 1 }),
    (b"cpus 01\n", TraceFault::BadLine { line: 1 }),
    (b"cpus 1\ncpus 1\n", TraceFault::Twice { line: 2 }),
    (
        b"device 0 1 0 100\ncontext 0 1 0\n",
        TraceFault::UnknownName { line: 2 },
    ),
    (
        b"device 0 1 0 100\ndevice 2 1 0 100\n",
        TraceFault::OutOfRange { line: 2 },
    ),
    (b"cpus 1\ntask 0 0", TraceFault::BadLine { line: 2 }),
    (
        b"device 0 1 0 100\ndevice 1 1 0 100\ndevice 2 1 0 100\ndevice 3 1 0 100\ndevice 4 1 0 100\ndevice 5 1 0 100\ndevice 6 1 0 100\ndevice 7 1 0 100\ndevice 8 1 0 100\ndevice 9 1 0 100\ndevice 10 1 0 100\ndevice 11 1 0 100\ndevice 12 1 0 100\ndevice 13 1 0 100\ndevice 14 1 0 100\ndevice 15 1 0 100\ndevice 16 1 0 100\n",
        TraceFault::Limit { line: 17 },
    ),
    // Of two faults in a line the lower one is named, and of two faulty lines the first.
    (b"context 5 0 0\n", TraceFault::UnknownName { line: 1 }),
    (
        b"device 0 1 0 100\ndevice 0 0 0 100\n",
        TraceFault::Twice { line: 2 },
    ),
    (b"task 0 0\ncpus 0\n", TraceFault::UnknownName { line: 1 }),
    (b"cpus 1\ntask 0 1\n", TraceFault::OutOfRange { line: 2 }),
    (b"set dirty_ratio 101\n", TraceFault::OutOfRange { line: 1 }),
    (b"avail 1 9\n", TraceFault::OutOfRange { line: 1 }),
    (
        b"avail 0 9\navail 0 9\n",
        TraceFault::OutOfRange { line: 2 },
    ),
    (
        b"device 0 1 0 100\nstrict 0\nstrict 0\n",
        TraceFault::Twice { line: 3 },
    ),
    (
        b"device 0 1 0 100\nstrict 0\ndevice 1 1 0 100\nstrict 1\nstrict 0\n",
        TraceFault::Twice { line: 5 },
    ),
    (
        b"device 0 1 0 100\nstrict 1\n",
        TraceFault::UnknownName { line: 2 },
    ),
    (
        b"strict 0\ndevice 0 1 0 100\n",
        TraceFault::UnknownName { line: 1 },
    ),
    (
        b"device 0 1 0 100\nstrict\n",
        TraceFault::BadLine { line: 2 },
    ),
    (
        b"device 0 1 0 100\nstrict 0 0\n",
        TraceFault::BadLine { line: 2 },
    ),
    (
        b"device 0 1 0 100\ncontext 0 0 0\nexpire 0 7\nexpire 0 8\n",
        TraceFault::Twice { line: 4 },
    ),
    (
        b"device 0 1 0 100\ncontext 0 0 0\nexpire 0 7\ncontext 1 0 0\nexpire 1 7\nexpire 0 0\n",
        TraceFault::Twice { line: 6 },
    ),
    (
        b"device 0 1 0 100\ncontext 0 0 0\nexpire 1 0\n",
        TraceFault::UnknownName { line: 3 },
    ),
    (
        b"device 0 1 0 100\nexpire 0 7\ncontext 0 0 0\n",
        TraceFault::UnknownName { line: 2 },
    ),
    (
        b"device 0 1 0 100\ncontext 0 0 0\nexpire 0 100001\n",
        TraceFault::OutOfRange { line: 3 },
    ),
    (
        b"device 0 1 0 100\ncontext 0 0 0\nexpire 0\n",
        TraceFault::BadLine { line: 3 },
    ),
    (
        b"device 0 1 0 100\ncontext 0 0 0\nexpire 0 7 7\n",
        TraceFault::BadLine { line: 3 },
    ),
    (
        b"device 0 1 0 100\nchunk 0 5\nchunk 0 5\n",
        TraceFault::Twice { line: 3 },
    ),
    (
        b"device 0 1 0 100\nchunk 0 5\ndevice 1 1 0 100\nchunk 1 5\nchunk 0 0\n",
        TraceFault::Twice { line: 5 },
    ),
    (
        b"device 0 1 0 100\nchunk 1 0\n",
        TraceFault::UnknownName { line: 2 },
    ),
    (
        b"chunk 0 5\ndevice 0 1 0 100\n",
        TraceFault::UnknownName { line: 1 },
    ),
    (
        b"device 0 1 0 100\nchunk 0 2097153\n",
        TraceFault::OutOfRange { line: 2 },
    ),
    (
        b"device 0 1 0 100\nchunk 0\n",
        TraceFault::BadLine { line: 2 },
    ),
    (
        b"device 0 1 0 100\nchunk 0 5 5\n",
        TraceFault::BadLine { line: 2 },
    ),
    (
        b"device 0 1 0 100\ncontext 0 0 0\nestimate 0 7 7 7\nestimate 0 7 7 7\n",
        TraceFault::Twice { line: 4 },
    ),
    (
        b"device 0 1 0 100\ncontext 0 0 0\nestimate 0 7 7 7\ncontext 1 0 0\nestimate 1 7 7 7\nestimate 0 0 7 7\n",
        TraceFault::Twice { line: 6 },
    ),
    (
        b"device 0 1 0 100\ncontext 0 0 0\nestimate 1 0 7 7\n",
        TraceFault::UnknownName { line: 3 },
    ),
    (
        b"device 0 1 0 100\nestimate 0 7 7 7\ncontext 0 0 0\n",
        TraceFault::UnknownName { line: 2 },
    ),
    (
        b"device 0 1 0 100\ncontext 0 0 0\nestimate 0 7 0 7\n",
        TraceFault::OutOfRange { line: 3 },
    ),
    (
        b"device 0 1 0 100\ncontext 0 0 0\nestimate 0 7 7\n",
        TraceFault::BadLine { line: 3 },
    ),
    (
        b"device 0 1 0 100\ncontext 0 0 0\nestimate 0 7 7 7 7\n",
        TraceFault::BadLine { line: 3 },
    ),
    (
        b"device 0 1 0 100\ncyclic 0\ncyclic 0\n",
        TraceFault::Twice { line: 3 },
    ),
    (
        b"device 0 1 0 100\ncyclic 0\ndevice 1 1 0 100\ncyclic 1\ncyclic 0\n",
        TraceFault::Twice { line: 5 },
    ),
    (
        b"device 0 1 0 100\ncyclic 1\n",
        TraceFault::UnknownName { line: 2 },
    ),
    (
        b"cyclic 0\ndevice 0 1 0 100\n",
        TraceFault::UnknownName { line: 1 },
    ),
    (
        b"device 0 1 0 100\ncyclic\n",
        TraceFault::BadLine { line: 2 },
    ),
    (
        b"device 0 1 0 100\ncyclic 0 0\n",
        TraceFault::BadLine { line: 2 },
    ),
    (
        b"cpus 1\ntask 0 0\npace 0 2 50\npace 0 2 50\n",
        TraceFault::Twice { line: 4 },
    ),
    (
        b"cpus 1\ntask 0 0\npace 0 2 50\ntask 1 0\npace 1 2 50\npace 0 0 0\n",
        TraceFault::Twice { line: 6 },
    ),
    (
        b"cpus 1\ntask 0 0\npace 1 0 0\n",
        TraceFault::UnknownName { line: 3 },
    ),
    (
        b"cpus 1\npace 0 2 50\ntask 0 0\n",
        TraceFault::UnknownName { line: 2 },
    ),
    (
        b"cpus 1\ntask 0 0\npace 0 2097153 50\n",
        TraceFault::OutOfRange { line: 3 },
    ),
    (
        b"cpus 1\ntask 0 0\npace 0 2 0\n",
        TraceFault::OutOfRange { line: 3 },
    ),
    (
        b"cpus 1\ntask 0 0\npace 0 2\n",
        TraceFault::BadLine { line: 3 },
    ),
    (
        b"cpus 1\ntask 0 0\npace 0 2 50 50\n",
        TraceFault::BadLine { line: 3 },
    ),
    (b"cpus 1\n\navail 0 9\n", TraceFault::BadLine { line: 2 }),
    (b"cpus  1\n", TraceFault::BadLine { line: 1 }),
    (b"cpus 1 \n", TraceFault::BadLine { line: 1 }),
    (b"order timer\n", TraceFault::BadLine { line: 1 }),
    (
        b"tick 1000000000000000000\n",
        TraceFault::BadLine { line: 1 },
    ),
    (
        b"tick 999999999999999999\n",
        TraceFault::OutOfRange { line: 1 },
    ),
];

#[test]
fn the_first_fault_is_named(rt: HostRuntime) {
    for (text, fault) in REFUSED.iter() {
        assert_eq!(rt; fault_of(rt.alloc(), text), Some(*fault));
    }
}

// A text in its normal form, before its actions.
static LONG: &[u8] =
    b"cpus 64\ncap 1024\nset dirty_ratio 100\nset dirty_background_ratio 100\nset dirty_bytes 281474976710656\nset dirty_background_bytes 281474976710656\navail 0 1099511627776\ndevice 0 1048576 100 100\ncontext 0 0 0\ninode 0 0 2097152\ntask 0 63\nflusher 0 0 63\n";

// The text, and then so many times these lines.
pub(super) fn with_lines(
    alloc: Global,
    text: &[u8],
    lines: &[u8],
    times: usize,
) -> Result<Vec<u8>, AllocError> {
    let mut whole = text.to_vec(alloc)?;
    whole.extend_from_slice(lines.repeat(alloc, times)?.as_slice())?;
    Ok(whole)
}

// A text of 131085 lines, of which as many are actions and as many are orders as there may be.
fn long_text(alloc: Global) -> Result<Vec<u8>, AllocError> {
    let actions = b"write 0 0 2097151 1\nrest 0 1000000000000\n".as_slice();
    let orders = b"order 63 1000000000000\norder timer 1\n".as_slice();
    let acts = with_lines(alloc, LONG, actions, 32768)?;
    let ordered = with_lines(alloc, acts.as_slice(), orders, 32768)?;
    with_lines(alloc, ordered.as_slice(), b"halt 1000000000000\n", 1)
}

#[test]
fn a_trace_at_its_limits_is_read_and_written(rt: HostRuntime) -> Result<(), Fail> {
    let text = long_text(rt.alloc())?;
    let found = written(rt.alloc(), text.as_slice())?;
    assert!(rt; found.as_slice() == text.as_slice());
    Ok(())
}

#[test]
fn a_line_over_the_limit_is_named(rt: HostRuntime) -> Result<(), Fail> {
    let text = long_text(rt.alloc())?;
    let one_more = with_lines(rt.alloc(), text.as_slice(), b"tick 1\n", 1)?;
    let fault = fault_of(rt.alloc(), one_more.as_slice());
    assert_eq!(rt; fault, Some(TraceFault::Limit { line: 131086 }));
    Ok(())
}

#[test]
fn a_line_of_too_many_numbers_is_bad(rt: HostRuntime) -> Result<(), Fail> {
    let numbers = with_lines(rt.alloc(), b"write 0", b" 0", 100000)?;
    let line = with_lines(rt.alloc(), numbers.as_slice(), b"\n", 1)?;
    let fault = fault_of(rt.alloc(), line.as_slice());
    assert_eq!(rt; fault, Some(TraceFault::BadLine { line: 1 }));
    Ok(())
}

// What is written of the trace of a bulk run of six pages.
fn six_pages(alloc: Global) -> Result<Vec<u8>, Fail> {
    let trace = generate(alloc, 6)?;
    Ok(write_trace(alloc, &trace)?)
}

#[test]
fn six_pages_are_spread_over_four_inodes(rt: HostRuntime) -> Result<(), Fail> {
    let text = six_pages(rt.alloc())?;
    let wanted =
        b"cpus 4\ncap 1024\nset dirty_ratio 20\nset dirty_background_ratio 10\nset dirty_bytes 0\nset dirty_background_bytes 0\navail 0 2000000\ndevice 0 1048576 0 100\ndevice 1 1048576 0 100\ncyclic 0\ncyclic 1\ncontext 0 0 0\ncontext 1 1 0\ninode 0 0 2\ninode 1 1 2\ninode 2 0 1\ninode 3 1 1\ntask 0 0\ntask 1 0\ntask 2 1\ntask 3 1\nflusher 0 0 2\nflusher 1 1 3\nwrite 0 0 0 2\nwrite 1 1 0 2\nwrite 2 2 0 1\nwrite 3 3 0 1\n";
    assert_eq!(rt; text.as_slice(), wanted.as_slice());
    Ok(())
}
