//! Each number of a trace is taken at the ends of its range, and refused one past them; and how many lines there may be.

use crate::traces::{fault_of, with_lines};
use std::alloc::{AllocError, Global};
use std::test::Fail;
use wbt_trace_text::TraceFault;

// One of each thing, with 64 CPUs and an inode of nine pages. What follows is line 9.
static FRONT: &[u8] =
    b"cpus 64\navail 0 5\ndevice 0 1 60 100\ncgroup 1 0 0\ncontext 0 0 1\ninode 0 0 9\ntask 0 63\nflusher 0 0 63\n";

// Lines at the ends of the ranges. A device that has no flusher yet is missing one, and its line is taken.
static TAKEN: [&[u8]; 46] = [
    b"cap 1\n",
    b"cap 1024\n",
    b"set dirty_ratio 0\n",
    b"set dirty_ratio 100\n",
    b"set dirty_background_ratio 0\n",
    b"set dirty_background_ratio 100\n",
    b"set dirty_bytes 0\n",
    b"set dirty_bytes 281474976710656\n",
    b"set dirty_background_bytes 0\n",
    b"set dirty_background_bytes 281474976710656\n",
    b"avail 1 0\n",
    b"avail 1000000000000 1099511627776\n",
    b"device 1 1 0 0\n",
    b"device 1 1048576 40 100\n",
    b"device 1 7 40 40\n",
    b"strict 0\n",
    b"chunk 0 1\n",
    b"chunk 0 2097152\n",
    b"cyclic 0\n",
    b"cgroup 2 0 0\n",
    b"cgroup 2 1099511627776 1099511627776\n",
    b"context 1 0 0\n",
    b"context 1 0 1\n",
    b"expire 0 1\n",
    b"expire 0 100000\n",
    b"estimate 0 1 1 1\n",
    b"estimate 0 1099511627776 1099511627776 1099511627776\n",
    b"inode 1 0 1\n",
    b"inode 1 0 2097143\n",
    b"task 1 0\n",
    b"task 1 63\n",
    b"pace 0 1 1\n",
    b"pace 0 2097152 1000000000000\n",
    b"flusher 1 0 0\n",
    b"write 0 0 0 9\n",
    b"write 0 0 8 1\n",
    b"rest 0 1\n",
    b"rest 0 1000000000000\n",
    b"order 0 1\n",
    b"order 63 1000000000000\n",
    b"order timer 1\n",
    b"order timer 1000000000000\n",
    b"tick 1\n",
    b"tick 1000000000000\n",
    b"halt 0\n",
    b"halt 1000000000000\n",
];

// Lines with a number that is one past the end of its range.
static PAST: [&[u8]; 53] = [
    b"cap 0\n",
    b"cap 1025\n",
    b"set dirty_ratio 101\n",
    b"set dirty_background_ratio 101\n",
    b"set dirty_bytes 281474976710657\n",
    b"set dirty_background_bytes 281474976710657\n",
    b"avail 0 5\n",
    b"avail 1000000000001 5\n",
    b"avail 1 1099511627777\n",
    b"device 1 0 0 100\n",
    b"device 1 1048577 0 100\n",
    b"device 1 1 0 101\n",
    b"device 1 1 40 39\n",
    b"device 1 1 41 100\n",
    b"device 2 1 0 100\n",
    b"chunk 0 0\n",
    b"chunk 0 2097153\n",
    b"cgroup 2 1099511627777 0\n",
    b"cgroup 2 0 1099511627777\n",
    b"cgroup 3 0 0\n",
    b"context 2 0 0\n",
    b"expire 0 0\n",
    b"expire 0 100001\n",
    b"estimate 0 0 1 1\n",
    b"estimate 0 1 0 1\n",
    b"estimate 0 1 1 0\n",
    b"estimate 0 1099511627777 1 1\n",
    b"estimate 0 1 1099511627777 1\n",
    b"estimate 0 1 1 1099511627777\n",
    b"inode 1 0 0\n",
    b"inode 1 0 2097153\n",
    b"inode 2 0 1\n",
    b"task 1 64\n",
    b"task 2 0\n",
    b"pace 0 0 1\n",
    b"pace 0 2097153 1\n",
    b"pace 0 1 0\n",
    b"pace 0 1 1000000000001\n",
    b"flusher 1 0 64\n",
    b"flusher 2 0 0\n",
    b"write 0 0 0 0\n",
    b"write 0 0 0 10\n",
    b"write 0 0 9 1\n",
    b"rest 0 0\n",
    b"rest 0 1000000000001\n",
    b"order 64 1\n",
    b"order 0 0\n",
    b"order 0 1000000000001\n",
    b"order timer 0\n",
    b"order timer 1000000000001\n",
    b"tick 0\n",
    b"tick 1000000000001\n",
    b"halt 1000000000001\n",
];

// Lines that name a thing one past the last, and one that makes a page too many.
static OTHERS: [(&[u8], TraceFault); 14] = [
    (b"strict 1\n", TraceFault::UnknownName { line: 9 }),
    (b"chunk 1 1\n", TraceFault::UnknownName { line: 9 }),
    (b"cyclic 1\n", TraceFault::UnknownName { line: 9 }),
    (b"context 1 1 0\n", TraceFault::UnknownName { line: 9 }),
    (b"context 1 0 2\n", TraceFault::UnknownName { line: 9 }),
    (b"expire 1 1\n", TraceFault::UnknownName { line: 9 }),
    (b"estimate 1 1 1 1\n", TraceFault::UnknownName { line: 9 }),
    (b"inode 1 1 1\n", TraceFault::UnknownName { line: 9 }),
    (b"pace 1 1 1\n", TraceFault::UnknownName { line: 9 }),
    (b"flusher 1 1 0\n", TraceFault::UnknownName { line: 9 }),
    (b"write 1 0 0 1\n", TraceFault::UnknownName { line: 9 }),
    (b"write 0 1 0 1\n", TraceFault::UnknownName { line: 9 }),
    (b"rest 1 1\n", TraceFault::UnknownName { line: 9 }),
    (b"inode 1 0 2097144\n", TraceFault::Limit { line: 9 }),
];

// The fault of the text with this line after the front, if there is one.
fn fault_after_front(alloc: Global, line: &[u8]) -> Result<Option<TraceFault>, AllocError> {
    let text = with_lines(alloc, FRONT, line, 1)?;
    Ok(fault_of(alloc, text.as_slice()))
}

#[test]
fn a_number_at_an_end_of_its_range_is_taken(rt: HostRuntime) -> Result<(), Fail> {
    for line in TAKEN.iter() {
        let fault = fault_after_front(rt.alloc(), line)?;
        assert!(rt; matches!(fault, None | Some(TraceFault::Missing { .. })));
    }
    Ok(())
}

#[test]
fn a_number_past_an_end_of_its_range_is_refused(rt: HostRuntime) -> Result<(), Fail> {
    for line in PAST.iter() {
        let fault = fault_after_front(rt.alloc(), line)?;
        assert_eq!(rt; fault, Some(TraceFault::OutOfRange { line: 9 }));
    }
    Ok(())
}

#[test]
fn a_line_that_names_one_past_the_last_is_refused(rt: HostRuntime) -> Result<(), Fail> {
    for (line, wanted) in OTHERS.iter() {
        let fault = fault_after_front(rt.alloc(), line)?;
        assert_eq!(rt; fault, Some(*wanted));
    }
    Ok(())
}

// The fault of the text with as many writes and rests as there may be, and then this line.
fn fault_after_most(alloc: Global, line: &[u8]) -> Result<Option<TraceFault>, AllocError> {
    let most = with_lines(alloc, FRONT, b"rest 0 1\nwrite 0 0 0 9\n", 32768)?;
    let text = with_lines(alloc, most.as_slice(), line, 1)?;
    Ok(fault_of(alloc, text.as_slice()))
}

#[test]
fn a_write_or_a_rest_after_65536_of_them_is_too_many(rt: HostRuntime) -> Result<(), Fail> {
    for line in [b"rest 0 1\n".as_slice(), b"write 0 0 0 1\n"] {
        let fault = fault_after_most(rt.alloc(), line)?;
        assert_eq!(rt; fault, Some(TraceFault::Limit { line: 65545 }));
    }
    Ok(())
}
