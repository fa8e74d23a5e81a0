//! What lines say of a device, a context or a task that stands in a line before them.

use crate::traces::{trace_of, written};
use std::test::Fail;
use wbt_trace::{Context, Device, FirstEstimate, Pace, TaskLine};

// Two strict devices of three, each line as early as its device is known or later.
static STRICT: &[u8] =
    b"cpus 1\ndevice 0 7 0 100\ndevice 1 8 0 100\nstrict 1\ndevice 2 9 0 100\ncontext 0 0 0\nstrict 0\nflusher 0 0 0\nflusher 1 1 0\nflusher 2 2 0\navail 0 9\n";

static STRICT_WRITTEN: &[u8] =
    b"cpus 1\ncap 1024\nset dirty_ratio 20\nset dirty_background_ratio 10\nset dirty_bytes 0\nset dirty_background_bytes 0\navail 0 9\ndevice 0 7 0 100\ndevice 1 8 0 100\ndevice 2 9 0 100\nstrict 0\nstrict 1\ncontext 0 0 0\nflusher 0 0 0\nflusher 1 1 0\nflusher 2 2 0\n";

fn device(rate: u64, strict: bool, chunk: Option<u32>) -> Device {
    Device {
        rate,
        min: 0,
        max: 100,
        strict,
        chunk,
        cyclic: false,
    }
}

fn cyclic_device(rate: u64, strict: bool, chunk: Option<u32>) -> Device {
    Device {
        rate,
        min: 0,
        max: 100,
        strict,
        chunk,
        cyclic: true,
    }
}

#[test]
fn a_device_is_strict_where_a_line_says_so(rt: HostRuntime) -> Result<(), Fail> {
    let trace = trace_of(rt.alloc(), STRICT)?;
    assert_eq!(rt;
        trace.devices.as_slice(),
        [
            device(7, true, None),
            device(8, true, None),
            device(9, false, None)
        ]
        .as_slice()
    );
    let found = written(rt.alloc(), STRICT)?;
    assert_eq!(rt; found.as_slice(), STRICT_WRITTEN);
    Ok(())
}

// Two devices of three have a chunk, one of which is strict too, each line as early as its device is known or later.
static CHUNKS: &[u8] =
    b"cpus 1\ndevice 0 7 0 100\ndevice 1 8 0 100\nchunk 1 2097152\ndevice 2 9 0 100\ncontext 0 0 0\nchunk 0 1\nstrict 1\nflusher 0 0 0\nflusher 1 1 0\nflusher 2 2 0\navail 0 9\n";

static CHUNKS_WRITTEN: &[u8] =
    b"cpus 1\ncap 1024\nset dirty_ratio 20\nset dirty_background_ratio 10\nset dirty_bytes 0\nset dirty_background_bytes 0\navail 0 9\ndevice 0 7 0 100\ndevice 1 8 0 100\ndevice 2 9 0 100\nstrict 1\nchunk 0 1\nchunk 1 2097152\ncontext 0 0 0\nflusher 0 0 0\nflusher 1 1 0\nflusher 2 2 0\n";

#[test]
fn a_device_has_the_chunk_that_its_line_says(rt: HostRuntime) -> Result<(), Fail> {
    let trace = trace_of(rt.alloc(), CHUNKS)?;
    assert_eq!(rt;
        trace.devices.as_slice(),
        [
            device(7, false, Some(1)),
            device(8, true, Some(2097152)),
            device(9, false, None)
        ]
        .as_slice()
    );
    let found = written(rt.alloc(), CHUNKS)?;
    assert_eq!(rt; found.as_slice(), CHUNKS_WRITTEN);
    Ok(())
}

// Two devices of three are cyclic, of which one is strict and has a chunk, each line as early as its device is known or later.
static CYCLIC: &[u8] =
    b"cpus 1\ndevice 0 7 0 100\ndevice 1 8 0 100\ncyclic 1\ndevice 2 9 0 100\ncontext 0 0 0\nchunk 1 5\ncyclic 0\nstrict 1\nchunk 2 6\nflusher 0 0 0\nflusher 1 1 0\nflusher 2 2 0\navail 0 9\n";

static CYCLIC_WRITTEN: &[u8] =
    b"cpus 1\ncap 1024\nset dirty_ratio 20\nset dirty_background_ratio 10\nset dirty_bytes 0\nset dirty_background_bytes 0\navail 0 9\ndevice 0 7 0 100\ndevice 1 8 0 100\ndevice 2 9 0 100\nstrict 1\nchunk 1 5\nchunk 2 6\ncyclic 0\ncyclic 1\ncontext 0 0 0\nflusher 0 0 0\nflusher 1 1 0\nflusher 2 2 0\n";

#[test]
fn a_device_is_cyclic_where_a_line_says_so(rt: HostRuntime) -> Result<(), Fail> {
    let trace = trace_of(rt.alloc(), CYCLIC)?;
    assert_eq!(rt;
        trace.devices.as_slice(),
        [
            cyclic_device(7, false, None),
            cyclic_device(8, true, Some(5)),
            device(9, false, Some(6))
        ]
        .as_slice()
    );
    let found = written(rt.alloc(), CYCLIC)?;
    assert_eq!(rt; found.as_slice(), CYCLIC_WRITTEN);
    Ok(())
}

// Two contexts of three say after how long their inodes are due, each as early as the context is known or later.
static DUE: &[u8] =
    b"cpus 1\ndevice 0 7 0 100\ncontext 0 0 0\ncontext 1 0 0\nexpire 1 100000\ncontext 2 0 0\nflusher 0 0 0\nexpire 0 1\navail 0 9\n";

static DUE_WRITTEN: &[u8] =
    b"cpus 1\ncap 1024\nset dirty_ratio 20\nset dirty_background_ratio 10\nset dirty_bytes 0\nset dirty_background_bytes 0\navail 0 9\ndevice 0 7 0 100\ncontext 0 0 0\ncontext 1 0 0\ncontext 2 0 0\nexpire 0 1\nexpire 1 100000\nflusher 0 0 0\n";

fn context(expire: Option<u32>, estimate: Option<FirstEstimate>) -> Context {
    Context {
        device: 0,
        domain: 0,
        expire,
        estimate,
    }
}

#[test]
fn inodes_of_a_context_are_due_after_what_its_line_says(rt: HostRuntime) -> Result<(), Fail> {
    let trace = trace_of(rt.alloc(), DUE)?;
    assert_eq!(rt;
        trace.contexts.as_slice(),
        [
            context(Some(1), None),
            context(Some(100000), None),
            context(None, None)
        ]
        .as_slice()
    );
    let found = written(rt.alloc(), DUE)?;
    assert_eq!(rt; found.as_slice(), DUE_WRITTEN);
    Ok(())
}

// Two contexts of three say their first estimates, one of which says too when its inodes are due.
static FIRSTS: &[u8] =
    b"cpus 1\ndevice 0 7 0 100\ncontext 0 0 0\ncontext 1 0 0\nestimate 1 1099511627776 2 1\ncontext 2 0 0\nexpire 1 5\nflusher 0 0 0\nestimate 0 1 1 3\navail 0 9\n";

static FIRSTS_WRITTEN: &[u8] =
    b"cpus 1\ncap 1024\nset dirty_ratio 20\nset dirty_background_ratio 10\nset dirty_bytes 0\nset dirty_background_bytes 0\navail 0 9\ndevice 0 7 0 100\ncontext 0 0 0\ncontext 1 0 0\ncontext 2 0 0\nexpire 1 5\nestimate 0 1 1 3\nestimate 1 1099511627776 2 1\nflusher 0 0 0\n";

#[test]
fn a_context_has_the_first_estimate_that_its_line_says(rt: HostRuntime) -> Result<(), Fail> {
    let trace = trace_of(rt.alloc(), FIRSTS)?;
    let first = FirstEstimate {
        bandwidth: 1,
        average: 1,
        ratelimit: 3,
    };
    let second = FirstEstimate {
        bandwidth: 1099511627776,
        average: 2,
        ratelimit: 1,
    };
    assert_eq!(rt;
        trace.contexts.as_slice(),
        [
            context(None, Some(first)),
            context(Some(5), Some(second)),
            context(None, None)
        ]
        .as_slice()
    );
    let found = written(rt.alloc(), FIRSTS)?;
    assert_eq!(rt; found.as_slice(), FIRSTS_WRITTEN);
    Ok(())
}

// Two tasks of three have a pace, at either end of its ranges, each as early as its task is known or later.
static PACES: &[u8] =
    b"cpus 2\ndevice 0 7 0 100\ntask 0 0\ntask 1 1\npace 1 2097152 1000000000000\ntask 2 0\nflusher 0 0 0\npace 0 1 1\navail 0 9\n";

static PACES_WRITTEN: &[u8] =
    b"cpus 2\ncap 1024\nset dirty_ratio 20\nset dirty_background_ratio 10\nset dirty_bytes 0\nset dirty_background_bytes 0\navail 0 9\ndevice 0 7 0 100\ntask 0 0\ntask 1 1\ntask 2 0\npace 0 1 1\npace 1 2097152 1000000000000\nflusher 0 0 0\n";

#[test]
fn a_task_has_the_pace_that_its_line_says(rt: HostRuntime) -> Result<(), Fail> {
    let trace = trace_of(rt.alloc(), PACES)?;
    let quick = Pace { pages: 1, ticks: 1 };
    let slow = Pace {
        pages: 2097152,
        ticks: 1000000000000,
    };
    assert_eq!(rt;
        trace.tasks.as_slice(),
        [
            TaskLine {
                cpu: 0,
                pace: Some(quick)
            },
            TaskLine {
                cpu: 1,
                pace: Some(slow)
            },
            TaskLine { cpu: 0, pace: None }
        ]
        .as_slice()
    );
    let found = written(rt.alloc(), PACES)?;
    assert_eq!(rt; found.as_slice(), PACES_WRITTEN);
    Ok(())
}
