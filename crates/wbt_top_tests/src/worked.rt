//! The worked calls of the program, and what no clause says: that memory is enough.

use plain_in_use::{run, run_on, serve};
use std::alloc::Global;
use std::test::Fail;
use wbt_io::{MemSink, MemSource};
use wbt_num::MOST_INPUT;
use wbt_top_plain::{Status, code};
use wbt_trace_text::{Missing, TraceFault};

// A trace that writes nothing, up to its flusher, and the flusher.
pub(super) const MACHINE: &str =
    "cpus 1\navail 0 100000\ndevice 0 25600 0 100\ncontext 0 0 0\ninode 0 0 2\ntask 0 0\n";

pub(super) const EMPTY: &str =
    "cpus 1\navail 0 100000\ndevice 0 25600 0 100\ncontext 0 0 0\ninode 0 0 2\ntask 0 0\nflusher 0 0 0\n";

pub(super) const EMPTY_TEXT: &str =
    "timer\nlimits 0 1 19995 9985 19995\ncpu 0\ncensus 0 0\ntotals 0 0\nend done\n";

#[test]
fn a_trace_that_writes_nothing_is_replayed(rt: HostRuntime) -> Result<(), Fail> {
    let done = run(rt.alloc(), "replay", EMPTY)?;
    assert_eq!(rt; done.status, Status::Good);
    assert_eq!(rt; done.held.as_slice(), EMPTY_TEXT.as_bytes());
    Ok(())
}

#[test]
fn a_trace_is_checked_in_its_normal_form(rt: HostRuntime) -> Result<(), Fail> {
    let done = run(rt.alloc(), "check", EMPTY)?;
    assert_eq!(rt; done.status, Status::Good);
    let normal =
        "cpus 1\ncap 1024\nset dirty_ratio 20\nset dirty_background_ratio 10\nset dirty_bytes 0\nset dirty_background_bytes 0\navail 0 100000\ndevice 0 25600 0 100\ncontext 0 0 0\ninode 0 0 2\ntask 0 0\nflusher 0 0 0\n";
    assert_eq!(rt; done.held.as_slice(), normal.as_bytes());
    Ok(())
}

#[test]
fn a_law_text_is_decided(rt: HostRuntime) -> Result<(), Fail> {
    let text =
        "cpus 4\ncap 1024\nnow 5000\ntask 250 250 4999\nestimate 25600 25600\ncontext 17492\ndomain 19995 9985 19995 17492 19995\n";
    let done = run(rt.alloc(), "law", text)?;
    assert_eq!(rt; done.status, Status::Good);
    assert_eq!(rt;
        done.held.as_slice(),
        b"ratio 1023\ndecision go 8 250\ntask 0 250 5008\n".as_slice()
    );
    Ok(())
}

#[test]
fn words_that_are_no_command_are_refused(rt: HostRuntime) -> Result<(), Fail> {
    let none = run_on(rt.alloc(), &[], EMPTY, 0, 0)?;
    assert_eq!(rt; none.status, Status::BadWords);
    for word in ["Replay", "run", "bulk", "--help"] {
        let refused = run(rt.alloc(), word, EMPTY)?;
        assert_eq!(rt; refused.status, Status::BadWords);
        assert!(rt; refused.held.is_empty());
    }
    let two = run_on(rt.alloc(), &["replay", "replay"], EMPTY, 0, 0)?;
    assert_eq!(rt; two.status, Status::BadWords);
    Ok(())
}

#[test]
fn a_refused_trace_is_told_with_its_line(rt: HostRuntime) -> Result<(), Fail> {
    let empty = run(rt.alloc(), "replay", "")?;
    assert_eq!(rt;
        empty.status,
        Status::BadTrace(TraceFault::Missing {
            what: Missing::Cpus
        })
    );
    let no_flusher = run(rt.alloc(), "replay", MACHINE)?;
    assert_eq!(rt;
        no_flusher.status,
        Status::BadTrace(TraceFault::Missing {
            what: Missing::Flusher
        })
    );
    let misspelled = run(rt.alloc(), "check", "cpus 01\n")?;
    assert_eq!(rt;
        misspelled.status,
        Status::BadTrace(TraceFault::BadLine { line: 1 })
    );
    let too_many = run(rt.alloc(), "check", "cpus 65\n")?;
    assert_eq!(rt;
        too_many.status,
        Status::BadTrace(TraceFault::OutOfRange { line: 1 })
    );
    assert!(rt; too_many.held.is_empty());
    Ok(())
}

#[test]
fn a_refused_law_text_is_told_with_its_line(rt: HostRuntime) -> Result<(), Fail> {
    let wide = run(rt.alloc(), "law", "cpus 4\ncap 1025\nnow 5000\n")?;
    assert_eq!(rt;
        wide.status,
        Status::BadTrace(TraceFault::OutOfRange { line: 2 })
    );
    assert_eq!(rt; code(&wide.status), 2);
    assert!(rt; wide.held.is_empty());
    let short = run(rt.alloc(), "law", "cpus 4\ncap 1024\n")?;
    assert_eq!(rt;
        short.status,
        Status::BadTrace(TraceFault::BadLine { line: 3 })
    );
    let trace = run(rt.alloc(), "law", EMPTY)?;
    assert_eq!(rt;
        trace.status,
        Status::BadTrace(TraceFault::BadLine { line: 2 })
    );
    Ok(())
}

#[test]
fn a_run_whose_cpu_is_halted_is_replayed(rt: HostRuntime) -> Result<(), Fail> {
    let text =
        "cpus 1\navail 0 100000\ndevice 0 25600 0 100\ncontext 0 0 0\ninode 0 0 2\ntask 0 0\nflusher 0 0 0\nwrite 0 0 0 2\nhalt 3\n";
    let halted = run(rt.alloc(), "replay", text)?;
    assert_eq!(rt; halted.status, Status::Good);
    assert_eq!(rt;
        halted.held.as_slice(),
        b"timer\nlimits 0 1 19995 9985 19995\ncpu 0\nwrite 0 0 fresh\nsteps\nstep 1 0 dirty 1 21067\nstep 2 0 add 1 21067\nstep 3 0 add 1 21067\nleft 0 dirty\ncensus 1 0\ntotals 1 0\nend halted\n".as_slice()
    );
    Ok(())
}

#[test]
fn faults_are_told_and_nothing_more_is_written(rt: HostRuntime) -> Result<(), Fail> {
    let unread = run_on(rt.alloc(), &["replay"], EMPTY, 2, 0)?;
    assert_eq!(rt; unread.status, Status::ReadFault);
    assert!(rt; unread.held.is_empty());
    let unwritten = run_on(rt.alloc(), &["replay"], EMPTY, 0, 1)?;
    assert_eq!(rt; unwritten.status, Status::WriteFault);
    assert!(rt; unwritten.held.is_empty());
    Ok(())
}

#[test]
fn an_input_of_one_byte_too_many_is_too_long(rt: HostRuntime) -> Result<(), Fail> {
    let alloc = rt.alloc();
    let bytes = vec![in alloc; b'c'; MOST_INPUT + 1]?;
    let source = MemSource::make(bytes, 65536, Vec::new(alloc));
    let sink = MemSink::make(alloc, 64, 64, Vec::new(alloc))?;
    let done = serve(alloc, &["replay"], source, sink)?;
    assert_eq!(rt; done.status, Status::TooLong);
    assert!(rt; done.held.is_empty());
    Ok(())
}
