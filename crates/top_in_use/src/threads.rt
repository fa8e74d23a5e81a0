//! Calls that run over threads.

use plain_in_use::{Outcome, words_of};
use std::alloc::Global;
use std::sync::Wait;
use std::test::Fail;
use std::thread::Threads;
use wbt_io::{Clock, Gate, MemSink, MemSource, Rack};
use wbt_top::run_top;

/// What a call is made on: its words and its text, and at which calls the source and the sink fail.
#[derive(Drop)]
pub struct Input<'a> {
    /// The words.
    pub words: &'a [&'a str],
    /// The text that the source gives.
    pub text: &'a str,
    /// The call at which the source fails; 0 where it never does.
    pub read_fails: u64,
    /// The call at which the sink fails; 0 where it never does.
    pub write_fails: u64,
}

/// Words and a text of which nothing fails.
pub fn calm<'a>(words: &'a [&'a str], text: &'a str) -> Input<'a> {
    Input {
        words,
        text,
        read_fails: 0,
        write_fails: 0,
    }
}

/// One call, whose source gives pieces of at most 50 bytes and whose sink takes pieces of at most 100. The sink has room for what the
/// timer tells while a thread is stopped for seconds.
pub fn call<H: Threads + Wait + Sync, C: Clock + Sync, G: Gate + Sync, R: Rack>(
    rt: &H,
    alloc: Global,
    input: &Input<'_>,
    clock: &C,
    gate: &G,
    rack: &mut R,
) -> Result<Outcome, Fail> {
    let words = words_of(alloc, input.words)?;
    let bytes = input.text.as_bytes().to_vec(alloc)?;
    let mut source = MemSource::make(bytes, 50, [input.read_fails].to_vec(alloc)?);
    let mut sink = MemSink::make(alloc, 1 << 26, 100, [input.write_fails].to_vec(alloc)?)?;
    let status = run_top(rt, alloc, &words, &mut source, &mut sink, clock, gate, rack);
    let held = sink.into_bytes();
    Ok(Outcome { status, held })
}
