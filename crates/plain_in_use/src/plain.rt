//! Calls that start no thread.

use crate::outcome::Outcome;
use crate::words::words_of;
use std::alloc::Global;
use std::test::Fail;
use wbt_io::{MemSink, MemSource};
use wbt_top_plain::plain_top;

/// One call on a source and a sink.
pub fn serve(
    alloc: Global,
    words: &[&str],
    mut source: MemSource,
    mut sink: MemSink,
) -> Result<Outcome, Fail> {
    let words = words_of(alloc, words)?;
    let status = plain_top(alloc, &words, &mut source, &mut sink);
    let held = sink.into_bytes();
    Ok(Outcome { status, held })
}

/// One call whose source gives pieces of at most 50 bytes and fails at one call, as its sink does at another.
pub fn run_on(
    alloc: Global,
    words: &[&str],
    text: &str,
    read_fails: u64,
    write_fails: u64,
) -> Result<Outcome, Fail> {
    let bytes = text.as_bytes().to_vec(alloc)?;
    let source = MemSource::make(bytes, 50, [read_fails].to_vec(alloc)?);
    let sink = MemSink::make(alloc, 4096, 100, [write_fails].to_vec(alloc)?)?;
    serve(alloc, words, source, sink)
}

/// One call in which nothing fails.
pub fn run(alloc: Global, word: &str, text: &str) -> Result<Outcome, Fail> {
    run_on(alloc, &[word], text, 0, 0)
}

/// One call on a whole input, over a sink with room for a million bytes.
pub fn run_whole(alloc: Global, word: &str, input: Vec<u8>) -> Result<Outcome, Fail> {
    let source = MemSource::make(input, 65536, Vec::new(alloc));
    let sink = MemSink::make(alloc, 1 << 20, 65536, Vec::new(alloc))?;
    serve(alloc, &[word], source, sink)
}
