//! Lines of a journal's text, word by word.

use plain_in_use::number;
use std::alloc::{AllocError, Global};

// A batch that a flusher gave to its disk, from a moment to another, in ticks.
#[derive(Clone, Copy, Debug, PartialEq, Eq)]
pub(super) struct Batch {
    pub(super) now: u64,
    pub(super) until: u64,
}

// The batches that a text tells of a flusher, in order.
pub(super) fn batches_of(
    alloc: Global,
    text: &[u8],
    flusher: u64,
) -> Result<Vec<Batch>, AllocError> {
    let mut batches = Vec::new(alloc);
    for line in text.split(|byte| *byte == b'\n') {
        let mut words = line.split(|byte| *byte == b' ');
        let is_batch = words.next() == Some(b"batch".as_slice());
        let of = number(words.next());
        let _pages = words.next();
        let now = number(words.next());
        let until = number(words.next());
        if is_batch && of == flusher {
            batches.push(Batch { now, until })?;
        }
    }
    Ok(batches)
}
