//! What a journal's text tells of each page, and whether it adds up.

use plain_in_use::number;
use std::alloc::{AllocError, Global};

// The most pages of a trace whose pages are added up.
const PAGES: usize = 64;

// What a journal's text tells of a page: how often it was dirtied, claimed, completed, and given back as dirty again or as absorbed, and
// whether it is left dirty or under writeback.
#[derive(Clone, Copy, Debug, PartialEq, Eq)]
struct PageTold {
    dirtied: u64,
    claimed: u64,
    completed: u64,
    redirtied: u64,
    absorbed: u64,
    dirty: u64,
    writeback: u64,
}

const NOTHING: PageTold = PageTold {
    dirtied: 0,
    claimed: 0,
    completed: 0,
    redirtied: 0,
    absorbed: 0,
    dirty: 0,
    writeback: 0,
};

impl PageTold {
    // Each dirtying, also one by giving the page back, was claimed once, or the page is dirty; each claim was completed or given back
    // once, or the page is under writeback.
    fn is_balanced(&self) -> bool {
        let dirtied = self.dirtied.saturating_add(self.redirtied);
        let released = self
            .completed
            .saturating_add(self.redirtied)
            .saturating_add(self.absorbed);
        dirtied == self.claimed.saturating_add(self.dirty)
            && self.claimed == released.saturating_add(self.writeback)
    }
}

// What a line tells of a page.
fn count_line(pages: &mut [PageTold], line: &[u8]) {
    let mut words = line.split(|byte| *byte == b' ');
    let word = words.next().unwrap_or(b"");
    let second = words.next();
    let third = words.next();
    let last = words.next();
    let is_left = word == b"left".as_slice();
    let page = if is_left {
        number(second)
    } else {
        number(third)
    };
    if let Some(told) = pages.get_mut(page as usize) {
        if word == b"write".as_slice() && last == Some(b"fresh".as_slice()) {
            told.dirtied = told.dirtied.saturating_add(1);
        }
        if word == b"claim".as_slice() {
            told.claimed = told.claimed.saturating_add(1);
        }
        if word == b"done".as_slice() {
            told.completed = told.completed.saturating_add(1);
        }
        if word == b"back".as_slice() && last == Some(b"dirty".as_slice()) {
            told.redirtied = told.redirtied.saturating_add(1);
        }
        if word == b"back".as_slice() && last == Some(b"absorbed".as_slice()) {
            told.absorbed = told.absorbed.saturating_add(1);
        }
        if is_left && third != Some(b"writeback".as_slice()) {
            told.dirty = told.dirty.saturating_add(1);
        }
        if is_left && third != Some(b"dirty".as_slice()) {
            told.writeback = told.writeback.saturating_add(1);
        }
    }
}

// Whether a text tells of each page as much as is left of it, and leaves no more than a bound.
pub(super) fn adds_up(alloc: Global, text: &[u8], bound: u64) -> Result<bool, AllocError> {
    let mut pages = vec![in alloc; NOTHING; PAGES]?;
    for line in text.split(|byte| *byte == b'\n') {
        count_line(pages.as_mut_slice(), line);
    }
    let mut left: u64 = 0;
    for told in pages.as_slice() {
        if !told.is_balanced() {
            return Ok(false);
        }
        left = left
            .saturating_add(told.dirty)
            .saturating_add(told.writeback);
    }
    Ok(left <= bound)
}

// The lines of writes in a text, each with those of its CPU.
pub(super) fn writes_of(alloc: Global, text: &[u8]) -> Result<Vec<u8>, AllocError> {
    let mut writes = Vec::new(alloc);
    for line in text.split(|byte| *byte == b'\n') {
        if line.starts_with(b"write ") || line.starts_with(b"cpu ") {
            writes.extend_from_slice(line)?;
            writes.push(b'\n')?;
        }
    }
    Ok(writes)
}
