//! Journals are read from their texts, and each text that is no plain journal's is refused by its first bad line.

use crate::texts::EVERY_LINE;
use std::alloc::{AllocError, Global};
use std::test::Fail;
use wbt_io::MemSink;
use wbt_journal::{Journal, print};
use wbt_journal_reader::{JournalFault, read_journal};

// A text with numbers at the ends of their ranges.
const GREAT_NUMBERS: &[u8] =
    b"timer\nlimits 4294967295 18446744073709551615 18446744073709551615 0 18446744073709551615\nperiod 0 18446744073709551615\ncpu 0\nfold d4294967295 18446744073709551615 -9223372036854775808\nfold c4294967295 0 9223372036854775807\nwrite 4294967295 4294967295 fresh\ncpu 1\ndone 0 4294967295\nleft 4294967295 both\ncensus 1 1\ntotals 1 1\nend spent\n";

// Up to the first CPU's part.
const PART: &[u8] = b"timer\nlimits 0 1 2 1 2\ncpu 0\n";

// Up to the end of a check's reads, the last of a cgroup.
const READS: &[u8] = b"timer\ncpu 0\nread 0 0 2 1 2 0 0 0 0 1\nread 1 0 2 1 2 0 0 0 0 1\n";

// Up to a check's count.
const COUNT: &[u8] = b"timer\ncpu 0\nread 0 0 2 1 2 0 0 0 0 1\ncount 3 0 0\n";

// Up to a page that is left.
const LEFT: &[u8] = b"timer\ncpu 0\nwrite 0 3 fresh\nleft 3 dirty\n";

// Up to the census.
const CENSUS: &[u8] = b"timer\ncpu 0\nwrite 0 3 fresh\nleft 3 dirty\ncensus 1 0\n";

// Up to the totals.
const TOTALS: &[u8] = b"timer\ncpu 0\nwrite 0 3 fresh\nleft 3 dirty\ncensus 1 0\ntotals 1 0\n";

// A whole text.
const WHOLE: &[u8] =
    b"timer\ncpu 0\nwrite 0 3 fresh\nleft 3 dirty\ncensus 1 0\ntotals 1 0\nend halted\n";

// The text of a journal.
fn text_of(alloc: Global, journal: &Journal) -> Result<Vec<u8>, AllocError> {
    let Ok(mut sink) = MemSink::make(alloc, 200000, 1000, Vec::new(alloc)) else {
        return Err(AllocError);
    };
    match print(alloc, journal, &mut sink) {
        Ok(()) => Ok(sink.into_bytes()),
        Err(_) => Err(AllocError),
    }
}

// Whether the text is read, and printed alike.
fn comes_again(alloc: Global, text: &[u8]) -> Result<bool, AllocError> {
    match read_journal(alloc, text) {
        Ok(journal) => Ok(text_of(alloc, &journal)?.as_slice() == text),
        Err(_) => Ok(false),
    }
}

// The line that is named in a text that is refused; 0 where it is read.
fn bad_line(alloc: Global, text: &[u8]) -> u64 {
    match read_journal(alloc, text) {
        Err(JournalFault::BadLine { line }) => line,
        _ => 0,
    }
}

// The number of the line after a text's last line feed.
fn line_after(text: &[u8]) -> u64 {
    let feeds = text.iter().filter(|byte| **byte == b'\n').count() as u64;
    feeds.saturating_add(1)
}

// The line that is named where this one follows these, and others follow it.
fn bad_after(alloc: Global, front: &[u8], line: &[u8]) -> Result<u64, AllocError> {
    let mut text = front.to_vec(alloc)?;
    text.extend_from_slice(line)?;
    text.extend_from_slice(b"\nend done\n")?;
    Ok(bad_line(alloc, text.as_slice()))
}

// Whether each of these lines is the first bad one behind the front.
fn all_are_bad(alloc: Global, front: &[u8], lines: &[&[u8]]) -> Result<bool, AllocError> {
    for line in lines {
        if bad_after(alloc, front, line)? != line_after(front) {
            return Ok(false);
        }
    }
    Ok(true)
}

#[test]
fn what_is_read_is_printed_alike(rt: HostRuntime) -> Result<(), Fail> {
    assert!(rt; comes_again(rt.alloc(), EVERY_LINE)?);
    assert!(rt; comes_again(rt.alloc(), GREAT_NUMBERS)?);
    assert!(rt; comes_again(rt.alloc(), WHOLE)?);
    assert!(rt; comes_again(rt.alloc(), b"timer\ncensus 0 0\ntotals 0 0\nend done\n")?);
    Ok(())
}

#[test]
fn a_text_that_ends_too_early_lacks_the_line_after_its_last(rt: HostRuntime) {
    for end in 0..EVERY_LINE.len() {
        let text = &EVERY_LINE[..end];
        assert_eq!(rt; bad_line(rt.alloc(), text), line_after(text));
    }
}

#[test]
fn a_number_has_one_spelling_and_a_range(rt: HostRuntime) -> Result<(), Fail> {
    let lines = [
        b"write 00 3 fresh".as_slice(),
        b"write 01 3 fresh",
        b"write +0 3 fresh",
        b"write -1 3 fresh",
        b"write 0x1 3 fresh",
        b"write 4294967296 3 fresh",
        b"write d0 3 fresh",
        b"fold d0 1 -0",
        b"fold d0 1 -01",
        b"fold d0 1 --1",
        b"fold d0 1 9223372036854775808",
        b"fold d0 1 -9223372036854775809",
        b"fold d0 18446744073709551616 1",
        b"fold d0 100000000000000000000 1",
        b"fold d0 -1 1",
        b"fold 0 1 1",
        b"fold d 1 1",
        b"fold d00 1 1",
        b"fold e0 1 1",
        b"fold c4294967296 1 1",
    ];
    assert!(rt; all_are_bad(rt.alloc(), PART, &lines)?);
    Ok(())
}

#[test]
fn a_line_has_its_word_and_its_fields_and_no_more(rt: HostRuntime) -> Result<(), Fail> {
    let lines = [
        b"".as_slice(),
        b" ",
        b"0",
        b"write",
        b"writes 0 3 fresh",
        b"Write 0 3 fresh",
        b"write 0 3",
        b"write 0 3 fresh 0",
        b"write 0  3 fresh",
        b"write 0\t3 fresh",
        b" write 0 3 fresh",
        b"write 0 3 fresh ",
        b"write 0 3 fresh\r",
        b"write 0 3 dirty",
        b"write fresh 3 0",
        b"back 0 3 fresh",
        b"left 3 fresh",
        b"fresh 0 3",
    ];
    assert!(rt; all_are_bad(rt.alloc(), PART, &lines)?);
    Ok(())
}

#[test]
fn a_line_stands_in_its_place(rt: HostRuntime) -> Result<(), Fail> {
    let alloc = rt.alloc();
    let start = [
        b"cpu 0".as_slice(),
        b"limits 0 1 2 1 2",
        b"census 0 0",
        b"journal",
    ];
    assert!(rt; all_are_bad(alloc, b"", &start)?);
    let timer = [
        b"timer".as_slice(),
        b"cpu 1",
        b"write 0 3 fresh",
        b"totals 0 0",
        b"end done",
    ];
    assert!(rt; all_are_bad(alloc, b"timer\n", &timer)?);
    let part = [
        b"timer".as_slice(),
        b"limits 0 1 2 1 2",
        b"cpu 0",
        b"cpu 2",
        b"count 0 0 0",
        b"check 0 0 1 0 free 0 1 0 1 1",
        b"census 1 0",
        b"totals 0 0",
        b"end done",
        b"steps",
        b"step 1 0 dirty 1 110",
        b"strict 0 1 2",
    ];
    assert!(rt; all_are_bad(alloc, PART, &part)?);
    let reads = [
        b"read 2 0 2 1 2 0 0 0 0 1".as_slice(),
        b"write 0 3 fresh",
        b"check 0 3 1 0 free 0 1 0 1 1",
        b"cpu 1",
        b"census 0 0",
    ];
    assert!(rt; all_are_bad(alloc, READS, &reads)?);
    let count = [
        b"check 0 2 1 0 free 0 1 0 1 1".as_slice(),
        b"check 0 3 1 0 fresh 0 1 0 1 1",
        b"count 3 0 0",
        b"share 0 3 1",
    ];
    assert!(rt; all_are_bad(alloc, COUNT, &count)?);
    Ok(())
}

#[test]
fn what_is_left_is_in_order_and_the_sums_agree(rt: HostRuntime) -> Result<(), Fail> {
    let alloc = rt.alloc();
    let left = [
        b"left 3 writeback".as_slice(),
        b"left 2 dirty",
        b"cpu 1",
        b"write 0 4 fresh",
        b"census 0 0",
        b"census 1 1",
        b"steps",
    ];
    assert!(rt; all_are_bad(alloc, LEFT, &left)?);
    let census = [
        b"totals 0 0".as_slice(),
        b"totals 1 1",
        b"census 1 0",
        b"left 4 dirty",
        b"end done",
    ];
    assert!(rt; all_are_bad(alloc, CENSUS, &census)?);
    let totals = [
        b"totals 1 0".as_slice(),
        b"end",
        b"end fresh",
        b"end done done",
        b"strict 0 1 2",
    ];
    assert!(rt; all_are_bad(alloc, TOTALS, &totals)?);
    let whole = [b"end halted".as_slice(), b"timer", b""];
    assert!(rt; all_are_bad(alloc, WHOLE, &whole)?);
    Ok(())
}
