//! A flusher of a cyclic device: its scan of an inode begins where the last one ended.

use std::alloc::{AllocError, Global};
use std::test::Fail;
use turns_taken::moves::{By, DRAINS, Move, WRITES};
use turns_taken::taken::take;
use wbt_io::{FreeGate, HandClock, ModelRack};
use wbt_journal::{CpuJournal, Entry};

// A scan ends with a page. The first page is written again after both.
const CYCLIC: &[u8] =
    b"cpus 1\navail 0 100000\ndevice 0 25600 0 100\nchunk 0 1\ncyclic 0\ncontext 0 0 0\ninode 0 0 2\ntask 0 0\nflusher 0 0 0\nwrite 0 0 0 2\nwrite 0 0 0 1\n";

const STRAIGHT: &[u8] =
    b"cpus 1\navail 0 100000\ndevice 0 25600 0 100\nchunk 0 1\ncontext 0 0 0\ninode 0 0 2\ntask 0 0\nflusher 0 0 0\nwrite 0 0 0 2\nwrite 0 0 0 1\n";

// The flusher, in the drain, after the tick that a flight of a page takes.
const LANDS: Move = Move {
    rest: 1,
    by: By::Drain,
};

// The first page is written again when its flight has landed, and before the second scan.
const MOVES: [Move; 13] = [
    WRITES, WRITES, DRAINS, DRAINS, LANDS, WRITES, DRAINS, DRAINS, LANDS, DRAINS, DRAINS, DRAINS,
    LANDS,
];

// The pages that the flusher claimed, in order.
fn claims_of(alloc: Global, log: &CpuJournal) -> Result<Vec<u32>, AllocError> {
    let mut pages = Vec::new(alloc);
    for entry in log.entries.as_slice() {
        if let Entry::Claimed { page, .. } = entry {
            pages.push(*page)?;
        }
    }
    Ok(pages)
}

#[test]
fn a_scan_begins_where_the_last_one_ended(rt: HostRuntime) -> Result<(), Fail> {
    let mut rack = ModelRack::make();
    let taken = take(
        &rt,
        rt.alloc(),
        CYCLIC,
        &HandClock::make(1),
        &FreeGate,
        &mut rack,
        &MOVES,
    )?;
    let claims = claims_of(rt.alloc(), &taken.log)?;
    assert_eq!(rt; claims.as_slice(), [0, 1, 0].as_slice());
    Ok(())
}

#[test]
fn without_the_line_it_begins_at_the_first_page(rt: HostRuntime) -> Result<(), Fail> {
    let mut rack = ModelRack::make();
    let taken = take(
        &rt,
        rt.alloc(),
        STRAIGHT,
        &HandClock::make(1),
        &FreeGate,
        &mut rack,
        &MOVES,
    )?;
    let claims = claims_of(rt.alloc(), &taken.log)?;
    assert_eq!(rt; claims.as_slice(), [0, 0, 1].as_slice());
    Ok(())
}
