//! A flusher whose device has a chunk: it hands over fewer pages at once, and scans the inode again for the others.

use std::test::Fail;
use turns_taken::moves::{By, DRAINS, Move, WRITES};
use turns_taken::taken::take;
use wbt_io::{FreeGate, HandClock, ModelRack};
use wbt_journal::Entry;

const A_PAGE_AT_ONCE: &[u8] =
    b"cpus 1\navail 0 100000\ndevice 0 25600 0 100\nchunk 0 1\ncontext 0 0 0\ninode 0 0 2\ntask 0 0\nflusher 0 0 0\nwrite 0 0 0 2\n";

// The flusher, in the drain, after the tick that a flight of a page takes.
const LANDS: Move = Move {
    rest: 1,
    by: By::Drain,
};

// Both pages are written at 1. Then the flusher takes the inode, and claims a page; completes it; takes the inode again, passes the
// clean page, and claims the other one; and completes that.
const MOVES: [Move; 10] = [
    WRITES, WRITES, WRITES, DRAINS, DRAINS, LANDS, DRAINS, DRAINS, DRAINS, LANDS,
];

#[test]
fn a_scan_ends_with_the_pages_of_its_devices_line(rt: HostRuntime) -> Result<(), Fail> {
    let mut rack = ModelRack::make();
    let taken = take(
        &rt,
        rt.alloc(),
        A_PAGE_AT_ONCE,
        &HandClock::make(1),
        &FreeGate,
        &mut rack,
        &MOVES,
    )?;
    let claim = |page: u32| Entry::Claimed { flusher: 0, page };
    let batch = |now: u64, until: u64| Entry::Batch {
        flusher: 0,
        pages: 1,
        now,
        until,
    };
    let done = |page: u32| Entry::Done { flusher: 0, page };
    let share = Entry::Share {
        domain: 0,
        context: 0,
        n: 1,
    };
    let told = [
        claim(0),
        batch(1, 2),
        done(0),
        share,
        claim(1),
        batch(2, 3),
        done(1),
        share,
    ];
    assert_eq!(rt;
        taken.log.entries.as_slice().get(2..),
        Some(told.as_slice())
    );
    Ok(())
}
