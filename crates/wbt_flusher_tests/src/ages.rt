//! A flusher of an ageing device: what it notices, and when it writes that.

use std::alloc::{AllocError, Global};
use std::sync::Wait;
use std::test::Fail;
use turns_taken::moves::{DRAINS, FLUSHES, FLUSHES_AFTER_A_REST, Move, WRITES};
use turns_taken::taken::{Taken, take};
use wbt_io::{FreeGate, HandClock, ModelRack};
use wbt_journal::{CpuJournal, Entry};
use wbt_kit::Turn;

// An inode of one page, which is due a hundred ticks after it was noticed.
const ONE_PAGE: &[u8] =
    b"cpus 1\navail 0 100000\ndevice 0 25600 0 100\ncontext 0 0 0\nexpire 0 10\ninode 0 0 1\ntask 0 0\nflusher 0 0 0\nwrite 0 0 0 1\n";

// The turns of the CPU of a trace, from an opening at 1 on.
fn take_moves<H: Wait>(rt: &H, alloc: Global, text: &[u8], moves: &[Move]) -> Result<Taken, Fail> {
    let mut rack = ModelRack::make();
    let taken = take(
        rt,
        alloc,
        text,
        &HandClock::make(1),
        &FreeGate,
        &mut rack,
        moves,
    )?;
    Ok(taken)
}

// The page is written and noticed at 1. At 101 the flusher has nothing new to notice, and writes what is due by then.
#[test]
fn an_inode_is_written_at_the_moment_at_which_it_is_due(rt: HostRuntime) -> Result<(), Fail> {
    let moves = [WRITES, FLUSHES, FLUSHES, FLUSHES_AFTER_A_REST, FLUSHES];
    let taken = take_moves(&rt, rt.alloc(), ONE_PAGE, &moves)?;
    let turns = [
        Turn::Stepped,
        Turn::Stepped,
        Turn::Resting { now: 1, until: 101 },
        Turn::Stepped,
        Turn::Stepped,
    ];
    assert_eq!(rt; taken.turns.as_slice(), turns.as_slice());
    let entries = [
        Entry::Write {
            task: 0,
            page: 0,
            fresh: true,
        },
        Entry::Noticed {
            flusher: 0,
            inode: 0,
            since: 1,
        },
        Entry::Aged {
            flusher: 0,
            inode: 0,
            due: 101,
            now: 101,
        },
        Entry::Claimed {
            flusher: 0,
            page: 0,
        },
        Entry::Batch {
            flusher: 0,
            pages: 1,
            now: 101,
            until: 102,
        },
    ];
    assert_eq!(rt; taken.log.entries.as_slice(), entries.as_slice());
    Ok(())
}

// In the drain it takes it before it is due, as the queue is empty.
#[test]
fn the_drain_takes_what_waits(rt: HostRuntime) -> Result<(), Fail> {
    let moves = [WRITES, FLUSHES, DRAINS];
    let taken = take_moves(&rt, rt.alloc(), ONE_PAGE, &moves)?;
    assert_eq!(rt;
        taken.log.entries.as_slice().last(),
        Some(&Entry::Taken {
            flusher: 0,
            inode: 0
        })
    );
    Ok(())
}

// Sixty-five inodes of one page, each of which the task writes.
fn many_pages(alloc: Global) -> Result<String, AllocError> {
    let mut text = String::from_str(
        alloc,
        "cpus 1\navail 0 1000000\ndevice 0 25600 0 100\ncontext 0 0 0\nexpire 0 10\n",
    )?;
    for inode in 0..65u32 {
        writeln!(text, "inode {inode} 0 1")?;
    }
    writeln!(text, "task 0 0\nflusher 0 0 0")?;
    for inode in 0..65u32 {
        writeln!(text, "write 0 {inode} 0 1")?;
    }
    Ok(text)
}

// As many writes, with the check that is due after 32 of them, and then two turns of the flusher.
fn many_moves(alloc: Global) -> Result<Vec<Move>, AllocError> {
    let mut moves = Vec::new(alloc);
    for _write in 0..66u32 {
        moves.push(WRITES)?;
    }
    moves.push(FLUSHES)?;
    moves.push(FLUSHES_AFTER_A_REST)?;
    Ok(moves)
}

// How many inodes were noticed at a moment.
fn noticed_at(log: &CpuJournal, at: u64) -> usize {
    let mut count: usize = 0;
    for entry in log.entries.as_slice() {
        if let Entry::Noticed { since, .. } = entry {
            if *since == at {
                count = count.saturating_add(1);
            }
        }
    }
    count
}

#[test]
fn a_turn_notices_sixty_four_inodes_at_most(rt: HostRuntime) -> Result<(), Fail> {
    let alloc = rt.alloc();
    let text = many_pages(alloc)?;
    let moves = many_moves(alloc)?;
    let taken = take_moves(&rt, alloc, text.as_bytes(), moves.as_slice())?;
    assert_eq!(rt; noticed_at(&taken.log, 1), 64);
    assert_eq!(rt; noticed_at(&taken.log, 101), 1);
    Ok(())
}
