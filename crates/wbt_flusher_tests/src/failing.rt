//! A flusher whose disk fails: it gives the batch back and writes it later, or ends.

use std::alloc::{AllocError, Global};
use std::test::Fail;
use turns_taken::moves::{DRAINS, Move, WRITES};
use turns_taken::taken::take_two_pages;
use wbt_io::{FaultyRack, FreeGate};
use wbt_journal::Entry;
use wbt_kit::Turn;

// Two pages are written, and then the flusher takes so many turns in the drain.
fn writes_and_drains(alloc: Global, drains: u32) -> Result<Vec<Move>, AllocError> {
    let mut moves = [WRITES, WRITES, WRITES].to_vec(alloc)?;
    for _turn in 0..drains {
        moves.push(DRAINS)?;
    }
    Ok(moves)
}

#[test]
fn a_batch_that_fails_is_given_back_and_written_later(rt: HostRuntime) -> Result<(), Fail> {
    let alloc = rt.alloc();
    let mut rack = FaultyRack::make([1].to_vec(alloc)?);
    // It takes the inode and claims two pages, of which the disk fails; it gives both back; and it takes the inode and claims both again.
    let moves = writes_and_drains(alloc, 8)?;
    let taken = take_two_pages(&rt, alloc, &FreeGate, &mut rack, moves.as_slice())?;
    assert_eq!(rt; taken.turns.as_slice().last(), Some(&Turn::Stepped));
    let back = |page: u32| Entry::Back {
        flusher: 0,
        page,
        absorbed: false,
    };
    let claim = |page: u32| Entry::Claimed { flusher: 0, page };
    let fault = Entry::Fault {
        flusher: 0,
        pages: 2,
    };
    let batch = Entry::Batch {
        flusher: 0,
        pages: 2,
        now: 1,
        until: 2,
    };
    let told = [
        claim(0),
        claim(1),
        fault,
        back(0),
        back(1),
        claim(0),
        claim(1),
        batch,
    ];
    assert_eq!(rt;
        taken.log.entries.as_slice().get(2..),
        Some(told.as_slice())
    );
    assert_eq!(rt; rack.fault_count(), 1);
    Ok(())
}

// Each of the first seven writes that fail leaves the flusher to five turns of the same kind, and the eighth is the last of three.
#[test]
fn the_eighth_write_that_fails_ends_its_turn(rt: HostRuntime) -> Result<(), Fail> {
    let alloc = rt.alloc();
    let mut rack = FaultyRack::make([1, 2, 3, 4, 5, 6, 7, 8].to_vec(alloc)?);
    let moves = writes_and_drains(alloc, 50)?;
    let taken = take_two_pages(&rt, alloc, &FreeGate, &mut rack, moves.as_slice())?;
    assert_eq!(rt; taken.turns.as_slice().last(), Some(&Turn::Faulted));
    assert_eq!(rt; taken.turns.len(), 3 + 7 * 5 + 3);
    assert_eq!(rt;
        taken.log.entries.as_slice().last(),
        Some(&Entry::Fault {
            flusher: 0,
            pages: 2
        })
    );
    assert_eq!(rt; rack.fault_count(), 8);
    Ok(())
}
