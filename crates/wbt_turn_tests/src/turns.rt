//! Single turns of a CPU's writers and of its flusher, and what stands in their log.

use std::test::Fail;
use turns_taken::moves::{By, DRAINS, FLUSHES, Move, WRITES};
use turns_taken::taken::{TWO_PAGES, take, take_two_pages};
use wbt_io::{FreeGate, HaltGate, HandClock, ModelRack};
use wbt_journal::Entry;
use wbt_kit::Turn;

// A task that rests before it writes.
const A_REST: &[u8] =
    b"cpus 1\navail 0 100000\navail 150 50000\ndevice 0 25600 0 100\ncontext 0 0 0\ninode 0 0 2\ntask 0 0\nflusher 0 0 0\nrest 0 300\nwrite 0 0 0 1\n";

// A task that rests after each two of its pages, before a further one.
const A_PACE: &[u8] =
    b"cpus 1\navail 0 100000\ndevice 0 25600 0 100\ncontext 0 0 0\ninode 0 0 4\ntask 0 0\npace 0 2 300\nflusher 0 0 0\nwrite 0 0 0 4\n";

#[test]
fn two_pages_are_written_taken_and_cleaned(rt: HostRuntime) -> Result<(), Fail> {
    let mut rack = ModelRack::make();
    let moves = [
        FLUSHES, FLUSHES, WRITES, WRITES, WRITES, DRAINS, DRAINS, DRAINS, DRAINS,
    ];
    let taken = take_two_pages(&rt, rt.alloc(), &FreeGate, &mut rack, &moves)?;
    let turns = [
        Turn::Stepped,
        Turn::Resting { now: 1, until: 101 },
        Turn::Stepped,
        Turn::Stepped,
        Turn::Done,
        Turn::Stepped,
        Turn::Stepped,
        Turn::Stepped,
        Turn::Resting { now: 1, until: 2 },
    ];
    assert_eq!(rt; taken.turns.as_slice(), turns.as_slice());
    assert_eq!(rt; taken.log.entries.as_slice().len(), 5);
    Ok(())
}

#[test]
fn a_flusher_made_anew_cleans_two_pages_in_the_drain(rt: HostRuntime) -> Result<(), Fail> {
    let mut rack = ModelRack::make();
    let moves = [WRITES, WRITES, WRITES, DRAINS, DRAINS, DRAINS, DRAINS];
    let taken = take_two_pages(&rt, rt.alloc(), &FreeGate, &mut rack, &moves)?;
    let turns = [
        Turn::Stepped,
        Turn::Stepped,
        Turn::Done,
        Turn::Stepped,
        Turn::Stepped,
        Turn::Stepped,
        Turn::Resting { now: 1, until: 2 },
    ];
    assert_eq!(rt; taken.turns.as_slice(), turns.as_slice());
    assert_eq!(rt;
        taken.log.entries.as_slice().first(),
        Some(&Entry::Write {
            task: 0,
            page: 0,
            fresh: true
        })
    );
    Ok(())
}

#[test]
fn a_gate_cuts_a_write_off_behind_its_page(rt: HostRuntime) -> Result<(), Fail> {
    let mut rack = ModelRack::make();
    let taken = take_two_pages(&rt, rt.alloc(), &HaltGate { halt: 1 }, &mut rack, &[WRITES])?;
    assert_eq!(rt; taken.turns.as_slice(), [Turn::Halted].as_slice());
    assert_eq!(rt;
        taken.log.entries.as_slice().last(),
        Some(&Entry::Write {
            task: 0,
            page: 0,
            fresh: true
        })
    );
    Ok(())
}

#[test]
fn a_task_rests_between_its_pages_for_its_pace(rt: HostRuntime) -> Result<(), Fail> {
    let mut rack = ModelRack::make();
    let writes_later = Move {
        rest: 300,
        by: By::Writers,
    };
    let moves = [WRITES, WRITES, WRITES, WRITES, writes_later, WRITES, WRITES];
    let taken = take(
        &rt,
        rt.alloc(),
        A_PACE,
        &HandClock::make(1),
        &FreeGate,
        &mut rack,
        &moves,
    )?;
    let turns = [
        Turn::Stepped,
        Turn::Stepped,
        Turn::Stepped,
        Turn::Resting { now: 1, until: 301 },
        Turn::Stepped,
        Turn::Stepped,
        Turn::Done,
    ];
    assert_eq!(rt; taken.turns.as_slice(), turns.as_slice());
    assert_eq!(rt;
        taken.log.entries.as_slice().last(),
        Some(&Entry::Write {
            task: 0,
            page: 3,
            fresh: true
        })
    );
    Ok(())
}

#[test]
fn rests_go_by_as_the_clock_moves(rt: HostRuntime) -> Result<(), Fail> {
    let mut rack = ModelRack::make();
    let writes_later = Move {
        rest: 100,
        by: By::Writers,
    };
    let taken = take(
        &rt,
        rt.alloc(),
        A_REST,
        &HandClock::make(1),
        &FreeGate,
        &mut rack,
        &[WRITES, WRITES, writes_later],
    )?;
    assert_eq!(rt;
        taken.turns.as_slice(),
        [
            Turn::Stepped,
            Turn::Resting { now: 1, until: 301 },
            Turn::Resting {
                now: 101,
                until: 301
            }
        ]
        .as_slice()
    );
    let flushes_later = Move {
        rest: 50,
        by: By::Flusher,
    };
    let taken = take(
        &rt,
        rt.alloc(),
        TWO_PAGES,
        &HandClock::make(1),
        &FreeGate,
        &mut rack,
        &[FLUSHES, FLUSHES, flushes_later],
    )?;
    assert_eq!(rt;
        taken.turns.as_slice(),
        [
            Turn::Stepped,
            Turn::Resting { now: 1, until: 101 },
            Turn::Resting {
                now: 51,
                until: 101
            }
        ]
        .as_slice()
    );
    Ok(())
}
