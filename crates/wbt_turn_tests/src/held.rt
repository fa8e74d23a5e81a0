//! The first check of a writer of a strict device, and of one of another, while their domain is far below its thresholds.

use std::alloc::{AllocError, Global};
use std::sync::Wait;
use std::test::Fail;
use turns_taken::moves::{Move, WRITES};
use turns_taken::taken::take;
use wbt_io::{FreeGate, ModelRack, StillClock};
use wbt_journal::{CpuJournal, Decision, Entry, Kind};

const FORTY_PAGES: &[u8] =
    b"cpus 1\navail 0 100000\ndevice 0 25600 0 100\ncontext 0 0 0\ninode 0 0 40\ntask 0 0\nflusher 0 0 0\nwrite 0 0 0 40\n";

// A context of which nothing was written yet has no part of a threshold.
const WITH_NO_PART: &[u8] =
    b"cpus 1\navail 0 100000\ndevice 0 25600 0 100\ncontext 0 0 0\ninode 0 0 40\ntask 0 0\nflusher 0 0 0\nwrite 0 0 0 40\nstrict 0\n";

// But one of a device with a least share has.
const WITH_A_PART: &[u8] =
    b"cpus 1\navail 0 100000\ndevice 0 25600 1 100\ncontext 0 0 0\ninode 0 0 40\ntask 0 0\nflusher 0 0 0\nwrite 0 0 0 40\nstrict 0\n";

// The writer's first allowance is of 32 pages. Then it is checked, and takes one turn more.
const TURNS: u32 = 34;

// What its first check decided, and whether it wrote after that.
#[derive(Clone, Copy)]
struct Checked {
    decision: Decision,
    wrote: bool,
}

fn writes(alloc: Global) -> Result<Vec<Move>, AllocError> {
    let mut moves = Vec::new(alloc);
    for _turn in 0..TURNS {
        moves.push(WRITES)?;
    }
    Ok(moves)
}

fn first_check(log: &CpuJournal) -> Option<Checked> {
    let check = log.checks.as_slice().first()?;
    let wrote = match log.entries.as_slice().last() {
        Some(Entry::Write { .. }) => true,
        _ => false,
    };
    Some(Checked {
        decision: check.decision,
        wrote,
    })
}

fn check_of<H: Wait>(rt: &H, alloc: Global, text: &[u8]) -> Result<Option<Checked>, Fail> {
    let mut rack = ModelRack::make();
    let moves = writes(alloc)?;
    let taken = take(
        rt,
        alloc,
        text,
        &StillClock::make(1),
        &FreeGate,
        &mut rack,
        moves.as_slice(),
    )?;
    Ok(first_check(&taken.log))
}

#[test]
fn a_writer_of_another_device_goes_by_the_domain(rt: HostRuntime) -> Result<(), Fail> {
    let checked = check_of(&rt, rt.alloc(), FORTY_PAGES)?;
    assert!(rt; checked.is_some());
    if let Some(checked) = checked {
        assert_eq!(rt; checked.decision.kind, Kind::Free);
        assert_eq!(rt; checked.decision.left, 128);
        assert!(rt; checked.wrote);
    }
    Ok(())
}

#[test]
fn a_writer_of_a_strict_device_waits_over_its_part(rt: HostRuntime) -> Result<(), Fail> {
    let checked = check_of(&rt, rt.alloc(), WITH_NO_PART)?;
    assert!(rt; checked.is_some());
    if let Some(checked) = checked {
        assert_eq!(rt; checked.decision.kind, Kind::Wait);
        assert!(rt; checked.decision.exceeded);
        assert!(rt; !checked.wrote);
    }
    Ok(())
}

#[test]
fn a_writer_of_a_strict_device_is_free_below_its_middle(rt: HostRuntime) -> Result<(), Fail> {
    let checked = check_of(&rt, rt.alloc(), WITH_A_PART)?;
    assert!(rt; checked.is_some());
    if let Some(checked) = checked {
        assert_eq!(rt; checked.decision.kind, Kind::Free);
        assert_eq!(rt; checked.decision.left, 8);
        assert!(rt; checked.wrote);
    }
    Ok(())
}
