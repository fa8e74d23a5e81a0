//! A flusher of a strict device, and one of another, while their domain is far below background.

use std::alloc::Global;
use std::sync::Wait;
use std::test::Fail;
use turns_taken::moves::{FLUSHES, Move, WRITES};
use turns_taken::taken::{Taken, take};
use wbt_io::{FreeGate, ModelRack, StillClock};
use wbt_journal::{CpuJournal, Entry};
use wbt_kit::Turn;

const SIXTEEN_PAGES: &[u8] =
    b"cpus 1\navail 0 100000\ndevice 0 25600 0 100\ncontext 0 0 0\ninode 0 0 16\ntask 0 0\nflusher 0 0 0\nwrite 0 0 0 16\n";

const SIXTEEN_STRICT_PAGES: &[u8] =
    b"cpus 1\navail 0 100000\ndevice 0 25600 0 100\ncontext 0 0 0\ninode 0 0 16\ntask 0 0\nflusher 0 0 0\nwrite 0 0 0 16\nstrict 0\n";

// Sixteen pages are written, of which the context's counter reads eight at least. Then the flusher takes three turns.
const WRITES_AND_FLUSHES: [Move; 19] = [
    WRITES, WRITES, WRITES, WRITES, WRITES, WRITES, WRITES, WRITES, WRITES, WRITES, WRITES, WRITES,
    WRITES, WRITES, WRITES, WRITES, FLUSHES, FLUSHES, FLUSHES,
];

fn write_and_flush<H: Wait>(rt: &H, alloc: Global, text: &[u8]) -> Result<Taken, Fail> {
    let mut rack = ModelRack::make();
    let taken = take(
        rt,
        alloc,
        text,
        &StillClock::make(1),
        &FreeGate,
        &mut rack,
        &WRITES_AND_FLUSHES,
    )?;
    Ok(taken)
}

// The page that was claimed last, where nothing was told after it.
fn last_claim(log: &CpuJournal) -> Option<u32> {
    match log.entries.as_slice().last() {
        Some(Entry::Claimed { flusher: _, page }) => Some(*page),
        _ => None,
    }
}

// A context of which nothing was written yet has no part of a threshold.
#[test]
fn a_strict_context_over_its_part_is_written(rt: HostRuntime) -> Result<(), Fail> {
    let taken = write_and_flush(&rt, rt.alloc(), SIXTEEN_STRICT_PAGES)?;
    assert_eq!(rt; taken.turns.as_slice().last(), Some(&Turn::Stepped));
    assert_eq!(rt; last_claim(&taken.log), Some(1));
    Ok(())
}

#[test]
fn a_context_of_another_device_waits_for_its_domain(rt: HostRuntime) -> Result<(), Fail> {
    let taken = write_and_flush(&rt, rt.alloc(), SIXTEEN_PAGES)?;
    let rests = Turn::Resting { now: 1, until: 101 };
    assert_eq!(rt; taken.turns.as_slice().last(), Some(&rests));
    assert_eq!(rt; last_claim(&taken.log), None);
    Ok(())
}
