//! Workers run beside each other: each of three CPUs is held at its third step until all have come there.

use crate::runs::{run_text, work_text};
use std::test::Fail;
use wbt_io::{HandClock, ModelRack};
use wbt_journal::Ending;
use wbt_run::{MeetingGate, RunEnd};

// Two tasks on CPUs of their own, and a flusher on a third.
const THREE_CPUS: &[u8] =
    b"cpus 3\navail 0 100000\ndevice 0 25600 0 100\ncontext 0 0 0\ninode 0 0 64\ntask 0 0\ntask 1 1\nflusher 0 0 2\nwrite 0 0 0 32\nwrite 1 0 32 32\n";

#[test]
fn workers_meet(rt: HostRuntime) -> Result<(), Fail> {
    let gate = MeetingGate::make();
    let mut rack = ModelRack::make();
    let parts = work_text(&rt, rt.alloc(), THREE_CPUS, &gate, &mut rack)?;
    assert!(rt; gate.has_met());
    assert_eq!(rt; parts.journal.ending, Ending::Done);
    Ok(())
}

#[test]
fn workers_of_a_run_meet(rt: HostRuntime) -> Result<(), Fail> {
    let clock = HandClock::make(1);
    let gate = MeetingGate::make();
    let mut rack = ModelRack::make();
    let end = run_text(&rt, rt.alloc(), THREE_CPUS, &clock, &gate, &mut rack)?;
    assert!(rt; gate.has_met());
    assert_eq!(rt; ending_of(&end), Some(Ending::Done));
    Ok(())
}

fn ending_of(end: &RunEnd) -> Option<Ending> {
    match end {
        RunEnd::Finished(journal) => Some(journal.ending),
        RunEnd::Faulted(_) | RunEnd::Spent(_) | RunEnd::NoMemory => None,
    }
}
