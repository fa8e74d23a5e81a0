//! Runs of texts: by one call, and by their parts.

use std::alloc::Global;
use std::sync::Wait;
use std::test::Fail;
use std::thread::Threads;
use wbt_io::{Clock, Gate, HandClock, Rack};
use wbt_journal::{Ending, Journal};
use wbt_kit::{Hands, Kit};
use wbt_run::{RunEnd, run, work};
use wbt_run_close::close;
use wbt_trace_text::read_trace;

// The end of the run of a text.
pub(super) fn run_text<H: Threads + Wait + Sync, C: Clock + Sync, G: Gate + Sync, R: Rack>(
    rt: &H,
    alloc: Global,
    text: &[u8],
    clock: &C,
    gate: &G,
    rack: &mut R,
) -> Result<RunEnd, Fail> {
    let trace = read_trace(alloc, text)?;
    Ok(run(rt, alloc, &trace, clock, gate, rack))
}

// What the work of a run left, and the journal.
#[derive(Drop)]
pub(super) struct Parts {
    pub(super) ending: Ending,
    // Whether the seats of all hold CPU 0, and the timer.
    pub(super) held: (bool, bool),
    pub(super) journal: Journal,
}

// A run of a text by its parts: the kit at 1, the work, and the journal.
pub(super) fn work_text<H: Threads + Wait + Sync, G: Gate + Sync, R: Rack>(
    rt: &H,
    alloc: Global,
    text: &[u8],
    gate: &G,
    rack: &mut R,
) -> Result<Parts, Fail> {
    let trace = read_trace(alloc, text)?;
    let clock = HandClock::make(1);
    let (kit, mut seats) = Kit::make(alloc, &trace, 1)?;
    let hands = Hands {
        rt,
        alloc,
        kit: &kit,
        clock: &clock,
        gate,
    };
    let worked = work(&hands, &trace, 1, &mut seats, rack)?;
    let ending = worked.ending;
    let held = (seats.cpu.holds(0), seats.cpu.holds(trace.cpus));
    let journal = close(alloc, &trace, kit, 1, seats, worked)?;
    Ok(Parts {
        ending,
        held,
        journal,
    })
}
