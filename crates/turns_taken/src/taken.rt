//! The turns that the first CPU of a trace takes, and what stands in its log.

ghost use Rattle.std.specs.Prelude.{◌<◌, ◌^◌};
ghost use Rattle.wbt_trace.specs.Lawful.{IsLawful};

use crate::moves::Move;
use crate::turning::make_moves;
use std::alloc::Global;
use std::sync::Wait;
use std::test::Fail;
use wbt_io::{Clock, Gate, NoMemory, Rack, StillClock};
use wbt_journal::CpuJournal;
use wbt_kit::{Hands, Kit, Turn};
use wbt_run_lend::{give_posts, make_workers};
use wbt_run_worker::{Condition, CpuSide, Worker};
use wbt_trace::Trace;
use wbt_trace_text::read_trace;

/// One CPU, of which a task writes two pages, and a flusher.
pub const TWO_PAGES: &[u8] =
    b"cpus 1\navail 0 100000\ndevice 0 25600 0 100\ncontext 0 0 0\ninode 0 0 2\ntask 0 0\nflusher 0 0 0\nwrite 0 0 0 2\n";

/// What came of some turns: their answers, up to the one after which none may follow, and the log.
#[derive(Drop)]
pub struct Taken {
    pub turns: Vec<Turn>,
    pub log: CpuJournal,
}

/// The turns of the first CPU of a trace's text, from an opening at 1 on.
pub fn take<H: Wait, R: Rack, C: Clock, G: Gate>(
    rt: &H,
    alloc: Global,
    text: &[u8],
    clock: &C,
    gate: &G,
    rack: &mut R,
    moves: &[Move],
) -> Result<Taken, Fail> {
    let trace = read_trace(alloc, text)?;
    let taken = take_of(rt, alloc, &trace, clock, gate, rack, moves)?;
    Ok(taken)
}

/// The turns of the CPU of the two pages, while the clock stands at 1.
pub fn take_two_pages<H: Wait, R: Rack, G: Gate>(
    rt: &H,
    alloc: Global,
    gate: &G,
    rack: &mut R,
    moves: &[Move],
) -> Result<Taken, Fail> {
    take(
        rt,
        alloc,
        TWO_PAGES,
        &StillClock::make(1),
        gate,
        rack,
        moves,
    )
}

// The turns of the first CPU of a trace, from an opening at 1 on.
fn take_of<H: Wait, R: Rack, C: Clock, G: Gate>(
    rt: &H,
    alloc: Global,
    trace: &Trace,
    clock: &C,
    gate: &G,
    rack: &mut R,
    moves: &[Move],
) -> Result<Taken, NoMemory>
    requires lawful { IsLawful trace.now }
{
    let (kit, mut seats) = Kit::make(alloc, trace, 1)?;
    let hands = Hands {
        rt,
        alloc,
        kit: &kit,
        clock,
        gate,
    };
    let (condition, mut voice) = Condition::make(alloc, trace.cpus)?;
    let mut workers = make_workers(&hands, trace, 1, &mut seats, rack, &condition, &mut voice)?;
    let mut taken = None;
    if !workers.as_slice().is_empty() {
        let Worker { seats, side, .. } = &mut workers[0];
        if let Ok(turns) = make_moves(&hands, side, seats, moves) {
            taken = Some(turns);
        }
    }
    match close(workers, taken, rack) {
        Some(taken) => Ok(taken),
        None => Err(NoMemory),
    }
}

// The first worker's log, and the disks go back.
fn close<R: Rack>(
    workers: Vec<Worker<'_, R::D>>,
    turns: Option<Vec<Turn>>,
    rack: &mut R,
) -> Option<Taken> {
    let mut log = None;
    let mut rest = workers.into_iter();
    while let Some(worker) = rest.next() {
        let Worker {
            seats: _,
            side,
            voice: _,
            writes: _,
            in_turn: _,
        } = worker;
        let CpuSide {
            writers: _,
            posts,
            next: _,
            log: its_log,
            end: _,
        } = side;
        give_posts(posts, rack);
        if log.is_none() {
            log = Some(its_log);
        }
    }
    rest.destroy_empty();
    match (turns, log) {
        (Some(turns), Some(log)) => Some(Taken { turns, log }),
        _ => None,
    }
}
