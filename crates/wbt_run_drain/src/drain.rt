//! The drain: the flushers of all CPUs take turns on seats that were brought together.

ghost use Rattle.std.specs.Prelude.{◌≡◌, ◌<◌, ◌↔◌, ◌⊎◌, IsTrue, true, false, get_or, length};
ghost use Rattle.wbt_run_drain.specs.Ends.{HaveEnded};
ghost use Rattle.wbt_run_drain.specs.Standing.{AreAllDone, AreStanding, NoneWaitsForAge, NothingWaits, WentOn};
ghost use Rattle.wbt_run_worker.specs.declared.side.End.TheVariants.{Ended};
ghost use Rattle.wbt_run_worker.specs.declared.side.Stand.TheVariants.{Open};
ghost use Rattle.wbt_run_drain.specs.Turned.{AreOver, HasTurned, IsLast, IsOver, MayTurn, NoneRefused, NoneRefusedMore, OnlySide, StopsAtRefusal, end_by, rest_after, stand_by};

use std::sync::Wait;
use wbt_io::{Clock, Disk, Gate};
use wbt_kit::{Hands, Seats};
use wbt_run_worker::{CpuSide, End, JobOutcome, MOST_REST, Post, Stand, job_of};
use wbt_trace::Trace;

// What came of a pass over the flushers.
#[derive(Clone, Copy)]
struct Pass {
    // Whether one of them took a turn.
    stepped: bool,
    // Whether one of them is to be turned again.
    again: bool,
    // In how many ticks the first of those is ready that rest.
    ticks: u64,
}

// Before a flusher was seen.
const NOBODY: Pass = Pass {
    stepped: false,
    again: false,
    ticks: MOST_REST,
};

impl Pass {
    // A flusher's turn more.
    fn with(self, job: JobOutcome) -> Pass
        ensures last { result.again ≡ false → (self.again ≡ false) × IsLast job }
        ensures stepped { (result.stepped ≡ true) ↔ ((self.stepped ≡ true) ⊎ (job ≡ JobOutcome.Stepped)) }
        ensures ticks { result.ticks ≡ rest_after job self.ticks }
    {
        match job {
            JobOutcome::Stepped => Pass {
                stepped: true,
                again: true,
                ..self
            },
            JobOutcome::Resting { ticks } => Pass {
                again: true,
                ticks: self.ticks.min(ticks),
                ..self
            },
            JobOutcome::Over | JobOutcome::Ends { end: _ } => self,
        }
    }
}

/// Turns each flusher that is open until none is. One that was halted, faulted or spent is turned no more; nor is another of a CPU of
/// which one was halted. It stops where memory is refused. Where each flusher was done, each number that was ever put into a device's queue
/// was taken, and no inode waits for its age. `sides` are those of all CPUs of the trace, in order, and `seats` hold all.
/// `trace` serves the contract alone, here and in each pass.
pub fn drain<R: Wait, C: Clock, G: Gate, D: Disk>(
    hands: &Hands<R, C, G>,
    trace: &Trace,
    seats: &mut Seats,
    sides: &mut [CpuSide<'_, D>],
)
    requires standing { AreStanding (C.told hands.now.clock.now) (G.said hands.now.gate.now) D.written D.faults trace.now hands.now.kit.now sides.old seats.old }
    ensures standing { AreStanding (C.told hands.now.clock.now) (G.said hands.now.gate.now) D.written D.faults trace.now hands.now.kit.now sides.new seats.new }
    ensures went { WentOn trace.now sides.old sides.new seats.old seats.new }
    ensures over { HaveEnded sides.new → AreAllDone sides.new }
    ensures emptied { HaveEnded sides.new → NothingWaits trace.now seats.new }
    ensures aged { HaveEnded sides.new → NoneWaitsForAge sides.new }

    // Of a CPU that goes on no flusher is open, though another CPU was halted. The drain stops at the first flusher that is refused memory.
    ensures others { NoneRefused sides.new → AreOver sides.new }
    ensures stops { StopsAtRefusal sides.old sides.new }
{
    'passes: for _ in hands.rt.forever() {
        let pass = pass_all(hands, trace, seats, sides);
        if !pass.again {
            return;
        }
        if !pass.stepped {
            hands.clock.rest(pass.ticks);
        }
    }
    unreachable!()
}

// Each open flusher of each side takes a turn. Where none is to be turned again each was done, or a side ended.
fn pass_all<R: Wait, C: Clock, G: Gate, D: Disk>(
    hands: &Hands<R, C, G>,
    trace: &Trace,
    seats: &mut Seats,
    sides: &mut [CpuSide<'_, D>],
) -> Pass
    requires standing { AreStanding (C.told hands.now.clock.now) (G.said hands.now.gate.now) D.written D.faults trace.now hands.now.kit.now sides.old seats.old }
    ensures standing { AreStanding (C.told hands.now.clock.now) (G.said hands.now.gate.now) D.written D.faults trace.now hands.now.kit.now sides.new seats.new }
    ensures went { WentOn trace.now sides.old sides.new seats.old seats.new }
    ensures over { result.again ≡ false → HaveEnded sides.new → AreAllDone sides.new }
    ensures others { result.again ≡ false → NoneRefused sides.new → AreOver sides.new }
    ensures goes { result.again ≡ true → NoneRefusedMore sides.old sides.new }
    ensures stops { StopsAtRefusal sides.old sides.new }
{
    let mut pass = NOBODY;
    'cpus: for cpu in 0..sides.len() {
        pass = pass_side(hands, trace, seats, sides, cpu, pass);
        if ends_so(&sides[cpu], End::Refused) {
            return NOBODY;
        }
    }
    pass
}

// Each open flusher of a CPU's side takes a turn, as long as none of them is halted.
fn pass_side<R: Wait, C: Clock, G: Gate, D: Disk>(
    hands: &Hands<R, C, G>,
    trace: &Trace,
    seats: &mut Seats,
    sides: &mut [CpuSide<'_, D>],
    cpu: usize,
    before: Pass,
) -> Pass
    requires there { cpu < length sides.old }
    requires standing { AreStanding (C.told hands.now.clock.now) (G.said hands.now.gate.now) D.written D.faults trace.now hands.now.kit.now sides.old seats.old }
    ensures standing { AreStanding (C.told hands.now.clock.now) (G.said hands.now.gate.now) D.written D.faults trace.now hands.now.kit.now sides.new seats.new }
    ensures went { WentOn trace.now sides.old sides.new seats.old seats.new }
    ensures only { OnlySide cpu sides.old sides.new }
    ensures before { result.again ≡ false → before.again ≡ false }
    ensures over { result.again ≡ false → (other : _) → IsOver (get_or sides.new cpu other) }
{
    let mut pass = before;
    'posts: for at in 0..sides[cpu].posts.len() {
        if !goes_on(&sides[cpu]) {
            return pass;
        }
        if is_open(&sides[cpu].posts[at]) {
            let job = turn_post(hands, seats, &mut sides[cpu], at);
            pass = pass.with(job);
        }
    }
    pass
}

// Whether the side ended so.
fn ends_so<D>(side: &CpuSide<'_, D>, end: End) -> bool
    ensures { IsTrue result ↔ (side.now.end ≡ end) }
{
    side.end == end
}

// Whether flushers of the side are turned.
fn goes_on<D>(side: &CpuSide<'_, D>) -> bool
    ensures { IsTrue result ↔ (side.now.end ≡ Ended) }
{
    side.end == End::Ended
}

// Whether the flusher is.
fn is_open<D>(post: &Post<D>) -> bool
    ensures { IsTrue result ↔ (post.now.stand ≡ Open) }
{
    post.stand == Stand::Open
}

// The turn of the flusher of this place, and where it stands after it.
fn turn_post<R: Wait, C: Clock, G: Gate, D: Disk>(
    hands: &Hands<R, C, G>,
    seats: &mut Seats,
    side: &mut CpuSide<'_, D>,
    at: usize,
) -> JobOutcome
    requires may { MayTurn hands.now.kit.now at side.old seats.old }
    ensures turned { HasTurned (C.told hands.now.clock.now) (G.said hands.now.gate.now) D.written D.faults hands.now.kit.now at result side.old side.new seats.old seats.new }
{
    let post = &mut side.posts[at];
    let job = job_of(post.flusher.turn(hands, seats, true, &mut side.log));
    post.stand = stand_of(job, post.stand);
    side.end = end_of(job, side.end);
    job
}

// Where a flusher stands after a turn.
fn stand_of(job: JobOutcome, stand: Stand) -> Stand
    ensures { result ≡ stand_by job stand }
{
    match job {
        JobOutcome::Over => Stand::Done,
        JobOutcome::Ends { end } => Stand::Out { end },
        JobOutcome::Stepped | JobOutcome::Resting { ticks: _ } => stand,
    }
}

// How its side ended then.
fn end_of(job: JobOutcome, end: End) -> End
    ensures { result ≡ end_by job end }
{
    match job {
        JobOutcome::Ends { end: by } if by == End::Halted || by == End::Refused => by,
        _ => end,
    }
}
