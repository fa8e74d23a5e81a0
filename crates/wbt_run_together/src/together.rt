//! The workers of a run beside each other, and their seats together again.

ghost use Rattle.std.specs.Prelude.{◌≡◌, ◌≤◌, false, []};
ghost use Rattle.std.specs.Vec.{vec_capacity, vec_len};
ghost use Rattle.wbt_run_seats.specs.Apart.{IsApart};
ghost use Rattle.wbt_run_drain.specs.Standing.{AreStanding, NoneStopped};
ghost use Rattle.wbt_kit.specs.Kit.{IsKitOf};
ghost use Rattle.wbt_trace.specs.Lawful.{IsLawful};
ghost use Rattle.wbt_run_first.specs.Voiced.{AreVoiced, StopsForCause};
ghost use Rattle.wbt_run_first.specs.Seated.{AreSeated, HasTicked, IsFirstTimer, MakeAll, PublishesNone};

use crate::gather::part_workers;
use std::sync::Wait;
use std::thread::Threads;
use wbt_io::{Clock, Disk, Gate};
use wbt_kit::{Hands, Seats};
use wbt_run_beside::work_beside;
use wbt_run_seats::{Apart, take_records};
use wbt_run_worker::{Condition, CpuSide, TimerWorker, Worker};
use wbt_trace::Trace;

/// All workers of a run take their turns, each in a thread of its own as far as the machine gives threads, until each CPU's side has ended
/// and the timer has left. Then the sides of all CPUs are in `sides`, in order, and `seats` have the records of all, and the notes of the
/// CPUs; the timer's notes are answered. There is room for the sides. `trace` and `now`, the moment of the opening, serve the contract
/// alone.
///
/// Requires: a lawful trace with its kit; the timer's worker and those of all CPUs before their first turn, with all voices of the
/// condition, of which the timer's speaks for no worker; no sides, and room for those of all.
pub fn work_together<'t, H: Threads + Wait + Sync, C: Clock + Sync, G: Gate + Sync, D: Disk + Send>(
    hands: &Hands<H, C, G>,
    trace: &Trace,
    now: u64,
    condition: &Condition,
    seats: &mut Seats,
    timer: &mut TimerWorker,
    mut workers: Vec<Worker<'t, D>>,
    sides: &mut Vec<CpuSide<'t, D>>,
) -> Apart
    requires lawful { IsLawful trace.now }
    requires kit { IsKitOf trace.now now hands.now.kit.now }
    requires seated { AreSeated D.written D.faults trace.now now hands.now.kit.now workers.items seats.old }
    requires timer { IsFirstTimer trace.now now timer.old.side timer.old.log.items }
    requires voiced { AreVoiced condition.now.signals timer.old.voice workers.items }
    requires counted { (timer.old.voice.writes ≡ 0) × (timer.old.voice.there ≡ 0) }
    requires not_refused { timer.old.refused ≡ false }
    requires not_halted { timer.old.halted ≡ false }
    requires none { sides.old.items ≡ [] }
    requires room { vec_len workers ≤ vec_capacity sides.old }

    // The sides stand as between any two turns of the drain. The timer's log tells what it did since the opening.
    ensures standing { AreStanding (C.told hands.now.clock.now) (G.said hands.now.gate.now) D.written D.faults trace.now hands.now.kit.now sides.new.items seats.new }
    ensures timer { HasTicked (C.told hands.now.clock.now) trace.now now hands.now.kit.now timer.new.log.items result.share seats.new }

    // Where a side was told to stop, another or the timer has the cause.
    ensures stopped { StopsForCause timer.new.refused sides.new.items }

    // Each worker said once that it leaves, and where no side was told to stop each said once that it writes no more; nobody else did.
    ensures left { timer.new.voice.there ≡ 0 }
    ensures written { NoneStopped sides.new.items → timer.new.voice.writes ≡ 0 }

    // The timer's notes stand apart, with no right to publish. Once they take in the CPUs' all notes are there.
    ensures apart { IsApart hands.now.kit.now result }
    ensures rights { PublishesNone trace.now result.est }
    ensures complete { MakeAll hands.now.kit.now result.share seats.new.share }
{
    work_beside(hands, condition, seats, timer, &mut workers);
    let cpus = part_workers(
        hands.rt,
        hands.kit,
        workers,
        sides,
        condition,
        &mut timer.voice,
    );
    condition.signals.learn(&mut timer.voice);
    take_records(hands.rt, hands.kit, seats, cpus)
}
