//! Workers beside each other.

ghost use Rattle.std.specs.Prelude.{IsTrue, ◌↔◌, ◌≡◌, ℕ, Bool, length};
ghost use Rattle.atomic_table.specs.Seated.{TableId};
ghost use Rattle.wbt_kit.specs.declared.kit.Kit.{Kit as AtKit};
ghost use Rattle.wbt_journal.specs.Each.{Each};
ghost use Rattle.wbt_run_worker.specs.Ticking.{MayTick, Ticks};
ghost use Rattle.wbt_run_worker.specs.TimerTurns.{HasTakenTurns, HasTurnedToTheEnd};
ghost use Rattle.wbt_run_worker.specs.Voices.{TimerSpeaks};
ghost use Rattle.wbt_run_beside.specs.Beside.{AllDid, AllHaveGone, AllHaveWorked, AllMay, AllMayWork, HasEnded};

use std::sync::Wait;
use std::thread;
use std::thread::{Threads, join_mut};
use wbt_io::{Clock, Disk, Gate};
use wbt_kit::{Hands, Seats};
use wbt_run_worker::{Condition, TimerWorker, Worker};

/// The timer's worker and those of all CPUs, each in a thread of its own. Where the machine gives no thread for one of them, this thread
/// serves all, one after another, again and again.
///
/// Requires: the timer may tick at the kit with `seats`, and each worker take turns there with seats of its own; the voices of all are of
/// the condition's signals.
pub fn work_beside<'t, H: Threads + Wait + Sync, C: Clock + Sync, G: Gate + Sync, D: Disk + Send>(
    hands: &Hands<H, C, G>,
    condition: &Condition,
    seats: &mut Seats,
    timer: &mut TimerWorker,
    workers: &mut Vec<Worker<'t, D>>,
)
    requires timer { MayTick hands.now.kit.now timer.old.side seats.old }
    requires voice { timer.old.voice.signals ≡ condition.now.signals }
    requires workers { AllMayWork condition.now.signals D.written D.faults hands.now.kit.now workers.old.items }

    // The timer's log tells what it did, at moments that the clock told: turns, one at least. It may go on, and rang the bell only where it was
    // refused memory.
    ensures ticks { Ticks (C.told hands.now.clock.now) timer.old.side timer.new.side seats.old seats.new timer.old.log.items timer.new.log.items }
    ensures may_tick { MayTick hands.now.kit.now timer.new.side seats.new }
    ensures turned { HasTakenTurns (C.told hands.now.clock.now) (G.said hands.now.gate.now) hands.now.kit.now timer.old timer.new seats.old seats.new }
    ensures speaks { TimerSpeaks condition.now.signals timer.old.refused timer.new.refused timer.old.voice timer.new.voice }

    // There are as many workers. Each took its turns, and its side ended for its cause.
    ensures many { length workers.new.items ≡ length workers.old.items }
    ensures worked { AllHaveWorked (C.told hands.now.clock.now) (G.said hands.now.gate.now) D.written D.faults hands.now.kit.now workers.old.items workers.new.items }
{
    work_all(hands, condition, seats, timer, workers.as_mut_slice());
}

// All workers beside each other, and where one got no thread all in turn, until the sides of all have ended.
fn work_all<'t, H: Threads + Wait + Sync, C: Clock + Sync, G: Gate + Sync, D: Disk + Send>(
    hands: &Hands<H, C, G>,
    condition: &Condition,
    seats: &mut Seats,
    timer: &mut TimerWorker,
    workers: &mut [Worker<'t, D>],
)
    requires timer { MayTick hands.now.kit.now timer.old.side seats.old }
    requires voice { timer.old.voice.signals ≡ condition.now.signals }
    requires workers { AllMayWork condition.now.signals D.written D.faults hands.now.kit.now workers.old }
    ensures ticks { Ticks (C.told hands.now.clock.now) timer.old.side timer.new.side seats.old seats.new timer.old.log.items timer.new.log.items }
    ensures may_tick { MayTick hands.now.kit.now timer.new.side seats.new }
    ensures turned { HasTakenTurns (C.told hands.now.clock.now) (G.said hands.now.gate.now) hands.now.kit.now timer.old timer.new seats.old seats.new }
    ensures speaks { TimerSpeaks condition.now.signals timer.old.refused timer.new.refused timer.old.voice timer.new.voice }
    ensures worked { AllHaveWorked (C.told hands.now.clock.now) (G.said hands.now.gate.now) D.written D.faults hands.now.kit.now workers.old workers.new }
{
    join_workers(hands, seats, condition, timer, workers);
    'turns: for _ in hands.rt.forever() {
        if all_ended(workers) {
            return;
        }
        timer.tick_once(hands, seats, condition);
        serve_workers(hands, condition, workers);
    }
    unreachable!()
}

// Whether no worker is to be served in turn any more.
fn all_ended<D>(workers: &[Worker<'_, D>]) -> bool
    ensures { IsTrue result ↔ Each HasEnded workers.now }
{
    for worker in workers {
        if worker.in_turn {
            return false;
        }
    }
    true
}

// What a thread takes up for a CPU, whatever else it refers to.
trait Turns {
    // It may take its turns at the kit, and speak by the signals.
    ghost may: { TableId → AtKit → Self → Type 0 };

    // What became of it by them, of which the clock told the moments, and which the gate let on.
    ghost did: { TableId → (ℕ → Type 0) → (ℕ → ℕ → Bool → Type 0) → AtKit → Self → Self → Type 0 };

    fn take_turns<R: Wait, C: Clock, G: Gate>(
        &mut self,
        hands: &Hands<R, C, G>,
        condition: &Condition,
    )
        requires { may condition.now.signals hands.now.kit.now self.old }
        ensures { did condition.now.signals (C.told hands.now.clock.now) (G.said hands.now.gate.now) hands.now.kit.now self.old self.new };

    // It may go on where it didn't end.
    ghost may_go: { TableId → AtKit → Self → Type 0 };

    // What became of it where it went on for a while.
    ghost went: { TableId → (ℕ → Type 0) → (ℕ → ℕ → Bool → Type 0) → AtKit → Self → Self → Type 0 };

    fn take_more_turns<R: Wait, C: Clock, G: Gate>(
        &mut self,
        hands: &Hands<R, C, G>,
        condition: &Condition,
    )
        requires { may_go condition.now.signals hands.now.kit.now self.old }
        ensures { went condition.now.signals (C.told hands.now.clock.now) (G.said hands.now.gate.now) hands.now.kit.now self.old self.new };
}

impl<'t, D: Disk> Turns for Worker<'t, D> {
    ghost use Rattle.wbt_run_beside.specs.Beside.{HasGone, HasGoneOn, MayGoOn, MayWork};

    ghost may = { λ signals kit worker. MayWork signals D.written D.faults kit worker };

    ghost did = { λ signals told said kit before behind. HasGone signals told said D.written D.faults kit before behind };

    fn take_turns<R: Wait, C: Clock, G: Gate>(
        &mut self,
        hands: &Hands<R, C, G>,
        condition: &Condition,
    ) {
        self.work(hands, condition)
    }

    ghost may_go = { λ signals kit worker. MayGoOn signals D.written D.faults kit worker };

    ghost went = { λ signals told said kit before behind. HasGoneOn signals told said D.written D.faults kit before behind };

    fn take_more_turns<R: Wait, C: Clock, G: Gate>(
        &mut self,
        hands: &Hands<R, C, G>,
        condition: &Condition,
    ) {
        self.go_on(hands, condition)
    }
}

// The timer's worker in one thread, and those of all CPUs in others.
fn join_workers<H: Threads + Wait + Sync, C: Clock + Sync, G: Gate + Sync, W: Turns + Send>(
    hands: &Hands<H, C, G>,
    seats: &mut Seats,
    condition: &Condition,
    timer: &mut TimerWorker,
    workers: &mut [W],
)
    requires timer { MayTick hands.now.kit.now timer.old.side seats.old }
    requires voice { timer.old.voice.signals ≡ condition.now.signals }
    requires workers { AllMay (W.may condition.now.signals hands.now.kit.now) workers.old }
    ensures ticks { Ticks (C.told hands.now.clock.now) timer.old.side timer.new.side seats.old seats.new timer.old.log.items timer.new.log.items }
    ensures may_tick { MayTick hands.now.kit.now timer.new.side seats.new }
    ensures turned { HasTurnedToTheEnd (C.told hands.now.clock.now) (G.said hands.now.gate.now) hands.now.kit.now timer.old timer.new seats.old seats.new }
    ensures speaks { TimerSpeaks condition.now.signals timer.old.refused timer.new.refused timer.old.voice timer.new.voice }
    ensures worked { AllDid (W.did condition.now.signals (C.told hands.now.clock.now) (G.said hands.now.gate.now) hands.now.kit.now) workers.old workers.new }
{
    join_mut(
        hands.rt,
        &mut ||
            requires tick { MayTick hands.now.kit.now timer.now.side seats.now }
            requires voice { timer.now.voice.signals ≡ condition.now.signals }
            ensures ticks { Ticks (C.told hands.entry.now.clock.now) timer.entry.now.side timer.exit.now.side seats.entry.now seats.exit.now timer.entry.now.log.items timer.exit.now.log.items }
            ensures may_tick { MayTick hands.entry.now.kit.now timer.exit.now.side seats.exit.now }
            ensures turned { HasTurnedToTheEnd (C.told hands.entry.now.clock.now) (G.said hands.entry.now.gate.now) hands.entry.now.kit.now timer.entry.now timer.exit.now seats.entry.now seats.exit.now }
            ensures speaks { TimerSpeaks condition.entry.now.signals timer.entry.now.refused timer.exit.now.refused timer.entry.now.voice timer.exit.now.voice }
        { timer.tick(hands, seats, condition) },
        &mut ||
            requires { AllMay (W.may condition.now.signals hands.now.kit.now) workers.now }
            ensures { AllDid (W.did condition.entry.now.signals (C.told hands.entry.now.clock.now) (G.said hands.entry.now.gate.now) hands.entry.now.kit.now) workers.entry.now workers.exit.now }
        { start_workers(hands, condition, workers) },
    );
}

// A worker for each CPU, each on a thread of its own.
fn start_workers<H: Threads + Wait + Sync, C: Clock + Sync, G: Gate + Sync, W: Turns + Send>(
    hands: &Hands<H, C, G>,
    condition: &Condition,
    workers: &mut [W],
)
    requires workers { AllMay (W.may condition.now.signals hands.now.kit.now) workers.old }
    ensures worked { AllDid (W.did condition.now.signals (C.told hands.now.clock.now) (G.said hands.now.gate.now) hands.now.kit.now) workers.old workers.new }
{
    let most = workers.len().max(1);
    thread::for_each_mut(
        hands.rt,
        workers,
        most,
        &|_, worker| worker.take_turns(hands, condition),
    );
}

// Each worker goes on for a while, one after another on this thread.
fn serve_workers<H: Threads + Wait + Sync, C: Clock + Sync, G: Gate + Sync, W: Turns + Send>(
    hands: &Hands<H, C, G>,
    condition: &Condition,
    workers: &mut [W],
)
    requires workers { AllMay (W.may_go condition.now.signals hands.now.kit.now) workers.old }
    ensures went { AllDid (W.went condition.now.signals (C.told hands.now.clock.now) (G.said hands.now.gate.now) hands.now.kit.now) workers.old workers.new }
{
    thread::for_each_mut(
        hands.rt,
        workers,
        1,
        &|_, worker| worker.take_more_turns(hands, condition),
    );
}
