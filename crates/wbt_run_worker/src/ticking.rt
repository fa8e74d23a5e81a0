//! The timer's worker.

ghost use Rattle.std.specs.Prelude.{◌≡◌, ◌⊎◌, true};
ghost use Rattle.wbt_timer.specs.Ready.{IsReady};
ghost use Rattle.wbt_run_worker.specs.Ticking.{MayTick, Ticks};
ghost use Rattle.wbt_run_worker.specs.TimerTurns.{HasTurnedOnce, HasTurnedToTheEnd, TakesATurn, TimerTakesTurn};
ghost use Rattle.wbt_run_worker.specs.Voices.{LeavesFor, TimerSpeaks};

use crate::condition::Condition;
use crate::round::MOST_REST;
use std::sync::Wait;
use wbt_io::{Clock, Gate};
use wbt_journal::TimerEntry;
use wbt_kit::{Hands, Seats, Turn};
use wbt_signals::Voice;
use wbt_timer::TimerSide;

/// The timer's side, with what it told.
#[derive(Drop)]
pub struct TimerWorker {
    pub side: TimerSide,
    pub log: Vec<TimerEntry>,
    /// Whether memory was refused.
    pub refused: bool,
    /// Whether the gate stopped it: then it takes no more turns.
    pub halted: bool,
    /// Whether one thread is to serve it in turn.
    pub in_turn: bool,
    /// What it tells the CPUs' workers.
    pub voice: Voice,
}

impl TimerWorker {
    /// Takes a turn, and then turns until all tasks have ended, and waits until the CPUs' workers have left. Where not all workers come to their
    /// first turn it leaves after its own, and so it does where the gate stops it.
    pub fn tick<R: Wait, C: Clock, G: Gate>(
        &mut self,
        hands: &Hands<R, C, G>,
        seats: &mut Seats,
        condition: &Condition,
    )
        requires may { MayTick hands.now.kit.now self.old.side seats.old }
        requires voice { self.old.voice.signals ≡ condition.now.signals }
        ensures ticks { Ticks (C.told hands.now.clock.now) self.old.side self.new.side seats.old seats.new self.old.log.items self.new.log.items }
        ensures may { MayTick hands.now.kit.now self.new.side seats.new }
        ensures ready { (trace : _) → IsReady trace hands.now.kit.now self.old.side seats.old → IsReady trace hands.now.kit.now self.new.side seats.new }
        ensures turns { HasTurnedToTheEnd (C.told hands.now.clock.now) (G.said hands.now.gate.now) hands.now.kit.now self.old self.new seats.old seats.new }
        ensures speaks { TimerSpeaks condition.now.signals self.old.refused self.new.refused self.old.voice self.new.voice }
        ensures leaves { LeavesFor self.new.refused self.new.halted self.new.in_turn self.new.voice }
    {
        condition.meet(hands.clock);
        for _ in hands.rt.forever() {
            if !self.turn_and_rest(hands, seats, condition) {
                return;
            }
            if is_to_leave(hands, condition, &mut self.voice, &mut self.in_turn) {
                return;
            }
        }
        unreachable!()
    }

    // Takes a turn, and rests where that says so. Whether it may take another one.
    fn turn_and_rest<R: Wait, C: Clock, G: Gate>(
        &mut self,
        hands: &Hands<R, C, G>,
        seats: &mut Seats,
        condition: &Condition,
    ) -> bool
        requires may { MayTick hands.now.kit.now self.old.side seats.old }
        requires voice { self.old.voice.signals ≡ condition.now.signals }
        ensures ticks { Ticks (C.told hands.now.clock.now) self.old.side self.new.side seats.old seats.new self.old.log.items self.new.log.items }
        ensures may { MayTick hands.now.kit.now self.new.side seats.new }
        ensures turn { TakesATurn (C.told hands.now.clock.now) (G.said hands.now.gate.now) hands.now.kit.now result self.old self.new seats.old seats.new }
        ensures speaks { TimerSpeaks condition.now.signals self.old.refused self.new.refused self.old.voice self.new.voice }
    {
        match self.take_turn(hands, seats, condition) {
            Turn::Halted => false,
            Turn::NoMemory => false,
            Turn::Resting { now, until } => {
                hands.clock.rest((until - now).min(MOST_REST));
                true
            }
            _ => true,
        }
    }

    /// Takes a turn, where one thread serves all workers, not all tasks have ended, and the gate hasn't stopped it.
    pub fn tick_once<R: Wait, C: Clock, G: Gate>(
        &mut self,
        hands: &Hands<R, C, G>,
        seats: &mut Seats,
        condition: &Condition,
    )
        requires may { MayTick hands.now.kit.now self.old.side seats.old }
        requires voice { self.old.voice.signals ≡ condition.now.signals }
        ensures ticks { Ticks (C.told hands.now.clock.now) self.old.side self.new.side seats.old seats.new self.old.log.items self.new.log.items }
        ensures may { MayTick hands.now.kit.now self.new.side seats.new }
        ensures ready { (trace : _) → IsReady trace hands.now.kit.now self.old.side seats.old → IsReady trace hands.now.kit.now self.new.side seats.new }
        ensures turns { HasTurnedOnce (C.told hands.now.clock.now) (G.said hands.now.gate.now) hands.now.kit.now self.old self.new seats.old seats.new }
        ensures speaks { TimerSpeaks condition.now.signals self.old.refused self.new.refused self.old.voice self.new.voice }
    {
        if condition.signals.is_quiet(&mut self.voice) {
            return;
        }
        if self.halted {
            return;
        }
        let _turn = self.take_turn(hands, seats, condition);
    }

    // Takes a turn. Where memory is refused it rings the bell.
    fn take_turn<R: Wait, C: Clock, G: Gate>(
        &mut self,
        hands: &Hands<R, C, G>,
        seats: &mut Seats,
        condition: &Condition,
    ) -> Turn
        requires may { MayTick hands.now.kit.now self.old.side seats.old }
        requires voice { self.old.voice.signals ≡ condition.now.signals }
        ensures ticks { Ticks (C.told hands.now.clock.now) self.old.side self.new.side seats.old seats.new self.old.log.items self.new.log.items }
        ensures may { MayTick hands.now.kit.now self.new.side seats.new }
        ensures turn { TimerTakesTurn (C.told hands.now.clock.now) (G.said hands.now.gate.now) hands.now.kit.now result self.old self.new seats.old seats.new }
        ensures speaks { TimerSpeaks condition.now.signals self.old.refused self.new.refused self.old.voice self.new.voice }
    {
        match self.side.turn(
            hands.alloc,
            hands.kit,
            seats,
            hands.clock,
            hands.gate,
            &mut self.log,
        ) {
            Turn::Halted => {
                self.halted = true;
                Turn::Halted
            }
            Turn::NoMemory => {
                self.refused = true;
                condition.signals.ring(&mut self.voice);
                Turn::NoMemory
            }
            turn => turn,
        }
    }
}

// Whether the timer is to leave: all CPUs' workers have left, or one thread is to serve it in turn. Where no task writes any more it waits for
// one of these.
fn is_to_leave<R: Wait, C: Clock, G>(
    hands: &Hands<R, C, G>,
    condition: &Condition,
    voice: &mut Voice,
    in_turn: &mut bool,
) -> bool
    requires voice { voice.old.signals ≡ condition.now.signals }
    ensures cause { result ≡ true → (in_turn.new ≡ true) ⊎ (voice.new.gone ≡ true) }
    ensures rings { voice.new.rings ≡ voice.old.rings }
    ensures speaks { (refused : _) → TimerSpeaks condition.now.signals refused refused voice.old voice.new }
{
    for _ in hands.rt.forever() {
        if condition.signals.all_have_left(voice) {
            return true;
        }
        if condition.is_in_turns() {
            *in_turn = true;
            return true;
        }
        if !condition.signals.is_quiet(voice) {
            return false;
        }
        hands.clock.rest(1);
    }
    unreachable!()
}
