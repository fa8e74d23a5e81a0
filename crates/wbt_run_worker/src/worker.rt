//! The worker of a CPU.

ghost use Rattle.std.specs.Prelude.{◌≡◌, ◌≢◌, true, false, cond, None, Some};
ghost use Rattle.wbt_run_worker.specs.Answers.{ComesOut, Goes};
ghost use Rattle.wbt_run_worker.specs.Course.{HasRun, end_of, stance_of};
ghost use Rattle.wbt_run_worker.specs.MadeRounds.{HasComeOut, HasMadeRounds};
ghost use Rattle.wbt_run_worker.specs.Side.{IsSide};
ghost use Rattle.wbt_run_worker.specs.Team.{team_of};
ghost use Rattle.wbt_run_worker.specs.Voices.{HasLeft, HasSpoken, MaySpeak, Speaks};
ghost use Rattle.wbt_run_worker.specs.Went.{StandsStay};

use crate::condition::Condition;
use crate::round::Round;
use crate::side::{CpuSide, End};
use std::sync::Wait;
use wbt_io::{Clock, Disk, Gate};
use wbt_kit::{Hands, Seats};
use wbt_signals::Voice;

// How many rounds a worker makes at most before the next one is served, where one thread serves all.
const ROUNDS_AT_ONCE: u64 = 256;

/// A CPU's side, with its seats.
pub struct Worker<'t, D> {
    pub seats: Seats,
    pub side: CpuSide<'t, D>,
    /// What it tells the others.
    pub voice: Voice,
    /// Whether it hasn't said yet that it writes no more.
    pub writes: bool,
    /// Whether its side hasn't ended, and one thread is to serve it in turn.
    pub in_turn: bool,
}

impl<'t, D: Disk> Worker<'t, D> {
    /// Takes turns until all tasks have ended, it is cut off, or it hears the bell, and counts itself out. Where not all workers come to their
    /// first turn it is to be served in turn.
    pub fn work<R: Wait, C: Clock, G: Gate>(
        &mut self,
        hands: &Hands<R, C, G>,
        condition: &Condition,
    )
        requires side { IsSide self.old.side.writers.trace self.old.side.writers.cpu hands.now.kit.now (team_of D.written D.faults self.old.side) self.old.seats }
        requires voice { MaySpeak condition.now.signals self.old.writes self.old.voice }
        ensures goes { Goes (C.told hands.now.clock.now) self.old.side.writers.trace self.old.side.writers.cpu hands.now.kit.now (team_of D.written D.faults self.old.side) (team_of D.written D.faults self.new.side) self.old.seats self.new.seats }
        ensures stands { StandsStay self.old.side.posts.items self.new.side.posts.items }
        ensures comes { ComesOut (G.said hands.now.gate.now) self.old.side.writers.trace self.old.side.writers.cpu hands.now.kit.now (end_of self.new) (team_of D.written D.faults self.old.side) (team_of D.written D.faults self.new.side) self.new.seats }
        ensures run { HasRun (C.told hands.now.clock.now) (G.said hands.now.gate.now) hands.now.kit.now (end_of self.new) (stance_of D.written D.faults self.old.side self.old.seats) (stance_of D.written D.faults self.new.side self.new.seats) }
        ensures speaks { HasSpoken condition.now.signals self.new.writes (end_of self.new) self.old.voice self.new.voice }
    {
        condition.meet(hands.clock);
        let end = self.rounds(hands, condition);
        let out = come_out(condition, &mut self.voice, end, self.side.end);
        self.in_turn = out.0;
        self.side.end = out.1;
    }

    // Round after round, beside all others, until its side ends; or it is to be served in turn.
    fn rounds<R: Wait, C: Clock, G: Gate>(
        &mut self,
        hands: &Hands<R, C, G>,
        condition: &Condition,
    ) -> Option<End>
        requires side { IsSide self.old.side.writers.trace self.old.side.writers.cpu hands.now.kit.now (team_of D.written D.faults self.old.side) self.old.seats }
        requires voice { MaySpeak condition.now.signals self.old.writes self.old.voice }
        ensures { HasMadeRounds condition.now.signals (C.told hands.now.clock.now) (G.said hands.now.gate.now) D.written D.faults hands.now.kit.now result self.old self.new }
    {
        'rounds: for _ in hands.rt.forever() {
            if condition.signals.is_rung(&mut self.voice) {
                return Some(End::Stopped);
            }
            if condition.is_in_turns() {
                return None;
            }
            match self.side.round(hands, &mut self.seats) {
                Round::Stepped => {}
                Round::Idle { ticks, writes } => {
                    if is_over(condition, &mut self.voice, &mut self.writes, writes) {
                        return Some(End::Ended);
                    }
                    hands.clock.rest(ticks);
                }
                Round::Ends { end } => {
                    tell_end(condition, &mut self.voice, &mut self.writes, end);
                    return Some(end);
                }
            }
        }
        unreachable!()
    }

    /// Takes turns for a while, where one thread serves all workers: until no job is ready, so many rounds were made, or its side ends. Then it
    /// counts itself out. A worker whose side has ended does nothing.
    pub fn go_on<R: Wait, C: Clock, G: Gate>(
        &mut self,
        hands: &Hands<R, C, G>,
        condition: &Condition,
    )
        requires side { self.old.in_turn ≡ true → IsSide self.old.side.writers.trace self.old.side.writers.cpu hands.now.kit.now (team_of D.written D.faults self.old.side) self.old.seats }
        requires voice { self.old.in_turn ≡ true → MaySpeak condition.now.signals self.old.writes self.old.voice }
        ensures goes { self.old.in_turn ≡ true → Goes (C.told hands.now.clock.now) self.old.side.writers.trace self.old.side.writers.cpu hands.now.kit.now (team_of D.written D.faults self.old.side) (team_of D.written D.faults self.new.side) self.old.seats self.new.seats }
        ensures stands { self.old.in_turn ≡ true → StandsStay self.old.side.posts.items self.new.side.posts.items }
        ensures comes { self.old.in_turn ≡ true → ComesOut (G.said hands.now.gate.now) self.old.side.writers.trace self.old.side.writers.cpu hands.now.kit.now (end_of self.new) (team_of D.written D.faults self.old.side) (team_of D.written D.faults self.new.side) self.new.seats }
        ensures run { self.old.in_turn ≡ true → HasRun (C.told hands.now.clock.now) (G.said hands.now.gate.now) hands.now.kit.now (end_of self.new) (stance_of D.written D.faults self.old.side self.old.seats) (stance_of D.written D.faults self.new.side self.new.seats) }
        ensures speaks { self.old.in_turn ≡ true → HasSpoken condition.now.signals self.new.writes (end_of self.new) self.old.voice self.new.voice }
        ensures stays { self.old.in_turn ≡ false → self.new ≡ self.old }
    {
        if self.in_turn {
            self.work_for_a_while(hands, condition);
        }
    }

    // Takes turns for a while, and counts itself out where its side ends.
    fn work_for_a_while<R: Wait, C: Clock, G: Gate>(
        &mut self,
        hands: &Hands<R, C, G>,
        condition: &Condition,
    )
        requires side { IsSide self.old.side.writers.trace self.old.side.writers.cpu hands.now.kit.now (team_of D.written D.faults self.old.side) self.old.seats }
        requires voice { MaySpeak condition.now.signals self.old.writes self.old.voice }
        ensures { HasComeOut condition.now.signals (C.told hands.now.clock.now) (G.said hands.now.gate.now) D.written D.faults hands.now.kit.now (end_of self.new) self.old self.new }
    {
        let end = self.some_rounds(hands, condition);
        let out = come_out(condition, &mut self.voice, end, self.side.end);
        self.in_turn = out.0;
        self.side.end = out.1;
    }

    // Rounds, up to one in which no job is ready. Nobody else is served meanwhile, so it rests no longer than a tick.
    fn some_rounds<R: Wait, C: Clock, G: Gate>(
        &mut self,
        hands: &Hands<R, C, G>,
        condition: &Condition,
    ) -> Option<End>
        requires side { IsSide self.old.side.writers.trace self.old.side.writers.cpu hands.now.kit.now (team_of D.written D.faults self.old.side) self.old.seats }
        requires voice { MaySpeak condition.now.signals self.old.writes self.old.voice }
        ensures { HasMadeRounds condition.now.signals (C.told hands.now.clock.now) (G.said hands.now.gate.now) D.written D.faults hands.now.kit.now result self.old self.new }
    {
        'rounds: for _ in 0..ROUNDS_AT_ONCE {
            if condition.signals.is_rung(&mut self.voice) {
                return Some(End::Stopped);
            }
            match self.side.round(hands, &mut self.seats) {
                Round::Stepped => {}
                Round::Idle { ticks: _, writes } => {
                    if is_over(condition, &mut self.voice, &mut self.writes, writes) {
                        return Some(End::Ended);
                    }
                    hands.clock.rest(1);
                    return None;
                }
                Round::Ends { end } => {
                    tell_end(condition, &mut self.voice, &mut self.writes, end);
                    return Some(end);
                }
            }
        }
        None
    }
}

// Whether a worker is to be served in turn, and how its side ended. Once that has ended it counts itself out.
fn come_out(condition: &Condition, voice: &mut Voice, end: Option<End>, before: End) -> (bool, End)
    requires voice { voice.old.signals ≡ condition.now.signals }
    requires there { voice.old.there ≡ 1 }
    ensures end { cond result.0 None (Some result.1) ≡ end }
    ensures left { HasLeft end voice.old voice.new }
{
    match end {
        Some(end) => {
            condition.signals.leave(voice);
            (false, end)
        }
        None => (true, before),
    }
}

// Whether nobody writes any more, after an idle round in which the CPU's tasks still write or don't. Once, when they have ended, its voice says so.
fn is_over(condition: &Condition, voice: &mut Voice, writes: &mut bool, still: bool) -> bool
    requires voice { MaySpeak condition.now.signals writes.old voice.old }
    ensures over { result ≡ true → (still ≡ false) × (voice.new.quiet ≡ true) }
    ensures written { result ≡ true → writes.new ≡ false }
    ensures speaks { Speaks condition.now.signals writes.new None voice.old voice.new }
{
    if still {
        return false;
    }
    tell_written(condition, voice, writes);
    condition.signals.is_quiet(voice)
}

// A side was cut off so: it writes no more, and all others are to stop unless it was halted.
fn tell_end(condition: &Condition, voice: &mut Voice, writes: &mut bool, end: End)
    requires voice { MaySpeak condition.now.signals writes.old voice.old }
    requires cut { (end ≢ End.Ended) × (end ≢ End.Stopped) }
    ensures { Speaks condition.now.signals writes.new (Some end) voice.old voice.new }
{
    tell_written(condition, voice, writes);
    if end != End::Halted {
        condition.signals.ring(voice);
    }
}

// A voice says once that its worker writes no more.
fn tell_written(condition: &Condition, voice: &mut Voice, writes: &mut bool)
    requires voice { MaySpeak condition.now.signals writes.old voice.old }
    ensures written { writes.new ≡ false }
    ensures speaks { Speaks condition.now.signals false None voice.old voice.new }
{
    if *writes {
        *writes = false;
        condition.signals.has_written(voice);
    }
}
