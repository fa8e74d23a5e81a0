//! A turn of the timer.

ghost use Rattle.std.specs.Prelude.{◌≡◌, ◌+◌, ◌*◌, ◌^◌, ◌<◌, ◌≤◌, IsTrue, false, length};
ghost use Rattle.std.specs.Vec.{vec_capacity, vec_len};
ghost use Rattle.wbt_table.specs.Layout.{domains};
ghost use Rattle.wbt_kit.specs.Kit.{AreSeatsOf, HasTimer};
ghost use Rattle.wbt_kit.specs.declared.turn.Turn.TheVariants.{Halted};
ghost use Rattle.wbt_timer.specs.Gate.{AskedBeforePublishing};
ghost use Rattle.wbt_timer.specs.Kinds.{CutsTurn, HasSealed, StepsBy, TakesTurn};
ghost use Rattle.wbt_timer.specs.Ready.{IsReady};
ghost use Rattle.wbt_timer.specs.Side.{next_of};
ghost use Rattle.wbt_timer.specs.Turn.{IsTimerStopped, TimerAnswers, TimerHalts, TimerSteps};

use crate::limits::publish_each;
use crate::periods::begin_each;
use crate::side::TimerSide;
use std::alloc::Global;
use wbt_io::{Clock, Gate, told_moment};
use wbt_journal::TimerEntry;
use wbt_kit::{Kit, Seats, Turn};
use wbt_rules::{PERIOD_TICKS, periods_by};

impl TimerSide {
    /// A turn of the timer, at one moment that the clock tells. It rests where its next turn comes after that moment. Else it finds,
    /// raises and publishes the limits of each domain in order, and begins the periods that have come; the next ones come by the
    /// clock, whatever became of these. Where the last sequence of a domain stands already its limits stay, and have no line. It is
    /// Halted where the gate stopped it in a publication, and then begins no periods; the gate is asked before each step that publishes,
    /// and before no other. All memory is taken before the first step: where
    /// it is refused nothing was done.
    ///
    /// Its steps are, for each domain, that it loads the count, raises the peak, and publishes by `unseal`, `thresh` and `publish`; these
    /// three are left out where the last sequence stands. Halted it has made a first part of them, and where it rests none. The first
    /// publication of a domain after one that was stopped has no `unseal`.
    pub fn turn<C: Clock, G: Gate>(
        &mut self,
        _alloc: Global,
        kit: &Kit,
        seats: &mut Seats,
        clock: &C,
        gate: &G,
        log: &mut Vec<TimerEntry>,
    ) -> Turn
        requires domains { (length self.old.domains ≡ domains kit.now.throttle.layout) × (length self.old.domains ≡ length kit.now.shares.domains) }
        requires seats { AreSeatsOf kit.now seats.old }
        requires timer { (r : _) × HasTimer r seats.old }
        ensures seats { AreSeatsOf kit.now seats.new }
        ensures answers { TimerAnswers (C.told clock.now) result self.old self.new seats.old seats.new log.old.items log.new.items }
        ensures stopped { result ≡ Halted → IsTimerStopped (G.said gate.now kit.now.throttle.layout.cpus) seats.new }
        ensures asked { AskedBeforePublishing kit.now (G.said gate.now kit.now.throttle.layout.cpus) seats.old seats.new }
        ensures steps { HasSealed seats.old → StepsBy (domains kit.now.throttle.layout) result seats.old seats.new }
        ensures ready { (trace : _) → IsReady trace kit.now self.old seats.old → IsReady trace kit.now self.new seats.new }
    {
        self.answer(kit, seats, clock, gate, log)
    }

    // What the turn answers.
    #[tactic(auto, using(crate::proofs::Asking::asked_none))]
    fn answer<C: Clock, G: Gate>(
        &mut self,
        kit: &Kit,
        seats: &mut Seats,
        clock: &C,
        gate: &G,
        log: &mut Vec<TimerEntry>,
    ) -> Turn
        requires domains { (length self.old.domains ≡ domains kit.now.throttle.layout) × (length self.old.domains ≡ length kit.now.shares.domains) }
        requires seats { AreSeatsOf kit.now seats.old }
        requires timer { (r : _) × HasTimer r seats.old }
        ensures seats { AreSeatsOf kit.now seats.new }
        ensures answers { TimerAnswers (C.told clock.now) result self.old self.new seats.old seats.new log.old.items log.new.items }
        ensures stopped { result ≡ Halted → IsTimerStopped (G.said gate.now kit.now.throttle.layout.cpus) seats.new }
        ensures asked { AskedBeforePublishing kit.now (G.said gate.now kit.now.throttle.layout.cpus) seats.old seats.new }
        ensures steps { HasSealed seats.old → StepsBy (domains kit.now.throttle.layout) result seats.old seats.new }
    {
        let now = told_moment(clock);
        let until = self.next();
        if now < until {
            return Turn::Resting { now, until };
        }
        match log.reserve(2 * self.domains.len()) {
            Ok(()) => {
                if self.step(kit, seats, now, gate, log) {
                    Turn::Stepped
                } else {
                    Turn::Halted
                }
            }
            Err(_) => Turn::NoMemory,
        }
    }

    // The turn at this moment, whole; false where the gate stopped it. There is room for its lines.
    fn step<G: Gate>(
        &mut self,
        kit: &Kit,
        seats: &mut Seats,
        now: u64,
        gate: &G,
        log: &mut Vec<TimerEntry>,
    ) -> bool
        requires domains { (length self.old.domains ≡ domains kit.now.throttle.layout) × (length self.old.domains ≡ length kit.now.shares.domains) }
        requires seats { AreSeatsOf kit.now seats.old }
        requires timer { (r : _) × HasTimer r seats.old }
        requires late { next_of self.old ≤ now }
        requires moment { now < 2 ^ 62 }
        requires room { vec_len log.old + 2 * length self.old.domains ≤ vec_capacity log.old }
        ensures seats { AreSeatsOf kit.now seats.new }
        ensures steps { IsTrue result → TimerSteps now self.old self.new seats.old seats.new log.old.items log.new.items }
        ensures halts { result ≡ false → TimerHalts now self.old self.new seats.old seats.new log.old.items log.new.items }
        ensures stopped { result ≡ false → IsTimerStopped (G.said gate.now kit.now.throttle.layout.cpus) seats.new }
        ensures asked { AskedBeforePublishing kit.now (G.said gate.now kit.now.throttle.layout.cpus) seats.old seats.new }
        ensures takes_turn { IsTrue result → HasSealed seats.old → TakesTurn (domains kit.now.throttle.layout) seats.old seats.new }
        ensures cuts_turn { result ≡ false → HasSealed seats.old → CutsTurn (domains kit.now.throttle.layout) seats.old seats.new }
    {
        let through = publish_each(&self.machine, &mut self.domains, kit, seats, now, gate, log);
        self.last = now;
        if !through {
            return false;
        }
        let come = periods_by(now, self.period);
        begin_each(&mut self.domains, come, kit, seats, log);
        self.period += PERIOD_TICKS * come;
        true
    }
}
