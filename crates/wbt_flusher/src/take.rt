//! An idle flusher takes an inode of its device's queue.

ghost use Rattle.std.specs.Prelude.{◌≡◌, ◌⊎◌, ◌↔◌, ◌+◌, ◌<◌, ◌≤◌, ◌^◌, IsTrue, IsFalse, Bool, true, false, Contains, IfNone, IfSome, [], length, Option};
ghost use Rattle.wbt_queue.specs.Order.{HasTaken};
ghost use Rattle.wbt_queue.specs.Passes as queue;
ghost use Rattle.wbt_turns.specs.Words.{MayTake};
ghost use Rattle.wbt_run_steps.specs.Gate.{AskedBeforeEach};
ghost use Rattle.wbt_run_steps.specs.Kinds.{Steps, StepsInTurn};
ghost use Rattle.wbt_run_steps.specs.Inodes.{OnlyQueue};
ghost use Rattle.wbt_run_steps.specs.Queues.{OnlyDevice};
ghost use Rattle.wbt_flusher.specs.Answers.{Ends, IsReady};
ghost use Rattle.wbt_flusher.specs.Cut.{FindsNothing, LosesIdle, LosesInode, LosesLast, TestsSome};
ghost use Rattle.wbt_flusher.specs.Did.{Fits};
ghost use Rattle.wbt_flusher.specs.Loads.{AnyOver};
ghost use Rattle.wbt_flusher.specs.Plans.{IsInode, Suits};
ghost use Rattle.wbt_flusher.specs.Sights.{list_by, sight};
ghost use Rattle.wbt_flusher.specs.Took.{Decides, TakesLast, TakesOrRests, TakesUp, TestsAt};
ghost use Rattle.wbt_flusher.specs.Turns.{IsIdle};
ghost use Rattle.wbt_flusher.specs.declared.work.Phase.TheVariants.{Idle};
ghost use Rattle.wbt_kit.specs.declared.turn.Turn.TheVariants.{Done, Halted, Spent, Stepped};
ghost use Rattle.wbt_rules.specs.declared.age.TheConstants.{MOST_NOTICED};

use crate::plan::FlusherPlan;
use crate::weigh::is_or_was;
use crate::work::FlusherWork;
use std::sync::Wait;
use wbt_io::Gate;
use wbt_kit::{Hands, Seats, Turn};
use wbt_rules::FLUSHER_REST;
use wbt_run_steps::Pen;

impl FlusherPlan {
    /// Reads each domain, updates the estimates that are old enough, weighs the contexts of a strict device, and takes an inode where a
    /// domain is over background, or such a context by itself.
    pub fn turn_idle<R: Wait, C, G: Gate>(
        &self,
        work: &mut FlusherWork,
        hands: &Hands<R, C, G>,
        seats: &mut Seats,
        pen: &mut Pen,
        now: u64,
    ) -> Turn
        requires suits { Suits self.now hands.now.kit.now }
        requires ready { IsReady self.now hands.now.kit.now work.old seats.old }
        requires idle { IsIdle work.old }
        requires moment { now < 2 ^ 62 }
        requires room { length self.now.contexts + MOST_NOTICED + 1 ≤ pen.old.room }
        requires estimates { length self.now.contexts ≤ pen.old.estimates }
        ensures asked { AskedBeforeEach self.now.cpu (G.said hands.now.gate.now) seats.old seats.new }
        ensures kinds { StepsInTurn self.now.domains self.now.cpu result seats.old seats.new }
        ensures ends { (moments : _) (written : Option _) → Contains moments.estimates now → Ends self.now hands.now.kit.now false moments (G.said hands.now.gate.now) ⊥ result (sight work.old seats.old pen.old.log written) (sight work.new seats.new pen.new.log written) }
        ensures tests { result ≡ Stepped → (written : Option _) → TestsAt self.now hands.now.kit.now now (sight work.old seats.old pen.old.log written) (sight work.new seats.new pen.new.log written) }
        ensures halts { result ≡ Halted → (written : Option _) → TestsSome self.now hands.now.kit.now now (sight work.old seats.old pen.old.log written) (sight work.new seats.new pen.new.log written) }
        ensures unspent { result ≡ Spent → ⊥ }
        ensures faults { work.new.faults ≡ work.old.faults }
    {
        match self.test(hands, seats) {
            None => Turn::Halted,
            Some(test) => {
                work.hard = test.global.limits.hard;
                if !self.measure_all(work, hands, seats, pen, now, &test.global) {
                    return Turn::Halted;
                }
                match self.weigh_all(work, hands, seats) {
                    None => Turn::Halted,
                    Some(own) => {
                        let over = is_or_was(test.over, own);
                        self.decide(work, hands, seats, pen, over, now)
                    }
                }
            }
        }
    }

    // Where its device is ageing it decides by age, and else by what is over background alone.
    fn decide<R: Wait, C, G: Gate>(
        &self,
        work: &mut FlusherWork,
        hands: &Hands<R, C, G>,
        seats: &mut Seats,
        pen: &mut Pen,
        over: bool,
        now: u64,
    ) -> Turn
        requires suits { Suits self.now hands.now.kit.now }
        requires ready { IsReady self.now hands.now.kit.now work.old seats.old }
        requires idle { IsIdle work.old }
        requires moment { now < 2 ^ 62 }
        requires room { MOST_NOTICED + 1 ≤ pen.old.room }
        ensures asked { AskedBeforeEach self.now.cpu (G.said hands.now.gate.now) seats.old seats.new }
        ensures kinds { Steps self.now.cpu MayTake seats.old seats.new }
        ensures ends { (moments : _) (written : Option _) → Contains moments.estimates now → Ends self.now hands.now.kit.now false moments (G.said hands.now.gate.now) ⊥ result (sight work.old seats.old pen.old.log written) (sight work.new seats.new pen.new.log written) }
        ensures decides { result ≡ Stepped → (loads : _) (own : Bool) (written : Option _) → (IsTrue over ↔ (AnyOver loads ⊎ (own ≡ true))) → Decides self.now hands.now.kit.now now loads own (sight work.old seats.old pen.old.log written) (sight work.new seats.new pen.new.log written) }
        ensures halts { result ≡ Halted → (written : Option _) → LosesIdle self.now now over (sight work.old seats.old pen.old.log written) (sight work.new seats.new pen.new.log written) }
        ensures unspent { result ≡ Spent → ⊥ }
        ensures faults { work.new.faults ≡ work.old.faults }
    {
        if self.ages {
            return self.decide_by_age(work, hands, seats, pen, over, now);
        }
        self.decide_by_background(work, hands, seats, over, now + FLUSHER_REST)
    }

    // Takes an inode where something is over background, and else rests until a moment.
    fn decide_by_background<R: Wait, C, G: Gate>(
        &self,
        work: &mut FlusherWork,
        hands: &Hands<R, C, G>,
        seats: &mut Seats,
        over: bool,
        until: u64,
    ) -> Turn
        requires suits { Suits self.now hands.now.kit.now }
        requires ready { IsReady self.now hands.now.kit.now work.old seats.old }
        requires idle { IsIdle work.old }
        ensures asked { AskedBeforeEach self.now.cpu (G.said hands.now.gate.now) seats.old seats.new }
        ensures kinds { Steps self.now.cpu MayTake seats.old seats.new }
        ensures ends { (moments : _) (log : _) (written : Option _) → Ends self.now hands.now.kit.now false moments (G.said hands.now.gate.now) ⊥ result (sight work.old seats.old log written) (sight work.new seats.new log written) }
        ensures calm { IsFalse over → (result ≡ Stepped) × (seats.new ≡ seats.old) × (work.new ≡ record work.old { phase = Idle until false }) }
        ensures takes { result ≡ Stepped → IsTrue over → (log : _) (written : Option _) → TakesOrRests self.now hands.now.kit.now until (sight work.old seats.old log written) (sight work.new seats.new log written) }
        ensures halts { result ≡ Halted → IsTrue over × ((log : _) (written : Option _) → LosesInode self.now (sight work.old seats.old log written) (sight work.new seats.new log written)) }
        ensures unspent { result ≡ Spent → ⊥ }
        ensures faults { work.new.faults ≡ work.old.faults }
    {
        if !over {
            self.be_idle(work, until, false);
            return Turn::Stepped;
        }
        self.take_or_rest(work, hands, seats, until)
    }

    // Takes an inode, and rests until a moment where there is none.
    fn take_or_rest<R: Wait, C, G: Gate>(
        &self,
        work: &mut FlusherWork,
        hands: &Hands<R, C, G>,
        seats: &mut Seats,
        until: u64,
    ) -> Turn
        requires suits { Suits self.now hands.now.kit.now }
        requires ready { IsReady self.now hands.now.kit.now work.old seats.old }
        requires idle { IsIdle work.old }
        ensures asked { AskedBeforeEach self.now.cpu (G.said hands.now.gate.now) seats.old seats.new }
        ensures kinds { Steps self.now.cpu MayTake seats.old seats.new }
        ensures ends { (moments : _) (log : _) (written : Option _) → Ends self.now hands.now.kit.now false moments (G.said hands.now.gate.now) ⊥ result (sight work.old seats.old log written) (sight work.new seats.new log written) }
        ensures takes { result ≡ Stepped → (log : _) (written : Option _) → TakesOrRests self.now hands.now.kit.now until (sight work.old seats.old log written) (sight work.new seats.new log written) }
        ensures halts { result ≡ Halted → (log : _) (written : Option _) → LosesInode self.now (sight work.old seats.old log written) (sight work.new seats.new log written) }
        ensures unspent { result ≡ Spent → ⊥ }
        ensures faults { work.new.faults ≡ work.old.faults }
    {
        match self.take(hands, seats) {
            None => {
                self.be_idle(work, until, false);
                Turn::Stepped
            }
            Some(inode) => self.begin_taken(work, hands, seats, inode),
        }
    }

    /// In the drain it takes the first inode that waits for its age at once, or where none waits one of the queue. It is done where
    /// there is none of either, and none waits for the queue.
    pub fn take_last<R: Wait, C, G: Gate>(
        &self,
        work: &mut FlusherWork,
        hands: &Hands<R, C, G>,
        seats: &mut Seats,
        pen: &mut Pen,
    ) -> Turn
        requires suits { Suits self.now hands.now.kit.now }
        requires ready { IsReady self.now hands.now.kit.now work.old seats.old }
        requires idle { IsIdle work.old }
        requires room { 1 ≤ pen.old.room }
        ensures asked { AskedBeforeEach self.now.cpu (G.said hands.now.gate.now) seats.old seats.new }
        ensures kinds { Steps self.now.cpu MayTake seats.old seats.new }
        ensures ends { (moments : _) (written : Option _) → Ends self.now hands.now.kit.now true moments (G.said hands.now.gate.now) ⊥ result (sight work.old seats.old pen.old.log written) (sight work.new seats.new pen.new.log written) }
        ensures takes { result ≡ Stepped → (written : Option _) → TakesLast self.now hands.now.kit.now (sight work.old seats.old pen.old.log written) (sight work.new seats.new pen.new.log written) }
        ensures halts { result ≡ Halted → (written : Option _) → LosesLast self.now (sight work.old seats.old pen.old.log written) (sight work.new seats.new pen.new.log written) }
        ensures unspent { result ≡ Spent → ⊥ }
        ensures done { result ≡ Done → (written : Option _) → FindsNothing self.now (sight work.old seats.old pen.old.log written) (sight work.new seats.new pen.new.log written) }
        ensures faults { work.new.faults ≡ work.old.faults }
    {
        match self.take_first(work, pen) {
            None => self.take_queued(work, hands, seats, pen),
            Some(inode) => self.begin_waiting(work, hands, seats, inode),
        }
    }

    // None waits for its age: it takes an inode of the queue.
    fn take_queued<R: Wait, C, G: Gate>(
        &self,
        work: &mut FlusherWork,
        hands: &Hands<R, C, G>,
        seats: &mut Seats,
        pen: &mut Pen,
    ) -> Turn
        requires suits { Suits self.now hands.now.kit.now }
        requires ready { IsReady self.now hands.now.kit.now work.old seats.old }
        requires idle { IsIdle work.old }
        requires empty { list_by work.old ≡ [] }
        ensures asked { AskedBeforeEach self.now.cpu (G.said hands.now.gate.now) seats.old seats.new }
        ensures kinds { Steps self.now.cpu MayTake seats.old seats.new }
        ensures ends { (moments : _) (written : Option _) → Ends self.now hands.now.kit.now true moments (G.said hands.now.gate.now) ⊥ result (sight work.old seats.old pen.old.log written) (sight work.new seats.new pen.new.log written) }
        ensures takes { result ≡ Stepped → (written : Option _) → TakesLast self.now hands.now.kit.now (sight work.old seats.old pen.old.log written) (sight work.new seats.new pen.new.log written) }
        ensures halts { result ≡ Halted → (written : Option _) → LosesLast self.now (sight work.old seats.old pen.old.log written) (sight work.new seats.new pen.new.log written) }
        ensures unspent { result ≡ Spent → ⊥ }
        ensures done { result ≡ Done → (written : Option _) → FindsNothing self.now (sight work.old seats.old pen.old.log written) (sight work.new seats.new pen.new.log written) }
        ensures faults { work.new.faults ≡ work.old.faults }
    {
        match self.take(hands, seats) {
            None => {
                self.be_idle(work, 0, false);
                if work.some_wait {
                    return Turn::Stepped;
                }
                Turn::Done
            }
            Some(inode) => self.begin_taken(work, hands, seats, inode),
        }
    }

    /// Takes an inode number of the device's queue.
    pub fn take<R: Wait, C, G>(&self, hands: &Hands<R, C, G>, seats: &mut Seats) -> Option<u32>
        requires suits { Suits self.now hands.now.kit.now }
        requires fits { Fits self.now hands.now.kit.now seats.old }
        ensures fits { Fits self.now hands.now.kit.now seats.new }
        ensures only_queue { OnlyQueue seats.old seats.new }
        ensures device { OnlyDevice self.now.device seats.old.queue seats.new.queue }
        ensures taken { IfSome result (λ inode. HasTaken (queue.known_of self.now.device seats.old.queue) inode (queue.known_of self.now.device seats.new.queue)) }
        ensures same { IfNone result (seats.new ≡ seats.old) }
        ensures empty { IfNone result (queue.Held 0 (queue.known_of self.now.device seats.new.queue)) }
        ensures whole { IfNone result ((queue.known_of self.now.device seats.new.queue).stakes ≡ 2 ^ 32 → queue.AreAllTaken (queue.known_of self.now.device seats.new.queue)) }
    {
        hands
            .kit
            .queues
            .take(hands.rt, &mut seats.queue, self.device)
    }

    // A number that names no inode of the device is dropped.
    fn begin_taken<R: Wait, C, G: Gate>(
        &self,
        work: &mut FlusherWork,
        hands: &Hands<R, C, G>,
        seats: &mut Seats,
        inode: u32,
    ) -> Turn
        requires suits { Suits self.now hands.now.kit.now }
        requires ready { IsReady self.now hands.now.kit.now work.old seats.old }
        requires idle { IsIdle work.old }
        ensures asked { AskedBeforeEach self.now.cpu (G.said hands.now.gate.now) seats.old seats.new }
        ensures kinds { Steps self.now.cpu MayTake seats.old seats.new }
        ensures ends { (drain : _) (moments : _) (log : _) (written : Option _) → Ends self.now hands.now.kit.now drain moments (G.said hands.now.gate.now) ⊥ result (sight work.old seats.old log written) (sight work.new seats.new log written) }
        ensures takes { result ≡ Stepped → (log : _) (written : Option _) → TakesUp self.now hands.now.kit.now inode (sight work.old seats.old log written) (sight work.new seats.new log written) }
        ensures halts { result ≡ Halted → (work.new ≡ work.old) × (seats.new ≡ seats.old) × IsInode self.now inode }
        ensures unspent { result ≡ Spent → ⊥ }
        ensures faults { work.new.faults ≡ work.old.faults }
    {
        if !self.has(inode) {
            self.be_idle(work, 0, false);
            return Turn::Stepped;
        }
        if self.begin_scan(work, hands, seats, inode) {
            return Turn::Stepped;
        }
        Turn::Halted
    }
}
