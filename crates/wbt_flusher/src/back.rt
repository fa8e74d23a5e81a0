//! A page of a batch that the disk failed to write is given back.

ghost use Rattle.std.specs.Prelude.{◌≡◌, ◌+◌, ◌<◌, ◌≤◌, false, IfOk, IfErr, Option, length};
ghost use Rattle.wbt_table.specs.Calls.{HasNoPageSteps};
ghost use Rattle.wbt_table.specs.Layout.{setting};
ghost use Rattle.wbt_run_steps.specs.Gate.{AskedBeforeEach};
ghost use Rattle.wbt_run_steps.specs.Kinds.{StepsInTurn};
ghost use Rattle.wbt_flusher.specs.Answers.{Ends, Goes, GoesKept, IsBack, IsReady};
ghost use Rattle.wbt_flusher.specs.Cut.{DoesNothing, ReturnsSome, StopsComingBack};
ghost use Rattle.wbt_flusher.specs.Did.{Fits, KeepsDebts};
ghost use Rattle.wbt_flusher.specs.Gives.{Gives, StandsAfter};
ghost use Rattle.wbt_flusher.specs.Kinds.{ComesAfter, MayOweEvent, StepsBy, StepsToGive};
ghost use Rattle.wbt_flusher.specs.Plans.{Suits, IsInode};
ghost use Rattle.wbt_flusher.specs.Sights.{sight};
ghost use Rattle.wbt_flusher.specs.Took.{ComesBack, EndsReturn, ReturnsPage};
ghost use Rattle.wbt_flusher.specs.Turns.{HasLists, KeepsRest, OwesInodeNothing};
ghost use Rattle.wbt_flusher.specs.declared.work.Phase.TheVariants.{Idle, Returning};
ghost use Rattle.wbt_kit.specs.declared.kit.Kit.{Kit};
ghost use Rattle.wbt_kit.specs.declared.kit.Seats.{Seats};
ghost use Rattle.wbt_kit.specs.declared.turn.Turn.TheVariants.{Halted, Spent as SpentTurn, Stepped};

use crate::plan::FlusherPlan;
use crate::work::{FlusherWork, Phase, Return};
use std::sync::Wait;
use wbt_io::{Clock, Gate, told_moment};
use wbt_kit::{Hands, Seats, Turn};
use wbt_rules::RETRY_REST;
use wbt_run_steps::{Pen, give_back, may_step, settle};
use wbt_table::{Back, Spent};

/// What came of giving a page back.
#[derive(Clone, Copy)]
pub enum Given {
    /// It was given back: the next one is due.
    Passed,
    /// The page changed between the look and the exchange: it is looked at again.
    Missed,
    /// The gate stopped it.
    Stopped,
}

impl FlusherPlan {
    /// Gives a page back, and rests where that was the last one.
    pub fn turn_return<R: Wait, C: Clock, G: Gate>(
        &self,
        work: &mut FlusherWork,
        hands: &Hands<R, C, G>,
        seats: &mut Seats,
        pen: &mut Pen,
        giving: Return,
    ) -> Turn
        requires suits { Suits self.now hands.now.kit.now }
        requires ready { IsReady self.now hands.now.kit.now work.old seats.old }
        requires phase { work.old.phase ≡ Returning giving }
        requires room { 4 ≤ pen.old.room }
        ensures asked { AskedBeforeEach self.now.cpu (G.said hands.now.gate.now) seats.old seats.new }
        ensures kinds { StepsInTurn self.now.domains self.now.cpu result seats.old seats.new }
        ensures ends { (drain : _) (moments : _) (written : Option _) → Ends self.now hands.now.kit.now drain moments (G.said hands.now.gate.now) ⊥ result (sight work.old seats.old pen.old.log written) (sight work.new seats.new pen.new.log written) }
        ensures returns { result ≡ Stepped → (written : Option _) → ReturnsPage self.now hands.now.kit.now (C.told hands.now.clock.now) (G.said hands.now.gate.now) giving (sight work.old seats.old pen.old.log written) (sight work.new seats.new pen.new.log written) }
        ensures halts { result ≡ Halted → (written : Option _) → ReturnsSome self.now hands.now.kit.now (G.said hands.now.gate.now) giving (sight work.old seats.old pen.old.log written) (sight work.new seats.new pen.new.log written) }
        ensures spends { result ≡ SpentTurn → (written : Option _) → DoesNothing (sight work.old seats.old pen.old.log written) (sight work.new seats.new pen.new.log written) }
        ensures faults { work.new.faults ≡ work.old.faults }
    {
        match self.give_next(work, hands, seats, pen, giving) {
            Err(Spent) => Turn::Spent,
            Ok(Given::Stopped) => Turn::Halted,
            Ok(Given::Missed) => Turn::Stepped,
            Ok(Given::Passed) => self.come_back(
                work,
                hands,
                seats,
                pen,
                Return {
                    returned: giving.returned + 1,
                    ..giving
                },
            ),
        }
    }

    // The steps `look` and `back` of the batch's next page.
    fn give_next<R, C, G: Gate>(
        &self,
        work: &mut FlusherWork,
        hands: &Hands<R, C, G>,
        seats: &mut Seats,
        pen: &mut Pen,
        giving: Return,
    ) -> Result<Given, Spent>
        requires suits { Suits self.now hands.now.kit.now }
        requires ready { IsReady self.now hands.now.kit.now work.old seats.old }
        requires phase { work.old.phase ≡ Returning giving }
        requires room { 1 ≤ pen.old.room }
        ensures asked { AskedBeforeEach self.now.cpu (G.said hands.now.gate.now) seats.old seats.new }
        ensures kinds { IfOk result (λ given. StepsToGive self.now.cpu given seats.old seats.new) }
        ensures goes { Goes self.now hands.now.kit.now seats.old seats.new pen.old.log pen.new.log work.old work.new }
        ensures gives { IfOk result (λ given. (written : Option _) → Gives self.now hands.now.kit.now (G.said hands.now.gate.now) giving given (sight work.old seats.old pen.old.log written) (sight work.new seats.new pen.new.log written)) }
        ensures stands { IfOk result (λ given. StandsAfter self.now hands.now.kit.now giving given work.new seats.new) }
        ensures spent { IfErr result (λ _. (work.new ≡ work.old) × (seats.new ≡ seats.old) × (pen.new.log ≡ pen.old.log) × HasNoPageSteps (setting hands.now.kit.now.throttle.layout) self.now.cpu seats.old.cpu) }
        ensures room { pen.old.room ≤ pen.new.room + 1 }
    {
        let page = work.batch[giving.returned];
        let back = give_back(
            self.cpu,
            self.flusher,
            page,
            hands.kit,
            seats,
            hands.gate,
            pen,
        )?;
        match back {
            Back::Redirtied => {
                self.pass_back(work, giving);
                Ok(Given::Passed)
            }
            Back::Absorbed => {
                self.pass_back(work, giving);
                Ok(Given::Passed)
            }
            Back::Missed { .. } => Ok(Given::Missed),
            Back::Stopped => Ok(Given::Stopped),
        }
    }

    fn pass_back(&self, work: &mut FlusherWork, giving: Return)
        requires some_left { giving.returned < length work.old.batch.items }
        ensures { work.new ≡ record work.old { phase = Returning (record giving { returned = giving.returned + 1 }) } }
    {
        work.phase = Phase::Returning {
            giving: Return {
                returned: giving.returned + 1,
                ..giving
            },
        };
    }

    // A page is given back: its counters are settled, and the inode is marked where that was the last one.
    fn come_back<R: Wait, C: Clock, G: Gate>(
        &self,
        work: &mut FlusherWork,
        hands: &Hands<R, C, G>,
        seats: &mut Seats,
        pen: &mut Pen,
        giving: Return,
    ) -> Turn
        requires suits { Suits self.now hands.now.kit.now }
        requires back { IsBack self.now hands.now.kit.now giving work.old seats.old }
        requires event { MayOweEvent self.now hands.now.kit.now seats.old }
        requires room { 3 ≤ pen.old.room }
        ensures asked { AskedBeforeEach self.now.cpu (G.said hands.now.gate.now) seats.old seats.new }
        ensures kinds { StepsBy self.now.cpu ComesAfter result seats.old seats.new }
        ensures ends { (drain : _) (moments : _) (written : Option _) → Ends self.now hands.now.kit.now drain moments (G.said hands.now.gate.now) ⊥ result (sight work.old seats.old pen.old.log written) (sight work.new seats.new pen.new.log written) }
        ensures comes { result ≡ Stepped → (written : Option _) → ComesBack self.now hands.now.kit.now (C.told hands.now.clock.now) (G.said hands.now.gate.now) giving (sight work.old seats.old pen.old.log written) (sight work.new seats.new pen.new.log written) }
        ensures halts { result ≡ Halted → (written : Option _) → StopsComingBack self.now hands.now.kit.now (G.said hands.now.gate.now) giving (sight work.old seats.old pen.old.log written) (sight work.new seats.new pen.new.log written) }
        ensures unspent { result ≡ SpentTurn → ⊥ }
        ensures faults { work.new.faults ≡ work.old.faults }
    {
        if !settle(self.cpu, hands.kit, seats, hands.gate, pen) {
            return Turn::Halted;
        }
        if giving.returned < work.batch.as_slice().len() {
            return Turn::Stepped;
        }
        if !may_step(self.cpu, seats, hands.gate) {
            return Turn::Halted;
        }
        self.end_return(work, hands, seats, giving);
        Turn::Stepped
    }

    // All pages are given back: the inode is marked, and the flusher rests.
    fn end_return<R: Wait, C: Clock, G>(
        &self,
        work: &mut FlusherWork,
        hands: &Hands<R, C, G>,
        seats: &mut Seats,
        giving: Return,
    )
        requires suits { Suits self.now hands.now.kit.now }
        requires fits { Fits self.now hands.now.kit.now seats.old }
        requires lists { HasLists self.now work.old }
        requires phase { work.old.phase ≡ Returning giving }
        requires inode { IsInode self.now giving.inode }
        requires returned { giving.returned ≡ length work.old.batch.items }
        ensures goes { GoesKept self.now hands.now.kit.now seats.old seats.new work.old work.new }
        ensures fits { Fits self.now hands.now.kit.now seats.new }
        ensures lists { HasLists self.now work.new }
        ensures debts { KeepsDebts self.now seats.old seats.new }
        ensures ends { (log : _) (written : Option _) → EndsReturn self.now hands.now.kit.now (C.told hands.now.clock.now) giving.inode (sight work.old seats.old log written) (sight work.new seats.new log written) }
    {
        self.mark(work, hands, seats, giving.inode);
        self.rest_without(work, told_moment(hands.clock) + RETRY_REST, giving);
    }

    // The flusher has no batch any more, and rests until a moment.
    fn rest_without(&self, work: &mut FlusherWork, until: u64, giving: Return)
        requires lists { HasLists self.now work.old }
        requires phase { work.old.phase ≡ Returning giving }
        requires returned { giving.returned ≡ length work.old.batch.items }
        ensures goes { (kit : Kit) (seats : Seats) → Fits self.now kit seats → OwesInodeNothing self.now giving.inode seats → GoesKept self.now kit seats seats work.old work.new }
        ensures lists { HasLists self.now work.new }
        ensures idle { work.new.phase ≡ Idle until false }
        ensures batch { length work.new.batch.items ≡ 0 }
        ensures rest { KeepsRest work.old work.new }
        ensures tallies { work.new.tallies ≡ work.old.tallies }
    {
        work.batch.clear();
        work.phase = Phase::Idle { until, kept: false };
    }
}
