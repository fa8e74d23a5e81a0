//! A page of a flight whose moment has come.

ghost use Rattle.std.specs.Prelude.{◌≡◌, ◌+◌, ◌≤◌, OnOk, OnErr, Option, false};
ghost use Rattle.wbt_table.specs.Calls.{HasNoPageSteps};
ghost use Rattle.wbt_table.specs.Layout.{setting};
ghost use Rattle.wbt_turns.specs.Words.{IsSettled};
ghost use Rattle.wbt_run_steps.specs.Gate.{AskedBeforeEach};
ghost use Rattle.wbt_run_steps.specs.Kinds.{StepsInTurn};
ghost use Rattle.wbt_flusher.specs.Answers.{Ends, Goes, IsDown, IsReady};
ghost use Rattle.wbt_flusher.specs.Cut.{CompletesSome, DoesNothing};
ghost use Rattle.wbt_flusher.specs.Did.{Fits, OwesNothing, AreOwed};
ghost use Rattle.wbt_flusher.specs.Kinds.{OwesEvent, StepsBy};
ghost use Rattle.wbt_flusher.specs.Plans.{Suits};
ghost use Rattle.wbt_flusher.specs.Sights.{sight};
ghost use Rattle.wbt_flusher.specs.Took.{CompletesPage, DonePage, Lands};
ghost use Rattle.wbt_flusher.specs.Turns.{IsFlight, HoldsPages};
ghost use Rattle.wbt_flusher.specs.declared.work.Phase.TheVariants.{Flying};
ghost use Rattle.wbt_kit.specs.declared.turn.Turn.TheVariants.{Halted, Spent as SpentTurn, Stepped};
ghost use Rattle.wbt_run_steps.specs.Steps.{Settled};

use crate::plan::FlusherPlan;
use crate::work::{Flight, FlusherWork, Phase};
use wbt_io::Gate;
use wbt_journal::Entry;
use wbt_kit::{Hands, Kit, Seats, Turn};
use wbt_run_steps::{Pen, may_step, settle};
use wbt_table::Spent;

impl FlusherPlan {
    /// Completes a page, and counts the batch in where that was the last one.
    pub fn turn_flight<R, C, G: Gate>(
        &self,
        work: &mut FlusherWork,
        hands: &Hands<R, C, G>,
        seats: &mut Seats,
        pen: &mut Pen,
        flight: Flight,
    ) -> Turn
        requires suits { Suits self.now hands.now.kit.now }
        requires ready { IsReady self.now hands.now.kit.now work.old seats.old }
        requires phase { work.old.phase ≡ Flying flight }
        requires room { 6 ≤ pen.old.room }
        ensures asked { AskedBeforeEach self.now.cpu (G.said hands.now.gate.now) seats.old seats.new }
        ensures kinds { StepsInTurn self.now.domains self.now.cpu result seats.old seats.new }
        ensures ends { (drain : _) (moments : _) (written : Option _) → Ends self.now hands.now.kit.now drain moments (G.said hands.now.gate.now) ⊥ result (sight work.old seats.old pen.old.log written) (sight work.new seats.new pen.new.log written) }
        ensures lands { result ≡ Stepped → (written : Option _) → CompletesPage self.now hands.now.kit.now (G.said hands.now.gate.now) flight (sight work.old seats.old pen.old.log written) (sight work.new seats.new pen.new.log written) }
        ensures halts { result ≡ Halted → (written : Option _) → CompletesSome self.now hands.now.kit.now (G.said hands.now.gate.now) flight (sight work.old seats.old pen.old.log written) (sight work.new seats.new pen.new.log written) }
        ensures spends { result ≡ SpentTurn → (written : Option _) → DoesNothing (sight work.old seats.old pen.old.log written) (sight work.new seats.new pen.new.log written) }
        ensures faults { work.new.faults ≡ work.old.faults }
    {
        if !may_step(self.cpu, seats, hands.gate) {
            return Turn::Halted;
        }
        match self.complete(work, hands.kit, seats, pen, flight) {
            Err(Spent) => Turn::Spent,
            Ok(()) => self.land(
                work,
                hands,
                seats,
                pen,
                Flight {
                    landed: flight.landed + 1,
                    ..flight
                },
            ),
        }
    }

    // A page is completed: its counters are settled, and the batch is counted in where that was the last one.
    fn land<R, C, G: Gate>(
        &self,
        work: &mut FlusherWork,
        hands: &Hands<R, C, G>,
        seats: &mut Seats,
        pen: &mut Pen,
        flight: Flight,
    ) -> Turn
        requires suits { Suits self.now hands.now.kit.now }
        requires down { IsDown self.now hands.now.kit.now flight work.old seats.old }
        requires event { OwesEvent self.now hands.now.kit.now seats.old }
        requires room { 5 ≤ pen.old.room }
        ensures asked { AskedBeforeEach self.now.cpu (G.said hands.now.gate.now) seats.old seats.new }
        ensures kinds { StepsBy self.now.cpu IsSettled result seats.old seats.new }
        ensures ends { (drain : _) (moments : _) (written : Option _) → Ends self.now hands.now.kit.now drain moments (G.said hands.now.gate.now) ⊥ result (sight work.old seats.old pen.old.log written) (sight work.new seats.new pen.new.log written) }
        ensures lands { result ≡ Stepped → (written : Option _) → Lands self.now hands.now.kit.now (G.said hands.now.gate.now) flight (sight work.old seats.old pen.old.log written) (sight work.new seats.new pen.new.log written) }
        ensures halts { result ≡ Halted → Settled self.now.cpu hands.now.kit.now (G.said hands.now.gate.now) false seats.old seats.new pen.old.log pen.new.log × (work.new ≡ work.old) }
        ensures unspent { result ≡ SpentTurn → ⊥ }
        ensures faults { work.new.faults ≡ work.old.faults }
    {
        if !settle(self.cpu, hands.kit, seats, hands.gate, pen) {
            return Turn::Halted;
        }
        if flight.landed < work.batch.as_slice().len() {
            return Turn::Stepped;
        }
        self.end_flight(work, hands.kit, seats, pen, flight);
        Turn::Stepped
    }

    // The step `complete` of the batch's next page.
    fn complete(
        &self,
        work: &mut FlusherWork,
        kit: &Kit,
        seats: &mut Seats,
        pen: &mut Pen,
        flight: Flight,
    ) -> Result<(), Spent>
        requires suits { Suits self.now kit.now }
        requires fits { Fits self.now kit.now seats.old }
        requires phase { work.old.phase ≡ Flying flight }
        requires flight { IsFlight self.now work.old.batch.items flight }
        requires holds { HoldsPages self.now work.old seats.old }
        requires owes { OwesNothing self.now seats.old }
        requires room { 1 ≤ pen.old.room }
        ensures goes { Goes self.now kit.now seats.old seats.new pen.old.log pen.new.log work.old work.new }
        ensures fits { Fits self.now kit.now seats.new }
        ensures next { OnOk result (work.new ≡ record work.old { phase = Flying (record flight { landed = flight.landed + 1 }) }) }
        ensures spent { OnErr result ((work.new ≡ work.old) × (seats.new ≡ seats.old) × HasNoPageSteps (setting kit.now.throttle.layout) self.now.cpu seats.old.cpu) }
        ensures untold { OnErr result (pen.new.log ≡ pen.old.log) }
        ensures owed { OnOk result (AreOwed self.now kit.now seats.new) }
        ensures completes { OnOk result (DonePage self.now kit.now flight work.old.batch.items seats.old seats.new pen.old.log pen.new.log) }
        ensures room { pen.old.room ≤ pen.new.room + 1 }
    {
        let page = work.batch[flight.landed];
        kit.throttle.complete(&mut seats.cpu, self.cpu, page)?;
        pen.tell(Entry::Done {
            flusher: self.flusher,
            page,
        });
        work.phase = Phase::Flying {
            flight: Flight {
                landed: flight.landed + 1,
                ..flight
            },
        };
        Ok(())
    }
}
