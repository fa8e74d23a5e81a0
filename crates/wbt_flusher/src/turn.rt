//! A turn of a flusher.

ghost use Rattle.std.specs.Prelude.{◌&&◌, not, ◌↔◌, ◌⊎◌, ◌≡◌, ◌≤◌, length, Bool, OnOk, Option};
ghost use Rattle.wbt_io.specs.Faults.{HasRisen};
ghost use Rattle.wbt_num.specs.declared.most.TheConstants.{MOST_CONTEXTS};
ghost use Rattle.wbt_table.specs.Layout.{domains};
ghost use Rattle.wbt_run_steps.specs.Gate.{AskedBeforeEach};
ghost use Rattle.wbt_run_steps.specs.Kinds.{StepsInTurn};
ghost use Rattle.wbt_flusher.specs.Aged.{IsIdleTurn, WritesInTime, WritesWhatIsDue};
ghost use Rattle.wbt_flusher.specs.Answers.{FlusherAnswers, TurnAnswers, HasSpace, IsReady, IsSameWork};
ghost use Rattle.wbt_flusher.specs.Cut.{DoesNothing, FailsTook, FindsNothing, FlusherEnds, FlusherFails, FlusherStops, FlusherWaits, StopsTook};
ghost use Rattle.wbt_flusher.specs.Plans.{Suits};
ghost use Rattle.wbt_flusher.specs.Sights.{sight};
ghost use Rattle.wbt_flusher.specs.Took.{FlusherTook, Took};
ghost use Rattle.wbt_flusher.specs.Turns.{FaultsRise, IsWithinQuota};
ghost use Rattle.wbt_rules.specs.declared.moments.TheConstants.{MOST_FAULTS};
ghost use Rattle.wbt_flusher.specs.declared.work.Phase.TheVariants.{Idle, Flying};
ghost use Rattle.wbt_kit.specs.declared.turn.Turn.TheVariants.{Done, Faulted, Halted, Resting, Spent, Stepped};

use crate::flusher::Flusher;
use crate::plan::FlusherPlan;
use crate::work::{Flight, FlusherWork, Phase};
use std::sync::Wait;
use wbt_io::{Clock, Disk, Gate, told_moment};
use wbt_journal::CpuJournal;
use wbt_kit::{Hands, Seats, Turn};
use wbt_num::NoMemory;
use wbt_rules::{MOST_NOTICED, has_landed};
use wbt_run_steps::Pen;

// As many entries as a turn tells at most, but for estimates: a page, three folds and two shares; or its notices, and that it took an inode.
const MOST_ENTRIES: usize = 6 + MOST_NOTICED as usize + 1;

impl<D: Disk> Flusher<D> {
    /// A turn of the flusher. Idle it tests, where it isn't in the drain, whether a domain is over background, or a context of its
    /// device by itself where that is strict, and takes an inode of the device's queue to scan, or one that waits where the device is
    /// ageing; scanning it claims a page, and closes
    /// the scan where it is over; flying it completes a page, and counts the batch in where that was the last one; returning, as the
    /// disk failed to write its batch, it gives a page back, and marks the inode and rests where that was the last one. All memory is
    /// taken before the first step: where it is refused nothing was done.
    pub fn turn<R: Wait, C: Clock, G: Gate>(
        &mut self,
        hands: &Hands<R, C, G>,
        seats: &mut Seats,
        drain: bool,
        log: &mut CpuJournal,
    ) -> Turn
        requires suits { Suits self.old.plan hands.now.kit.now }
        requires ready { IsReady self.old.plan hands.now.kit.now self.old.work seats.old }
        ensures asked { AskedBeforeEach self.old.plan.cpu (G.said hands.now.gate.now) seats.old seats.new }
        ensures plan { self.new.plan ≡ self.old.plan }
        ensures later { D.faults self.old.disk ≤ D.faults self.new.disk }
        ensures answers { FlusherAnswers self.old.plan hands.now.kit.now drain (C.told hands.now.clock.now) (G.said hands.now.gate.now) (HasRisen (D.faults self.old.disk) (D.faults self.new.disk)) result (sight self.old.work seats.old log.old (D.written self.old.disk)) (sight self.new.work seats.new log.new (D.written self.new.disk)) }
        ensures took { result ≡ Stepped → FlusherTook self.old.plan hands.now.kit.now drain (C.told hands.now.clock.now) (G.said hands.now.gate.now) (sight self.old.work seats.old log.old (D.written self.old.disk)) (sight self.new.work seats.new log.new (D.written self.new.disk)) }

        // It writes an inode for its age only at a moment that was told, at or after its due moment, and first of those that wait then.
        ensures in_time { WritesInTime self.old.plan hands.now.kit.now (C.told hands.now.clock.now) (sight self.old.work seats.old log.old (D.written self.old.disk)) (sight self.new.work seats.new log.new (D.written self.new.disk)) }

        // Idle and not in the drain, it writes one where some inode is due by the turn's moment after its notices.
        ensures ages { result ≡ Stepped → IsIdleTurn self.old.plan drain (sight self.old.work seats.old log.old (D.written self.old.disk)) → WritesWhatIsDue self.old.plan hands.now.kit.now (C.told hands.now.clock.now) (sight self.old.work seats.old log.old (D.written self.old.disk)) (sight self.new.work seats.new log.new (D.written self.new.disk)) }

        // A scan's batch never has more pages than its quota, whatever becomes of it.
        ensures within_quota { IsWithinQuota self.old.work.phase self.new.work.batch.items }

        // Its batches that the disk failed to write are counted, and it faults exactly with the last that it may have.
        ensures counted { FaultsRise self.old.work.faults self.new.work.faults (D.faults self.old.disk) (D.faults self.new.disk) }
        ensures eighth { result ≡ Faulted ↔ self.new.work.faults ≡ MOST_FAULTS }

        // The steps of its CPU are those of one turn, or a first part of them where the gate stopped it.
        ensures kinds { StepsInTurn (domains hands.now.kit.now.throttle.layout) self.old.plan.cpu result seats.old seats.new }

        // Where it was cut off it did a first part of such a turn.
        ensures halts { result ≡ Halted → FlusherStops self.old.plan hands.now.kit.now drain (C.told hands.now.clock.now) (G.said hands.now.gate.now) (sight self.old.work seats.old log.old (D.written self.old.disk)) (sight self.new.work seats.new log.new (D.written self.new.disk)) }
        ensures fails { result ≡ Faulted → FlusherFails self.old.plan hands.now.kit.now (sight self.old.work seats.old log.old (D.written self.old.disk)) (sight self.new.work seats.new log.new (D.written self.new.disk)) }

        // Where it had nothing to do, or no page step left, it did nothing, but that inodes which waited were put.
        ensures waits { (now until : _) → (result ≡ Resting now until) ⊎ (result ≡ Spent) → FlusherWaits self.old.plan hands.now.kit.now (sight self.old.work seats.old log.old (D.written self.old.disk)) (sight self.new.work seats.new log.new (D.written self.new.disk)) }
        ensures done { result ≡ Done → FlusherEnds self.old.plan hands.now.kit.now (sight self.old.work seats.old log.old (D.written self.old.disk)) (sight self.new.work seats.new log.new (D.written self.new.disk)) }
    {
        let mut pen = Pen::open(hands.alloc, log);
        match self.plan.reserve(&mut self.work, &mut pen) {
            Err(NoMemory) => {
                pen.close(log);
                Turn::NoMemory
            }
            Ok(()) => {
                self.plan.put_waiting(&mut self.work, hands, seats);
                let answer = self.turn_on(hands, seats, drain, &mut pen);
                pen.close(log);
                answer
            }
        }
    }

    // There is room for all that it may tell and claim, and those that waited for the queue were put.
    fn turn_on<R: Wait, C: Clock, G: Gate>(
        &mut self,
        hands: &Hands<R, C, G>,
        seats: &mut Seats,
        drain: bool,
        pen: &mut Pen,
    ) -> Turn
        requires suits { Suits self.old.plan hands.now.kit.now }
        requires ready { IsReady self.old.plan hands.now.kit.now self.old.work seats.old }
        requires room { HasSpace self.old.plan self.old.work pen.old }
        ensures asked { AskedBeforeEach self.old.plan.cpu (G.said hands.now.gate.now) seats.old seats.new }
        ensures kinds { StepsInTurn self.old.plan.domains self.old.plan.cpu result seats.old seats.new }
        ensures plan { self.new.plan ≡ self.old.plan }
        ensures later { D.faults self.old.disk ≤ D.faults self.new.disk }
        ensures answers { TurnAnswers self.old.plan hands.now.kit.now drain (C.told hands.now.clock.now) (G.said hands.now.gate.now) (HasRisen (D.faults self.old.disk) (D.faults self.new.disk)) result (sight self.old.work seats.old pen.old.log (D.written self.old.disk)) (sight self.new.work seats.new pen.new.log (D.written self.new.disk)) }
        ensures took { result ≡ Stepped → Took self.old.plan hands.now.kit.now drain (C.told hands.now.clock.now) (G.said hands.now.gate.now) (sight self.old.work seats.old pen.old.log (D.written self.old.disk)) (sight self.new.work seats.new pen.new.log (D.written self.new.disk)) }
        ensures halts { result ≡ Halted → StopsTook self.old.plan hands.now.kit.now drain (C.told hands.now.clock.now) (G.said hands.now.gate.now) (sight self.old.work seats.old pen.old.log (D.written self.old.disk)) (sight self.new.work seats.new pen.new.log (D.written self.new.disk)) }
        ensures fails { result ≡ Faulted → FailsTook self.old.plan hands.now.kit.now (sight self.old.work seats.old pen.old.log (D.written self.old.disk)) (sight self.new.work seats.new pen.new.log (D.written self.new.disk)) }
        ensures spends { result ≡ Spent → DoesNothing (sight self.old.work seats.old pen.old.log (D.written self.old.disk)) (sight self.new.work seats.new pen.new.log (D.written self.new.disk)) }
        ensures waits { (now until : _) → result ≡ Resting now until → DoesNothing (sight self.old.work seats.old pen.old.log (D.written self.old.disk)) (sight self.new.work seats.new pen.new.log (D.written self.new.disk)) }
        ensures done { result ≡ Done → FindsNothing self.old.plan (sight self.old.work seats.old pen.old.log (D.written self.old.disk)) (sight self.new.work seats.new pen.new.log (D.written self.new.disk)) }
        ensures within_quota { IsWithinQuota self.old.work.phase self.new.work.batch.items }
        ensures counted { FaultsRise self.old.work.faults self.new.work.faults (D.faults self.old.disk) (D.faults self.new.disk) }
        ensures eighth { result ≡ Faulted ↔ self.new.work.faults ≡ MOST_FAULTS }
    {
        let Flusher { plan, work, disk } = self;
        match work.phase {
            Phase::Idle { until, kept } => {
                plan.turn_rest(work, hands, seats, drain, pen, until, kept)
            }
            Phase::Scanning { scan } => { plan.turn_scan(work, disk, hands, seats, pen, scan) }
            Phase::Flying { flight } => { plan.turn_fly(work, hands, seats, pen, flight) }
            Phase::Returning { giving } => plan.turn_return(work, hands, seats, pen, giving),
            Phase::Failed => unreachable!(),
        }
    }
}

impl FlusherPlan {
    // Makes room for all that a turn may tell and claim.
    fn reserve(&self, work: &mut FlusherWork, pen: &mut Pen) -> Result<(), NoMemory>
        requires few { length self.now.contexts ≤ MOST_CONTEXTS }
        ensures same { IsSameWork work.old work.new }
        ensures log { pen.new.log ≡ pen.old.log }
        ensures room { OnOk result (HasSpace self.now work.new pen.new) }
    {
        let estimates = self.contexts.as_slice().len();
        pen.reserve(estimates + MOST_ENTRIES, 0, estimates)?;
        work.batch.reserve(1)?;
        Ok(())
    }

    // It rests, or tests and takes an inode. The drain drops a rest that isn't kept.
    fn turn_rest<R: Wait, C: Clock, G: Gate>(
        &self,
        work: &mut FlusherWork,
        hands: &Hands<R, C, G>,
        seats: &mut Seats,
        drain: bool,
        pen: &mut Pen,
        until: u64,
        kept: bool,
    ) -> Turn
        requires suits { Suits self.now hands.now.kit.now }
        requires ready { IsReady self.now hands.now.kit.now work.old seats.old }
        requires phase { work.old.phase ≡ Idle until kept }
        requires room { HasSpace self.now work.old pen.old }
        ensures asked { AskedBeforeEach self.now.cpu (G.said hands.now.gate.now) seats.old seats.new }
        ensures kinds { StepsInTurn self.now.domains self.now.cpu result seats.old seats.new }
        ensures answers { (written : Option _) → TurnAnswers self.now hands.now.kit.now drain (C.told hands.now.clock.now) (G.said hands.now.gate.now) ⊥ result (sight work.old seats.old pen.old.log written) (sight work.new seats.new pen.new.log written) }
        ensures took { result ≡ Stepped → (written : Option _) → Took self.now hands.now.kit.now drain (C.told hands.now.clock.now) (G.said hands.now.gate.now) (sight work.old seats.old pen.old.log written) (sight work.new seats.new pen.new.log written) }
        ensures halts { result ≡ Halted → (written : Option _) → StopsTook self.now hands.now.kit.now drain (C.told hands.now.clock.now) (G.said hands.now.gate.now) (sight work.old seats.old pen.old.log written) (sight work.new seats.new pen.new.log written) }
        ensures unspent { result ≡ Spent → ⊥ }
        ensures waits { (now until : _) → result ≡ Resting now until → (written : Option _) → DoesNothing (sight work.old seats.old pen.old.log written) (sight work.new seats.new pen.new.log written) }
        ensures done { result ≡ Done → (written : Option _) → FindsNothing self.now (sight work.old seats.old pen.old.log written) (sight work.new seats.new pen.new.log written) }
        ensures faults { work.new.faults ≡ work.old.faults }
    {
        let dropped = is_dropped(drain, kept);
        if dropped {
            return self.take_last(work, hands, seats, pen);
        }
        let now = told_moment(hands.clock);
        if now < until {
            return Turn::Resting { now, until };
        }
        if drain {
            return self.take_last(work, hands, seats, pen);
        }
        self.turn_idle(work, hands, seats, pen, now)
    }

    // The disk has the batch still, or a page is completed, in the drain as before it.
    fn turn_fly<R, C: Clock, G: Gate>(
        &self,
        work: &mut FlusherWork,
        hands: &Hands<R, C, G>,
        seats: &mut Seats,
        pen: &mut Pen,
        flight: Flight,
    ) -> Turn
        requires suits { Suits self.now hands.now.kit.now }
        requires ready { IsReady self.now hands.now.kit.now work.old seats.old }
        requires phase { work.old.phase ≡ Flying flight }
        requires room { HasSpace self.now work.old pen.old }
        ensures asked { AskedBeforeEach self.now.cpu (G.said hands.now.gate.now) seats.old seats.new }
        ensures kinds { StepsInTurn self.now.domains self.now.cpu result seats.old seats.new }
        ensures answers { (drain : Bool) (written : Option _) → TurnAnswers self.now hands.now.kit.now drain (C.told hands.now.clock.now) (G.said hands.now.gate.now) ⊥ result (sight work.old seats.old pen.old.log written) (sight work.new seats.new pen.new.log written) }
        ensures took { result ≡ Stepped → (drain : Bool) (written : Option _) → Took self.now hands.now.kit.now drain (C.told hands.now.clock.now) (G.said hands.now.gate.now) (sight work.old seats.old pen.old.log written) (sight work.new seats.new pen.new.log written) }
        ensures halts { result ≡ Halted → (drain : Bool) (written : Option _) → StopsTook self.now hands.now.kit.now drain (C.told hands.now.clock.now) (G.said hands.now.gate.now) (sight work.old seats.old pen.old.log written) (sight work.new seats.new pen.new.log written) }
        ensures spends { result ≡ Spent → (written : Option _) → DoesNothing (sight work.old seats.old pen.old.log written) (sight work.new seats.new pen.new.log written) }
        ensures waits { (now until : _) → result ≡ Resting now until → (written : Option _) → DoesNothing (sight work.old seats.old pen.old.log written) (sight work.new seats.new pen.new.log written) }
        ensures undone { result ≡ Done → ⊥ }
        ensures faults { work.new.faults ≡ work.old.faults }
    {
        let now = told_moment(hands.clock);
        if !has_landed(flight.until, now) {
            return Turn::Resting {
                now,
                until: flight.until,
            };
        }
        self.turn_flight(work, hands, seats, pen, flight)
    }
}

// The drain drops a rest that isn't kept.
fn is_dropped(drain: bool, kept: bool) -> bool
    ensures { result ≡ (drain && not kept) }
{
    drain && !kept
}
