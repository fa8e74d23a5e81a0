//! The end of a scan: its inode is marked again where that is due.

ghost use Rattle.std.specs.Prelude.{◌↔◌, ◌≡◌, ◌≤◌, ◌==◌, [], false, IsTrue, IsFalse, Option};
ghost use Rattle.wbt_io.specs.Faults.{HasRisen};
ghost use Rattle.wbt_turns.specs.Words.{MayMark};
ghost use Rattle.wbt_run_steps.specs.Gate.{AskedBeforeEach};
ghost use Rattle.wbt_run_steps.specs.Kinds as kinds;
ghost use Rattle.wbt_flusher.specs.Answers.{Ends, EndsBy, GoesKept, IsOpen, Steps};
ghost use Rattle.wbt_flusher.specs.Cut.{DoesNothing, FailsToClose};
ghost use Rattle.wbt_flusher.specs.Did.{Fits, KeepsDebts, IsStopped};
ghost use Rattle.wbt_flusher.specs.Plans.{Suits, IsInode};
ghost use Rattle.wbt_flusher.specs.Sights.{sight};
ghost use Rattle.wbt_flusher.specs.Took.{Closes, EndsEmpty, IsMarkDue, Marks, MarksAgain};
ghost use Rattle.wbt_flusher.specs.Turns.{FaultsRise, HasLists, IsBare, IsPaid, IsScan, KeepsPlace, OnlyWaiting, OwesInodeNothing};
ghost use Rattle.wbt_flusher.specs.declared.work.Phase.TheVariants.{Idle, Scanning};
ghost use Rattle.wbt_kit.specs.declared.kit.Kit.{Kit};
ghost use Rattle.wbt_kit.specs.declared.kit.Seats.{Seats};
ghost use Rattle.wbt_kit.specs.declared.turn.Turn.TheVariants.{Faulted, Halted, Spent, Stepped};
ghost use Rattle.wbt_rules.specs.declared.moments.TheConstants.{MOST_FAULTS};

use crate::hand::Handed;
use crate::plan::FlusherPlan;
use crate::work::{FlusherWork, Phase};
use std::sync::Wait;
use wbt_io::{Clock, Disk, Gate, told_moment};
use wbt_kit::{Hands, Kit, Seats, Turn};
use wbt_rules::{FLUSHER_REST, Scan};
use wbt_run_steps::{Pen, mark, may_step};

impl FlusherPlan {
    /// The scan is over: the inode is marked again where that is due, and the batch goes to the disk.
    pub fn close<D: Disk, R: Wait, C: Clock, G: Gate>(
        &self,
        work: &mut FlusherWork,
        disk: &mut D,
        hands: &Hands<R, C, G>,
        seats: &mut Seats,
        pen: &mut Pen,
        scan: Scan,
    ) -> Turn
        requires suits { Suits self.now hands.now.kit.now }
        requires open { IsOpen self.now hands.now.kit.now scan work.old seats.old }
        requires room { 1 ≤ pen.old.room }
        ensures asked { AskedBeforeEach self.now.cpu (G.said hands.now.gate.now) seats.old seats.new }
        ensures kinds { kinds.Steps self.now.cpu MayMark seats.old seats.new }
        ensures later { D.faults disk.old ≤ D.faults disk.new }
        ensures ends { EndsBy (C.told hands.now.clock.now) (λ moments. Ends self.now hands.now.kit.now false moments (G.said hands.now.gate.now) (HasRisen (D.faults disk.old) (D.faults disk.new)) result (sight work.old seats.old pen.old.log (D.written disk.old)) (sight work.new seats.new pen.new.log (D.written disk.new))) }
        ensures closes { result ≡ Stepped → Closes self.now hands.now.kit.now (C.told hands.now.clock.now) scan (sight work.old seats.old pen.old.log (D.written disk.old)) (sight work.new seats.new pen.new.log (D.written disk.new)) }
        ensures halts { result ≡ Halted → IsMarkDue self.now scan × DoesNothing (sight work.old seats.old pen.old.log (D.written disk.old)) (sight work.new seats.new pen.new.log (D.written disk.new)) }
        ensures fails { result ≡ Faulted → FailsToClose self.now hands.now.kit.now scan (sight work.old seats.old pen.old.log (D.written disk.old)) (sight work.new seats.new pen.new.log (D.written disk.new)) }
        ensures unspent { result ≡ Spent → ⊥ }
        ensures batch { work.new.batch.items ≡ work.old.batch.items }
        ensures counted { FaultsRise work.old.faults work.new.faults (D.faults disk.old) (D.faults disk.new) }
        ensures eighth { result ≡ Faulted ↔ work.new.faults ≡ MOST_FAULTS }
    {
        if !self.mark_again(work, hands, seats, scan) {
            return Turn::Halted;
        }
        self.keep_place(work, &scan);
        if work.batch.as_slice().is_empty() {
            return self.close_empty(work, hands.clock, scan);
        }
        match self.hand_over(work, disk, pen, told_moment(hands.clock), scan) {
            Handed::Flies => Turn::Stepped,
            Handed::Returns => Turn::Stepped,
            Handed::Fails => Turn::Faulted,
        }
    }

    // The next scan of the inode begins at the place to which this one has come, where the device is cyclic.
    fn keep_place(&self, work: &mut FlusherWork, scan: &Scan)
        requires lists { HasLists self.now work.old }
        requires scan { IsScan self.now work.old.batch.items scan.now }
        ensures keeps { KeepsPlace self.now scan.now work.old work.new }
        ensures lists { HasLists self.now work.new }
    {
        if self.shares.cyclic {
            work.places[scan.inode as usize] = scan.place();
        }
    }

    // After an empty batch with a noted mark the flusher rests, in the drain too: else a second one of the device would take the
    // inode again and again at one moment.
    fn close_empty<C: Clock>(&self, work: &mut FlusherWork, clock: &C, scan: Scan) -> Turn
        requires lists { HasLists self.now work.old }
        requires empty { work.old.batch.items ≡ [] }
        ensures stepped { result ≡ Stepped }
        ensures batch { work.new.batch.items ≡ work.old.batch.items }
        ensures faults { work.new.faults ≡ work.old.faults }
        ensures ends_empty { EndsEmpty (C.told clock.now) scan work.old work.new }
        ensures steps { (kit : Kit) (seats : Seats) → IsOpen self.now kit scan work.old seats → IsPaid self.now scan seats → (moments : _) (log : _) (written : Option _) → Steps self.now kit moments (sight work.old seats log written) (sight work.new seats log written) }
    {
        if scan.noted {
            self.be_idle(work, told_moment(clock) + FLUSHER_REST, true);
            return Turn::Stepped;
        }
        self.be_idle(work, 0, false);
        Turn::Stepped
    }

    // Where pages weren't passed, or a mark is noted, the inode is marked. False where the gate stopped it.
    fn mark_again<R: Wait, C, G: Gate>(
        &self,
        work: &mut FlusherWork,
        hands: &Hands<R, C, G>,
        seats: &mut Seats,
        scan: Scan,
    ) -> bool
        requires suits { Suits self.now hands.now.kit.now }
        requires fits { Fits self.now hands.now.kit.now seats.old }
        requires lists { HasLists self.now work.old }
        requires phase { work.old.phase ≡ Scanning scan }
        requires scan { IsScan self.now work.old.batch.items scan }
        ensures asked { AskedBeforeEach self.now.cpu (G.said hands.now.gate.now) seats.old seats.new }
        ensures kinds { kinds.Steps self.now.cpu MayMark seats.old seats.new }
        ensures goes { GoesKept self.now hands.now.kit.now seats.old seats.new work.old work.new }
        ensures fits { Fits self.now hands.now.kit.now seats.new }
        ensures lists { HasLists self.now work.new }
        ensures debts { KeepsDebts self.now seats.old seats.new }
        ensures only_waiting { OnlyWaiting self.now work.old work.new }
        ensures paid { IsTrue result → IsPaid self.now scan seats.new }
        ensures stopped { IsFalse result → IsStopped self.now (G.said hands.now.gate.now) seats.new }
        ensures marks { IsTrue result → MarksAgain self.now hands.now.kit.now scan seats.old seats.new work.old work.new }
        ensures stays { IsFalse result → IsMarkDue self.now scan × (seats.new ≡ seats.old) × (work.new ≡ work.old) }
    {
        if !scan.noted && scan.passed >= scan.pages {
            return true;
        }
        if !may_step(self.cpu, seats, hands.gate) {
            return false;
        }
        self.mark(work, hands, seats, scan.inode);
        true
    }

    /// The step `mark`. The inode is put into the device's queue where the mark was clear.
    pub fn mark<R: Wait, C, G>(
        &self,
        work: &mut FlusherWork,
        hands: &Hands<R, C, G>,
        seats: &mut Seats,
        inode: u32,
    )
        requires suits { Suits self.now hands.now.kit.now }
        requires fits { Fits self.now hands.now.kit.now seats.old }
        requires lists { HasLists self.now work.old }
        requires inode { IsInode self.now inode }
        ensures goes { GoesKept self.now hands.now.kit.now seats.old seats.new work.old work.new }
        ensures fits { Fits self.now hands.now.kit.now seats.new }
        ensures lists { HasLists self.now work.new }
        ensures debts { KeepsDebts self.now seats.old seats.new }
        ensures only_waiting { OnlyWaiting self.now work.old work.new }
        ensures pays { OwesInodeNothing self.now inode seats.new }
        ensures marks { Marks self.now hands.now.kit.now inode seats.old seats.new work.old work.new }
    {
        if mark(self.cpu, inode, hands.kit, seats) {
            self.put(work, hands, seats, inode);
        }
    }

    /// A flusher without a batch is idle. It rests until a moment, also in the drain where that is kept.
    pub fn be_idle(&self, work: &mut FlusherWork, until: u64, kept: bool)
        requires lists { HasLists self.now work.old }
        ensures phase { work.new ≡ record work.old { phase = Idle until kept } }
        ensures lists { HasLists self.now work.new }
        ensures goes { (kit : Kit) (seats : Seats) → Fits self.now kit seats → IsBare self.now work.old seats → GoesKept self.now kit seats seats work.old work.new }
    {
        work.phase = Phase::Idle { until, kept };
    }
}
