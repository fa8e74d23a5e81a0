//! A batch goes to the disk.

ghost use Rattle.std.specs.Prelude.{◌≡◌, ◌+◌, ◌<◌, ◌≤◌, Contains, length, Option, Some};
ghost use Rattle.wbt_io.specs.Faults.{HasRisen};
ghost use Rattle.wbt_io.specs.Pages.{Grows};
ghost use Rattle.wbt_flusher.specs.Answers.{Went};
ghost use Rattle.wbt_flusher.specs.Cut.{FailsBatch};
ghost use Rattle.wbt_flusher.specs.Did.{Fits};
ghost use Rattle.wbt_flusher.specs.Plans.{Suits, IsPlan};
ghost use Rattle.wbt_flusher.specs.Sights.{sight};
ghost use Rattle.wbt_flusher.specs.Took.{HandsOver, ReturnsBatch};
ghost use Rattle.wbt_flusher.specs.Turns.{FaultsRise, HasLists, IsFlight, IsPaid, IsScan, OnlyTallies, OwesNoMore};
ghost use Rattle.wbt_flusher.specs.declared.work.Flight.{Flight};
ghost use Rattle.wbt_flusher.specs.declared.hand.Handed.TheVariants.{Flies, Returns, Fails};
ghost use Rattle.wbt_flusher.specs.declared.work.Phase.TheVariants.{Scanning, Flying};
ghost use Rattle.wbt_rules.specs.declared.moments.TheConstants.{MOST_FAULTS};
ghost use Rattle.wbt_kit.specs.declared.kit.Kit.{Kit};
ghost use Rattle.wbt_kit.specs.declared.kit.Seats.{Seats};

use crate::plan::FlusherPlan;
use crate::work::{Flight, FlusherWork, Phase, Return};
use wbt_io::Disk;
use wbt_journal::Entry;
use wbt_rules::{MOST_FAULTS, Scan};
use wbt_run_steps::Pen;

/// What came of a batch that went to the disk.
#[derive(Clone, Copy)]
pub enum Handed {
    /// The disk has it.
    Flies,
    /// The disk failed: the flusher gives the batch back.
    Returns,
    /// The disk failed for the last time: the flusher makes no further turn.
    Fails,
}

impl FlusherPlan {
    /// The batch goes to the disk at a moment, in ticks. Where the disk failed for the last time, nothing that is still to be added
    /// for the batch's context is kept.
    pub fn hand_over<D: Disk>(
        &self,
        work: &mut FlusherWork,
        disk: &mut D,
        pen: &mut Pen,
        now: u64,
        scan: Scan,
    ) -> Handed
        requires plan { IsPlan self.now }
        requires lists { HasLists self.now work.old }
        requires phase { work.old.phase ≡ Scanning scan }
        requires scan { IsScan self.now work.old.batch.items scan }
        requires some { 0 < length work.old.batch.items }
        requires few_faults { work.old.faults < MOST_FAULTS }
        requires room { 1 ≤ pen.old.room }
        ensures lists { HasLists self.now work.new }
        ensures goes { (kit : Kit) (seats : Seats) → Suits self.now kit → Fits self.now kit seats → IsPaid self.now scan seats → (told : _) → Contains told.batches now → Went self.now kit told (sight work.old seats pen.old.log (D.written disk.old)) (sight work.new seats pen.new.log (D.written disk.new)) }
        ensures later { D.faults disk.old ≤ D.faults disk.new }
        ensures counted { FaultsRise work.old.faults work.new.faults (D.faults disk.old) (D.faults disk.new) }
        ensures hands { result ≡ Flies → HandsOver self.now now scan work.old work.new pen.old.log pen.new.log }
        ensures flies { result ≡ Flies → (flight : Flight) × (work.new.phase ≡ Flying flight) × IsFlight self.now work.new.batch.items flight }
        ensures returns { result ≡ Returns → ReturnsBatch self.now scan work.old work.new pen.old.log pen.new.log }
        ensures risen { result ≡ Fails → HasRisen (D.faults disk.old) (D.faults disk.new) }
        ensures fails { result ≡ Fails → FailsBatch self.now work.old work.new pen.old.log pen.new.log }
    {
        match disk.write(work.batch.as_slice(), now) {
            Ok(until) => {
                self.fly(work, pen, now, until, scan);
                Handed::Flies
            }
            Err(_) => {
                if work.faults + 1 < MOST_FAULTS {
                    self.give_up(work, pen, scan);
                    return Handed::Returns;
                }
                self.fail(work, pen, scan);
                Handed::Fails
            }
        }
    }

    // The disk has the batch, until a moment.
    fn fly(&self, work: &mut FlusherWork, pen: &mut Pen, now: u64, until: u64, scan: Scan)
        requires plan { IsPlan self.now }
        requires lists { HasLists self.now work.old }
        requires phase { work.old.phase ≡ Scanning scan }
        requires scan { IsScan self.now work.old.batch.items scan }
        requires some { 0 < length work.old.batch.items }
        requires room { 1 ≤ pen.old.room }
        ensures lists { HasLists self.now work.new }
        ensures batch { work.new.batch ≡ work.old.batch }
        ensures goes { (kit : Kit) (seats : Seats) (before behind : Option _) → Suits self.now kit → Fits self.now kit seats → IsPaid self.now scan seats → Grows (Some (length work.old.batch.items)) before behind → (told : _) → Contains told.batches now → Went self.now kit told (sight work.old seats pen.old.log before) (sight work.new seats pen.new.log behind) }
        ensures hands { HandsOver self.now now scan work.old work.new pen.old.log pen.new.log }
        ensures flies { (flight : Flight) × (work.new.phase ≡ Flying flight) × IsFlight self.now work.new.batch.items flight }
    {
        pen.tell(Entry::Batch {
            flusher: self.flusher,
            pages: work.batch.as_slice().len() as u32,
            now,
            until,
        });
        work.phase = Phase::Flying {
            flight: Flight {
                until,
                inode: scan.inode,
                landed: 0,
            },
        };
    }

    // The disk failed: the flusher gives the batch back.
    fn give_up(&self, work: &mut FlusherWork, pen: &mut Pen, scan: Scan)
        requires plan { IsPlan self.now }
        requires lists { HasLists self.now work.old }
        requires phase { work.old.phase ≡ Scanning scan }
        requires scan { IsScan self.now work.old.batch.items scan }
        requires some { 0 < length work.old.batch.items }
        requires not_last { work.old.faults + 1 < MOST_FAULTS }
        requires room { 1 ≤ pen.old.room }
        ensures lists { HasLists self.now work.new }
        ensures goes { (kit : Kit) (seats : Seats) (before : Option _) → Suits self.now kit → Fits self.now kit seats → IsPaid self.now scan seats → (told : _) → Went self.now kit told (sight work.old seats pen.old.log before) (sight work.new seats pen.new.log before) }
        ensures returns { ReturnsBatch self.now scan work.old work.new pen.old.log pen.new.log }
    {
        pen.tell(Entry::Fault {
            flusher: self.flusher,
            pages: work.batch.as_slice().len() as u32,
        });
        work.faults += 1;
        work.phase = Phase::Returning {
            giving: Return {
                inode: scan.inode,
                returned: 0,
            },
        };
    }

    // The disk failed for the last time: the batch stays with the flusher, which makes no further turn.
    fn fail(&self, work: &mut FlusherWork, pen: &mut Pen, scan: Scan)
        requires plan { IsPlan self.now }
        requires lists { HasLists self.now work.old }
        requires phase { work.old.phase ≡ Scanning scan }
        requires scan { IsScan self.now work.old.batch.items scan }
        requires some { 0 < length work.old.batch.items }
        requires last { work.old.faults + 1 ≡ MOST_FAULTS }
        requires room { 1 ≤ pen.old.room }
        ensures lists { HasLists self.now work.new }
        ensures goes { (kit : Kit) (seats : Seats) (before : Option _) → Suits self.now kit → Fits self.now kit seats → IsPaid self.now scan seats → (told : _) → Went self.now kit told (sight work.old seats pen.old.log before) (sight work.new seats pen.new.log before) }
        ensures fails { FailsBatch self.now work.old work.new pen.old.log pen.new.log }
    {
        pen.tell(Entry::Fault {
            flusher: self.flusher,
            pages: work.batch.as_slice().len() as u32,
        });
        work.faults = MOST_FAULTS;
        work.phase = Phase::Failed;
        self.forget(work, self.context_of(scan.inode));
    }

    // What is still to be added for a context is dropped.
    fn forget(&self, work: &mut FlusherWork, context: u32)
        requires lists { HasLists self.now work.old }
        requires there { context < length self.now.contexts }
        ensures lists { HasLists self.now work.new }
        ensures only_tallies { OnlyTallies work.old work.new }
        ensures less { OwesNoMore self.now work.old work.new }
    {
        self.drop_owed(work, 0, context);
        let group = self.group_of(context);
        if group != 0 {
            self.drop_owed(work, group, context);
        }
    }
}
