//! A page of a scan.

ghost use Rattle.std.specs.Prelude.{◌||◌, ◌==◌, ◌≡◌, ◌+◌, ◌<◌, ◌≤◌, ◌⊎◌, false, IsTrue, ◌↔◌, length, Option};
ghost use Rattle.std.specs.Vec.{vec_capacity, vec_len};
ghost use Rattle.wbt_io.specs.Faults.{HasRisen};
ghost use Rattle.wbt_run_steps.specs.Gate.{AskedBeforeEach};
ghost use Rattle.wbt_run_steps.specs.Kinds.{StepsInTurn};
ghost use Rattle.wbt_flusher.specs.Answers.{Ends, EndsBy, Goes, IsReady};
ghost use Rattle.wbt_flusher.specs.Cut.{ScanFails, ScansSome};
ghost use Rattle.wbt_flusher.specs.Did.{Fits, KeepsDebts};
ghost use Rattle.wbt_flusher.specs.Kinds.{StepsToLook};
ghost use Rattle.wbt_flusher.specs.Looks.{Looks};
ghost use Rattle.wbt_flusher.specs.Plans.{Suits};
ghost use Rattle.wbt_flusher.specs.Sights.{sight};
ghost use Rattle.wbt_flusher.specs.Took.{IsScanOver, LooksAt, ScansPage};
ghost use Rattle.wbt_flusher.specs.Turns.{FaultsRise, HasLists, IsScan};
ghost use Rattle.wbt_flusher.specs.declared.work.Phase.TheVariants.{Scanning};
ghost use Rattle.wbt_kit.specs.declared.turn.Turn.TheVariants.{Faulted, Halted, Spent, Stepped};
ghost use Rattle.wbt_rules.specs.declared.moments.TheConstants.{MOST_FAULTS};

use crate::plan::FlusherPlan;
use crate::work::{FlusherWork, Phase};
use std::sync::Wait;
use wbt_io::{Clock, Disk, Gate};
use wbt_journal::Entry;
use wbt_kit::{Hands, Seats, Turn};
use wbt_rules::Scan;
use wbt_run_steps::Pen;
use wbt_table::Claim;

/// What came of a look at a scan's next page.
#[derive(Clone, Copy)]
pub enum Looked {
    /// The scan went on to the next page.
    Passed { scan: Scan },
    /// The page changed between the look and the claim: it is looked at again.
    Missed,
    /// The gate stopped it.
    Stopped,
}

// The bits of a page that is dirty and under writeback.
const BOTH_BITS: u64 = 3;

impl FlusherPlan {
    /// Claims a page, and closes the scan where it is over.
    pub fn turn_scan<D: Disk, R: Wait, C: Clock, G: Gate>(
        &self,
        work: &mut FlusherWork,
        disk: &mut D,
        hands: &Hands<R, C, G>,
        seats: &mut Seats,
        pen: &mut Pen,
        scan: Scan,
    ) -> Turn
        requires suits { Suits self.now hands.now.kit.now }
        requires ready { IsReady self.now hands.now.kit.now work.old seats.old }
        requires phase { work.old.phase ≡ Scanning scan }
        requires room { 2 ≤ pen.old.room }
        requires spare { vec_len work.old.batch < vec_capacity work.old.batch }
        ensures asked { AskedBeforeEach self.now.cpu (G.said hands.now.gate.now) seats.old seats.new }
        ensures kinds { StepsInTurn self.now.domains self.now.cpu result seats.old seats.new }
        ensures later { D.faults disk.old ≤ D.faults disk.new }
        ensures ends { EndsBy (C.told hands.now.clock.now) (λ moments. Ends self.now hands.now.kit.now false moments (G.said hands.now.gate.now) (HasRisen (D.faults disk.old) (D.faults disk.new)) result (sight work.old seats.old pen.old.log (D.written disk.old)) (sight work.new seats.new pen.new.log (D.written disk.new))) }
        ensures scans { result ≡ Stepped → ScansPage self.now hands.now.kit.now (C.told hands.now.clock.now) scan (sight work.old seats.old pen.old.log (D.written disk.old)) (sight work.new seats.new pen.new.log (D.written disk.new)) }
        ensures halts { result ≡ Halted → ScansSome self.now hands.now.kit.now scan (sight work.old seats.old pen.old.log (D.written disk.old)) (sight work.new seats.new pen.new.log (D.written disk.new)) }
        ensures fails { result ≡ Faulted → ScanFails self.now hands.now.kit.now scan (sight work.old seats.old pen.old.log (D.written disk.old)) (sight work.new seats.new pen.new.log (D.written disk.new)) }
        ensures unspent { result ≡ Spent → ⊥ }
        ensures within { length work.new.batch.items ≤ scan.quota }
        ensures counted { FaultsRise work.old.faults work.new.faults (D.faults disk.old) (D.faults disk.new) }
        ensures eighth { result ≡ Faulted ↔ work.new.faults ≡ MOST_FAULTS }
    {
        match self.claim_next(work, hands, seats, pen, scan) {
            Looked::Missed => Turn::Stepped,
            Looked::Stopped => Turn::Halted,
            Looked::Passed { scan } => {
                if !self.is_over(work, &scan) {
                    return Turn::Stepped;
                }
                self.close(work, disk, hands, seats, pen, scan)
            }
        }
    }

    // One claim on the next page of a scan (the steps `look` and `claim`).
    fn claim_next<R, C, G: Gate>(
        &self,
        work: &mut FlusherWork,
        hands: &Hands<R, C, G>,
        seats: &mut Seats,
        pen: &mut Pen,
        scan: Scan,
    ) -> Looked
        requires suits { Suits self.now hands.now.kit.now }
        requires fits { Fits self.now hands.now.kit.now seats.old }
        requires lists { HasLists self.now work.old }
        requires phase { work.old.phase ≡ Scanning scan }
        requires scan { IsScan self.now work.old.batch.items scan }
        requires before { scan.passed < scan.pages }
        requires below { length work.old.batch.items < scan.quota }
        requires room { 1 ≤ pen.old.room }
        requires spare { vec_len work.old.batch < vec_capacity work.old.batch }
        ensures asked { AskedBeforeEach self.now.cpu (G.said hands.now.gate.now) seats.old seats.new }
        ensures kinds { StepsToLook self.now.cpu result seats.old seats.new }
        ensures goes { Goes self.now hands.now.kit.now seats.old seats.new pen.old.log pen.new.log work.old work.new }
        ensures fits { Fits self.now hands.now.kit.now seats.new }
        ensures lists { HasLists self.now work.new }
        ensures debts { KeepsDebts self.now seats.old seats.new }
        ensures page { (written : Option _) → LooksAt self.now hands.now.kit.now scan result (sight work.old seats.old pen.old.log written) (sight work.new seats.new pen.new.log written) }
        ensures looks { Looks self.now (G.said hands.now.gate.now) scan result seats.new work.old work.new }
        ensures room { pen.old.room ≤ pen.new.room + 1 }
    {
        let page = scan.page();
        match hands
            .kit
            .throttle
            .claim(&mut seats.cpu, self.cpu, page, hands.gate)
        {
            Claim::Mine => {
                let next = Scan {
                    passed: scan.passed + 1,
                    ..scan
                };
                work.batch.push_reserved(page);
                work.phase = Phase::Scanning { scan: next };
                pen.tell(Entry::Claimed {
                    flusher: self.flusher,
                    page,
                });
                Looked::Passed { scan: next }
            }
            Claim::NotDirty { word } => {
                let next = Scan {
                    passed: scan.passed + 1,
                    noted: noted_after(scan.noted, word),
                    ..scan
                };
                work.phase = Phase::Scanning { scan: next };
                Looked::Passed { scan: next }
            }
            Claim::Missed { .. } => Looked::Missed,
            Claim::Stopped => Looked::Stopped,
        }
    }

    // Whether a scan is over: all pages of its inode were passed, or the batch has the quota.
    fn is_over(&self, work: &FlusherWork, scan: &Scan) -> bool
        ensures { IsTrue result ↔ IsScanOver self.now scan.now work.now }
    {
        scan.passed >= scan.pages || work.batch.as_slice().len() as u64 >= scan.quota
    }
}

// A mark is noted where one was, or where the page has both bits.
fn noted_after(noted: bool, word: u64) -> bool
    ensures { result ≡ (noted || word == 3) }
{
    noted || word == BOTH_BITS
}
