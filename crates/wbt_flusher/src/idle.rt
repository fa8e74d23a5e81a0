//! An idle flusher begins a scan.

ghost use Rattle.std.specs.Prelude.{◌≡◌, ◌<◌, [], IsTrue, IsFalse, Option};
ghost use Rattle.wbt_grant.specs.Kinds.{unmark};
ghost use Rattle.wbt_rules.specs.Flusher.{quota_of as quota_value};
ghost use Rattle.wbt_turns.specs.Words.{MayTake};
ghost use Rattle.wbt_run_steps.specs.Records.{OnlyCpu};
ghost use Rattle.wbt_rules.specs.declared.moments.TheConstants.{MOST_FAULTS};
ghost use Rattle.wbt_table.specs.Layout.{setting};
ghost use Rattle.wbt_table.specs.Seat.{Makes};
ghost use Rattle.wbt_run_steps.specs.Gate.{AskedBeforeEach};
ghost use Rattle.wbt_run_steps.specs.Kinds.{Steps};
ghost use Rattle.wbt_flusher.specs.Answers.{GoesKept};
ghost use Rattle.wbt_flusher.specs.Begins.{BeginsScan};
ghost use Rattle.wbt_flusher.specs.Did.{Fits, KeepsDebts, IsStopped};
ghost use Rattle.wbt_flusher.specs.Plans.{Suits, IsInode, IsPlan, context_of, inode_at};
ghost use Rattle.wbt_run_steps.specs.Reads.{ReadsEstimate};
ghost use Rattle.wbt_flusher.specs.Sights.{sight};
ghost use Rattle.wbt_flusher.specs.Turns as spec;
ghost use Rattle.wbt_flusher.specs.Turns.{HasLists, IsSteady, IsIdle, OnlyEst, begun_scan};

use crate::plan::FlusherPlan;
use crate::work::{FlusherWork, Phase};
use std::sync::Wait;
use wbt_io::Gate;
use wbt_kit::{Hands, Kit, Seats};
use wbt_rules::{Scan, quota_of};
use wbt_run_steps::may_step;

impl FlusherPlan {
    /// A scan of an inode that was taken begins. False where the gate stopped it.
    pub fn begin_scan<R: Wait, C, G: Gate>(
        &self,
        work: &mut FlusherWork,
        hands: &Hands<R, C, G>,
        seats: &mut Seats,
        inode: u32,
    ) -> bool
        requires suits { Suits self.now hands.now.kit.now }
        requires fits { Fits self.now hands.now.kit.now seats.old }
        requires lists { HasLists self.now work.old }
        requires idle { IsIdle work.old }
        requires inode { IsInode self.now inode }
        requires few_faults { work.old.faults < MOST_FAULTS }
        ensures asked { AskedBeforeEach self.now.cpu (G.said hands.now.gate.now) seats.old seats.new }
        ensures kinds { Steps self.now.cpu MayTake seats.old seats.new }
        ensures goes { GoesKept self.now hands.now.kit.now seats.old seats.new work.old work.new }
        ensures fits { Fits self.now hands.now.kit.now seats.new }
        ensures debts { KeepsDebts self.now seats.old seats.new }
        ensures steady { IsTrue result → IsSteady self.now work.new }
        ensures same { IsFalse result → work.new ≡ work.old }
        ensures stays { IsFalse result → seats.new ≡ seats.old }
        ensures begins { IsTrue result → (log : _) (written : Option _) → BeginsScan self.now hands.now.kit.now inode (sight work.old seats.old log written) (sight work.new seats.new log written) }
        ensures stopped { IsFalse result → IsStopped self.now (G.said hands.now.gate.now) seats.new }
        ensures faults { work.new.faults ≡ work.old.faults }
    {
        if !may_step(self.cpu, seats, hands.gate) {
            return false;
        }
        self.unmark(work, hands.kit, seats, inode);
        self.set_quota(work, hands, seats, inode);
        true
    }

    /// The step `unmark`: the scan of the inode begins, with no quota yet.
    pub fn unmark(&self, work: &mut FlusherWork, kit: &Kit, seats: &mut Seats, inode: u32)
        requires suits { Suits self.now kit.now }
        requires fits { Fits self.now kit.now seats.old }
        requires lists { HasLists self.now work.old }
        requires idle { IsIdle work.old }
        requires inode { IsInode self.now inode }
        ensures fits { Fits self.now kit.now seats.new }
        ensures goes { GoesKept self.now kit.now seats.old seats.new work.old work.new }
        ensures debts { KeepsDebts self.now seats.old seats.new }
        ensures lists { HasLists self.now work.new }
        ensures begun { work.new ≡ record work.old { phase = begun_scan self.now work.old inode 0 } }
        ensures unmarks { (found : _) × Makes (setting kit.now.throttle.layout) (unmark self.now.cpu inode) found seats.old.cpu seats.new.cpu }
        ensures only { OnlyCpu seats.old seats.new }
    {
        kit.throttle.clear_inode(&mut seats.cpu, self.cpu, inode);
        work.phase = Phase::Scanning {
            scan: Scan {
                inode,
                first: self.first_of(inode),
                pages: self.pages_of(inode),
                start: self.start_of(work, inode),
                passed: 0,
                quota: 0,
                noted: false,
            },
        };
    }

    // The place of the inode at which its scan begins.
    fn start_of(&self, work: &FlusherWork, inode: u32) -> u32
        requires lists { HasLists self.now work.now }
        requires plan { IsPlan self.now }
        requires inode { IsInode self.now inode }
        ensures value { result ≡ spec.start_of self.now work.now inode }
        ensures below { result < (inode_at self.now inode).pages }
    {
        if self.shares.cyclic {
            work.places[inode as usize]
        } else {
            0
        }
    }

    // The scan gets its quota: half a second of what the device writes on average, or as few pages as its line says.
    fn set_quota<R: Wait, C, G>(
        &self,
        work: &mut FlusherWork,
        hands: &Hands<R, C, G>,
        seats: &mut Seats,
        inode: u32,
    )
        requires suits { Suits self.now hands.now.kit.now }
        requires fits { Fits self.now hands.now.kit.now seats.old }
        requires lists { HasLists self.now work.old }
        requires empty { work.old.batch.items ≡ [] }
        requires begun { work.old.phase ≡ begun_scan self.now work.old inode 0 }
        requires inode { IsInode self.now inode }
        requires few_faults { work.old.faults < MOST_FAULTS }
        ensures goes { GoesKept self.now hands.now.kit.now seats.old seats.new work.old work.new }
        ensures fits { Fits self.now hands.now.kit.now seats.new }
        ensures only_est { OnlyEst seats.old seats.new }
        ensures steady { IsSteady self.now work.new }
        ensures quota { (newest : _) × ReadsEstimate hands.now.kit.now.published.firsts (context_of self.now inode) newest seats.old.est seats.new.est × (work.new ≡ record work.old { phase = begun_scan self.now work.old inode (quota_value self.now.shares newest.avg work.old.hard) }) }
    {
        let context = self.context_of(inode);
        let avg = hands
            .kit
            .published
            .read(hands.rt, &mut seats.est, context)
            .avg;
        work.phase = Phase::Scanning {
            scan: Scan {
                inode,
                first: self.first_of(inode),
                pages: self.pages_of(inode),
                start: self.start_of(work, inode),
                passed: 0,
                quota: quota_of(&self.shares, avg, work.hard),
                noted: false,
            },
        };
    }
}
