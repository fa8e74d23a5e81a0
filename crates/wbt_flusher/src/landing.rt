//! The end of a flight: the batch is counted in.

ghost use Rattle.std.specs.Prelude.{◌≡◌, ◌+◌, ◌≤◌, ◌<◌, false, length, set, Option};
ghost use Rattle.wbt_flusher.specs.Answers.{Goes, GoesKept};
ghost use Rattle.wbt_flusher.specs.Did.{Fits, HasRooms};
ghost use Rattle.wbt_flusher.specs.Plans.{Suits, IsInode, context_of};
ghost use Rattle.wbt_flusher.specs.Reads.{AddsShares};
ghost use Rattle.wbt_flusher.specs.Sights.{sight, tallies_of};
ghost use Rattle.wbt_flusher.specs.Took.{CountsIn};
ghost use Rattle.wbt_flusher.specs.Turns as spec;
ghost use Rattle.wbt_flusher.specs.Turns.{HasLists, IsIdle, KeepsRest, OnlyShare, OnlyTallies};
ghost use Rattle.wbt_flusher.specs.declared.work.Phase.TheVariants.{Idle, Flying};
ghost use Rattle.wbt_kit.specs.declared.kit.Kit.{Kit};
ghost use Rattle.wbt_kit.specs.declared.kit.Seats.{Seats};

use crate::plan::FlusherPlan;
use crate::tally::{Tallies, Tally};
use crate::work::{Flight, FlusherWork, Phase};
use wbt_kit::{Kit, Seats};
use wbt_run_steps::Pen;

impl FlusherPlan {
    /// All pages of a flight are completed. They are counted into what the context wrote, and added to its parts in the global
    /// domain and in its cgroup's. The flusher is idle and ready.
    pub fn end_flight(
        &self,
        work: &mut FlusherWork,
        kit: &Kit,
        seats: &mut Seats,
        pen: &mut Pen,
        flight: Flight,
    )
        requires suits { Suits self.now kit.now }
        requires fits { Fits self.now kit.now seats.old }
        requires lists { HasLists self.now work.old }
        requires phase { work.old.phase ≡ Flying flight }
        requires landed { flight.landed ≡ length work.old.batch.items }
        requires inode { IsInode self.now flight.inode }
        requires rooms { HasRooms self.now work.old seats.old }
        requires room { 2 ≤ pen.old.room }
        ensures goes { Goes self.now kit.now seats.old seats.new pen.old.log pen.new.log work.old work.new }
        ensures fits { Fits self.now kit.now seats.new }
        ensures lists { HasLists self.now work.new }
        ensures only_share { OnlyShare seats.old seats.new }
        ensures idle { work.new.phase ≡ Idle 0 false }
        ensures batch { length work.new.batch.items ≡ 0 }
        ensures counts { (written : Option _) → CountsIn self.now (context_of self.now flight.inode) flight.landed (sight work.old seats.old pen.old.log written) (sight work.new seats.new pen.new.log written) }
        ensures faults { work.new.faults ≡ work.old.faults }
    {
        let context = self.context_of(flight.inode);
        self.owe_batch(work, flight);
        self.count_written(work, kit, seats, context);
        self.add_shares(work, kit, seats, pen, context);
    }

    // What is still to be added is added to both domains of a context.
    fn add_shares(
        &self,
        work: &mut FlusherWork,
        kit: &Kit,
        seats: &mut Seats,
        pen: &mut Pen,
        context: u32,
    )
        requires suits { Suits self.now kit.now }
        requires fits { Fits self.now kit.now seats.old }
        requires lists { HasLists self.now work.old }
        requires there { context < length self.now.contexts }
        requires rooms { HasRooms self.now work.old seats.old }
        requires room { 2 ≤ pen.old.room }
        ensures goes { Goes self.now kit.now seats.old seats.new pen.old.log pen.new.log work.old work.new }
        ensures fits { Fits self.now kit.now seats.new }
        ensures lists { HasLists self.now work.new }
        ensures only_share { OnlyShare seats.old seats.new }
        ensures only_tallies { OnlyTallies work.old work.new }
        ensures adds { AddsShares self.now context work.old.tallies.items work.new.tallies.items seats.old.share seats.new.share pen.old.log pen.new.log }
    {
        self.add_share(work, kit, seats, pen, 0, context);
        let group = self.group_of(context);
        if group != 0 {
            self.add_share(work, kit, seats, pen, group, context);
        }
    }

    // The flusher has no batch any more: its pages are to be counted and added.
    fn owe_batch(&self, work: &mut FlusherWork, flight: Flight)
        requires lists { HasLists self.now work.old }
        requires phase { work.old.phase ≡ Flying flight }
        requires landed { flight.landed ≡ length work.old.batch.items }
        requires inode { IsInode self.now flight.inode }
        requires there { context_of self.now flight.inode < length self.now.contexts }
        ensures goes { (kit : Kit) (seats : Seats) → Fits self.now kit seats → GoesKept self.now kit seats seats work.old work.new }
        ensures lists { HasLists self.now work.new }
        ensures idle { work.new.phase ≡ Idle 0 false }
        ensures batch { length work.new.batch.items ≡ 0 }
        ensures rest { KeepsRest work.old work.new }
        ensures owes { work.new.tallies.items ≡ set work.old.tallies.items (context_of self.now flight.inode) (spec.owing_more flight.landed (tallies_of work.old (context_of self.now flight.inode))) }
    {
        let context = self.context_of(flight.inode);
        self.owe_more(work, context, flight.landed as u64);
        work.batch.clear();
        work.phase = Phase::Idle {
            until: 0,
            kept: false,
        };
    }

    fn owe_more(&self, work: &mut FlusherWork, context: u32, n: u64)
        requires lists { HasLists self.now work.old }
        requires there { context < length self.now.contexts }
        ensures lists { HasLists self.now work.new }
        ensures only_tallies { OnlyTallies work.old work.new }
        ensures set { work.new.tallies.items ≡ set work.old.tallies.items context (spec.owing_more n (tallies_of work.old context)) }
    {
        let old = work.tallies[context as usize];
        work.tallies[context as usize] = owing_more(old, n);
    }
}

// So many pages more are to be counted and added. Where the context has no cgroup, nobody asks for the last number.
fn owing_more(old: Tallies, n: u64) -> Tallies
    ensures { result ≡ spec.owing_more n old }
{
    Tallies {
        written: old.written.saturating_add(n),
        global: Tally {
            owed: old.global.owed.saturating_add(n),
            ..old.global
        },
        group: Tally {
            owed: old.group.owed.saturating_add(n),
            ..old.group
        },
    }
}
