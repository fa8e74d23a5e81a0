//! A write of a page.

ghost use Rattle.std.specs.Prelude.{◌≡◌, ◌+◌, ◌<◌, ◌≤◌, IfOk, OnErr, IsTrue, length};
ghost use Rattle.wbt_table.specs.Calls.{HasNoPageSteps};
ghost use Rattle.wbt_table.specs.Layout.{domains, setting};
ghost use Rattle.wbt_writer.specs.Ahead.{first_page};
ghost use Rattle.wbt_writer.specs.Counted.{IsJob};
ghost use Rattle.wbt_writer.specs.Desk.{AreAt, HaveLefts, IsGoing, OwesNothing, sight};
ghost use Rattle.wbt_run_steps.specs.Gate.{AskedBeforeEach, StepsOnce};
ghost use Rattle.wbt_run_steps.specs.Steps.{IsStopped};
ghost use Rattle.wbt_run_steps.specs.Steps.{AreOwed};
ghost use Rattle.wbt_writer.specs.Exact.{DirtiesPage, FinishTook, MarksInode, WriteTook};
ghost use Rattle.wbt_writer.specs.Kinds.{StepsToDirty, StepsToFinish, StepsToWrite};
ghost use Rattle.wbt_writer.specs.Writes.{Dirties, Finishes, Marked, Writes};
ghost use Rattle.wbt_journal.specs.declared.entry.Entry.TheVariants as entry;
ghost use Rattle.wbt_run_laws.specs.Log.{with_entry};
ghost use Rattle.wbt_writer.specs.declared.tasks.TaskJob.TheVariants as job;

use crate::work::{WriterPlace, WriterWork};
use std::sync::Wait;
use wbt_io::Gate;
use wbt_journal::Entry;
use wbt_kit::{Hands, Kit, Seats};
use wbt_rules::{context_of, first_of};
use wbt_run_steps::{Pen, mark, may_step, settle};
use wbt_table::{Dirtied, Spent};

/// What came of a write.
#[derive(Clone, Copy)]
pub enum Wrote {
    /// The page was dirty before.
    Already,
    /// It was clean. Its counters are settled, and its inode is marked.
    Fresh,
    /// The gate said no.
    Stopped,
    /// The CPU has made as many page steps as it may.
    Spent,
}

impl WriterWork {
    /// The task's next page, which is counted from the inode's first.
    pub fn write<R: Wait, C, G: Gate>(
        &mut self,
        hands: &Hands<R, C, G>,
        place: &WriterPlace,
        task: u32,
        inode: u32,
        page: u32,
        seats: &mut Seats,
        pen: &mut Pen,
    ) -> Wrote
        requires at_kit { AreAt place.now.trace.now place.now.cpu hands.now.kit.now self.old seats.old }
        requires task { IsGoing place.now.trace.now self.old.tasks task }
        requires its_job { IsJob place.now.trace.now self.old.tasks task (job.Write inode page) }
        requires owes { OwesNothing place.now.cpu seats.old }
        requires lefts { HaveLefts place.now.trace.now place.now.cpu hands.now.kit.now self.old.tasks seats.old }
        requires room { 4 ≤ pen.old.room }
        ensures at_kit { AreAt place.now.trace.now place.now.cpu hands.now.kit.now self.new seats.new }
        ensures writes { Writes place.now.trace.now hands.now.kit.now place.now.cpu task inode page (G.said hands.now.gate.now) result (sight self.old seats.old pen.old.log) (sight self.new seats.new pen.new.log) }
        ensures took { WriteTook place.now.trace.now hands.now.kit.now place.now.cpu task inode page (G.said hands.now.gate.now) result (sight self.old seats.old pen.old.log) (sight self.new seats.new pen.new.log) }
        ensures asked { AskedBeforeEach place.now.cpu (G.said hands.now.gate.now) seats.old seats.new }
        ensures kinds { StepsToWrite (domains hands.now.kit.now.throttle.layout) place.now.cpu result seats.old seats.new }
    {
        if !may_step(place.cpu, seats, hands.gate) {
            return Wrote::Stopped;
        }
        match self.dirty(place, task, inode, page, hands.kit, seats, pen) {
            Err(_) => Wrote::Spent,
            Ok(Dirtied::Already) => Wrote::Already,
            Ok(Dirtied::Fresh) => self.finish(hands, place, inode, seats, pen),
        }
    }

    // The step `dirty`, with its entry and with what the tasks count of it.
    fn dirty(
        &mut self,
        place: &WriterPlace,
        task: u32,
        inode: u32,
        page: u32,
        kit: &Kit,
        seats: &mut Seats,
        pen: &mut Pen,
    ) -> Result<Dirtied, Spent>
        requires at_kit { AreAt place.now.trace.now place.now.cpu kit.now self.old seats.old }
        requires task { IsGoing place.now.trace.now self.old.tasks task }
        requires its_job { IsJob place.now.trace.now self.old.tasks task (job.Write inode page) }
        requires owes { OwesNothing place.now.cpu seats.old }
        requires lefts { HaveLefts place.now.trace.now place.now.cpu kit.now self.old.tasks seats.old }
        requires room { 1 ≤ pen.old.room }
        ensures at_kit { AreAt place.now.trace.now place.now.cpu kit.now self.new seats.new }
        ensures dirties { IfOk result (λ answer. Dirties place.now.trace.now kit.now place.now.cpu task inode page answer (sight self.old seats.old pen.old.log) (sight self.new seats.new pen.new.log)) }
        ensures took { IfOk result (λ answer. DirtiesPage place.now.trace.now kit.now task inode page answer (sight self.old seats.old pen.old.log) (sight self.new seats.new pen.new.log)) }
        ensures spent { OnErr result ((sight self.new seats.new pen.new.log ≡ sight self.old seats.old pen.old.log) × HasNoPageSteps (setting kit.now.throttle.layout) place.now.cpu seats.old.cpu) }
        ensures once { StepsOnce place.now.cpu seats.old seats.new }
        ensures kinds { IfOk result (λ answer. StepsToDirty kit.now place.now.cpu (first_page place.now.trace.now inode + page) answer seats.old seats.new) }
        ensures room { pen.old.room ≤ pen.new.room + 1 }
    {
        let context = context_of(place.trace, inode);
        let writer = self.tasks.number(place.trace, task, context);
        let page = first_of(place.trace, inode) + page;
        match kit.throttle.dirty(&mut seats.cpu, writer, page) {
            Err(spent) => Err(spent),
            Ok(Dirtied::Already) => {
                tell_write(pen, task, page, false);
                self.tasks.wrote_already(place.trace, task);
                Ok(Dirtied::Already)
            }
            Ok(Dirtied::Fresh) => {
                tell_write(pen, task, page, true);
                self.tasks.wrote_fresh(place.trace, task, writer, context);
                Ok(Dirtied::Fresh)
            }
        }
    }

    // What follows a write of a clean page: the counters are settled, and the inode is marked.
    fn finish<R: Wait, C, G: Gate>(
        &mut self,
        hands: &Hands<R, C, G>,
        place: &WriterPlace,
        inode: u32,
        seats: &mut Seats,
        pen: &mut Pen,
    ) -> Wrote
        requires at_kit { AreAt place.now.trace.now place.now.cpu hands.now.kit.now self.old seats.old }
        requires inode { inode < length place.now.trace.now.inodes }
        requires owed { AreOwed place.now.cpu hands.now.kit.now seats.old }
        requires room { 3 ≤ pen.old.room }
        ensures at_kit { AreAt place.now.trace.now place.now.cpu hands.now.kit.now self.new seats.new }
        ensures finishes { Finishes place.now.trace.now hands.now.kit.now place.now.cpu inode (G.said hands.now.gate.now) result (sight self.old seats.old pen.old.log) (sight self.new seats.new pen.new.log) }
        ensures took { FinishTook place.now.trace.now hands.now.kit.now place.now.cpu inode (G.said hands.now.gate.now) result (sight self.old seats.old pen.old.log) (sight self.new seats.new pen.new.log) }
        ensures asked { AskedBeforeEach place.now.cpu (G.said hands.now.gate.now) seats.old seats.new }
        ensures kinds { StepsToFinish place.now.cpu result seats.old seats.new }
    {
        if !settle(place.cpu, hands.kit, seats, hands.gate, pen) {
            return Wrote::Stopped;
        }
        if !may_step(place.cpu, seats, hands.gate) {
            return Wrote::Stopped;
        }
        self.mark(hands, place, inode, seats);
        Wrote::Fresh
    }

    // The step `mark`; an inode that had no mark goes into its device's queue.
    fn mark<R: Wait, C, G>(
        &mut self,
        hands: &Hands<R, C, G>,
        place: &WriterPlace,
        inode: u32,
        seats: &mut Seats,
    )
        requires at_kit { AreAt place.now.trace.now place.now.cpu hands.now.kit.now self.old seats.old }
        requires inode { inode < length place.now.trace.now.inodes }
        ensures at_kit { AreAt place.now.trace.now place.now.cpu hands.now.kit.now self.new seats.new }
        ensures marked { Marked place.now.trace.now hands.now.kit.now place.now.cpu inode self.old self.new seats.old seats.new }
        ensures marks { MarksInode place.now.trace.now hands.now.kit.now place.now.cpu inode seats.old seats.new self.old.waiting.items self.new.waiting.items }
    {
        if mark(place.cpu, inode, hands.kit, seats) {
            self.put(hands, place, inode, seats);
        }
    }
}

fn tell_write(pen: &mut Pen, task: u32, page: u32, fresh: bool)
    requires room { 1 ≤ pen.old.room }
    ensures log { pen.new.log ≡ with_entry (entry.Write task page fresh) pen.old.log }
    ensures room { pen.new.room + 1 ≡ pen.old.room }
{
    pen.tell(Entry::Write { task, page, fresh });
}
