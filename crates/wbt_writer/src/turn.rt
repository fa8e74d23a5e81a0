//! A turn of a CPU's writers.

ghost use Rattle.std.specs.Prelude.{◌≡◌, ◌^◌, ◌<◌, ◌≤◌, length};
ghost use Rattle.wbt_run_steps.specs.Gate.{AskedBeforeEach};
ghost use Rattle.wbt_run_steps.specs.Kinds.{StepsInTurn};
ghost use Rattle.wbt_table.specs.Layout.{domains};
ghost use Rattle.wbt_writer.specs.Answers.{Goes, HasMemory, Turned, WorkMayGoOn};
ghost use Rattle.wbt_writer.specs.Counted.{task_at};
ghost use Rattle.wbt_writer.specs.Exact.{TookBy, WriterTakes};
ghost use Rattle.wbt_writer.specs.Desk.{AreAt, HaveLefts, HaveRead, IsGoing, OwesNothing, sight};

use crate::choose::Chosen;
use crate::tasks::TaskJob;
use crate::work::{WriterPlace, WriterWork};
use crate::write::Wrote;
use std::sync::Wait;
use wbt_io::{Clock, Gate, told_moment};
use wbt_kit::{Hands, Seats, Turn};
use wbt_run_steps::Pen;

impl WriterWork {
    /// A turn: inodes that found their queue full are put again, and then the next task takes its turn. There is room for what it tells.
    pub fn turn<R: Wait, C: Clock, G: Gate>(
        &mut self,
        hands: &Hands<R, C, G>,
        place: &WriterPlace,
        seats: &mut Seats,
        pen: &mut Pen,
    ) -> Turn
        requires at_kit { AreAt place.now.trace.now place.now.cpu hands.now.kit.now self.old seats.old }
        requires owes { OwesNothing place.now.cpu seats.old }
        requires lefts { HaveLefts place.now.trace.now place.now.cpu hands.now.kit.now self.old.tasks seats.old }
        requires have_read { HaveRead place.now.trace.now self.old seats.old }
        requires room { (4 ≤ pen.old.room) × (1 ≤ pen.old.checks) }
        ensures at_kit { AreAt place.now.trace.now place.now.cpu hands.now.kit.now self.new seats.new }
        ensures turned { Turned (C.told hands.now.clock.now) (G.said hands.now.gate.now) place.now.trace.now place.now.cpu hands.now.kit.now result (sight self.old seats.old pen.old.log) (sight self.new seats.new pen.new.log) }
        ensures took { WriterTakes (C.told hands.now.clock.now) (G.said hands.now.gate.now) place.now.trace.now hands.now.kit.now place.now.cpu result (sight self.old seats.old pen.old.log) (sight self.new seats.new pen.new.log) }
        ensures asked { AskedBeforeEach place.now.cpu (G.said hands.now.gate.now) seats.old seats.new }
        ensures kinds { StepsInTurn (domains hands.now.kit.now.throttle.layout) place.now.cpu result seats.old seats.new }
        ensures may_go_on { WorkMayGoOn result place.now.trace.now place.now.cpu hands.now.kit.now self.new seats.old seats.new }
    {
        self.put_waiting(hands, place, seats);
        let now = told_moment(hands.clock);
        match self.tasks.choose(now) {
            Chosen::Done => Turn::Done,
            Chosen::Resting { until } => Turn::Resting { now, until },
            Chosen::Task { task } => { self.step(hands, place, task, now, seats, pen) }
        }
    }

    // The task's turn.
    fn step<R: Wait, C: Clock, G: Gate>(
        &mut self,
        hands: &Hands<R, C, G>,
        place: &WriterPlace,
        task: u32,
        now: u64,
        seats: &mut Seats,
        pen: &mut Pen,
    ) -> Turn
        requires at_kit { AreAt place.now.trace.now place.now.cpu hands.now.kit.now self.old seats.old }
        requires owes { OwesNothing place.now.cpu seats.old }
        requires lefts { HaveLefts place.now.trace.now place.now.cpu hands.now.kit.now self.old.tasks seats.old }
        requires have_read { HaveRead place.now.trace.now self.old seats.old }
        requires goes { Goes (C.told hands.now.clock.now) self.old.tasks now task }
        requires task { IsGoing place.now.trace.now self.old.tasks task }
        requires moment { now < 2 ^ 62 }
        requires room { (4 ≤ pen.old.room) × (1 ≤ pen.old.checks) }
        ensures memory { HasMemory result }
        ensures at_kit { AreAt place.now.trace.now place.now.cpu hands.now.kit.now self.new seats.new }
        ensures turned { Turned (C.told hands.now.clock.now) (G.said hands.now.gate.now) place.now.trace.now place.now.cpu hands.now.kit.now result (sight self.old seats.old pen.old.log) (sight self.new seats.new pen.new.log) }
        ensures took { TookBy (C.told hands.now.clock.now) (G.said hands.now.gate.now) place.now.trace.now hands.now.kit.now place.now.cpu result (sight self.old seats.old pen.old.log) (sight self.new seats.new pen.new.log) }
        ensures asked { AskedBeforeEach place.now.cpu (G.said hands.now.gate.now) seats.old seats.new }
        ensures kinds { StepsInTurn (domains hands.now.kit.now.throttle.layout) place.now.cpu result seats.old seats.new }
        ensures may_go_on { WorkMayGoOn result place.now.trace.now place.now.cpu hands.now.kit.now self.new seats.old seats.new }
    {
        self.tasks.begin(task);
        match self.tasks.job(place.trace, task) {
            TaskJob::Check { .. } => {
                match self.check(hands, place, task, seats, pen) {
                    Ok(()) => Turn::Stepped,
                    Err(_) => Turn::Halted,
                }
            }
            TaskJob::Rest { ticks } => {
                self.tasks.rested(place.trace, task, now + ticks);
                Turn::Stepped
            }
            TaskJob::Pause { ticks } => {
                self.tasks.paused(task, now + ticks);
                Turn::Stepped
            }
            TaskJob::Write { inode, page } => {
                match self.write(hands, place, task, inode, page, seats, pen) {
                    Wrote::Already => Turn::Stepped,
                    Wrote::Fresh => Turn::Stepped,
                    Wrote::Stopped => Turn::Halted,
                    Wrote::Spent => Turn::Spent,
                }
            }
        }
    }
}
