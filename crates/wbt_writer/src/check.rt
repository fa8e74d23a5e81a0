//! A check of a writer.

ghost use Rattle.std.specs.Prelude.{◌≡◌, ◌≢◌, ◌^◌, ◌<◌, ◌≤◌, true, [], OnOk, OnErr, length};
ghost use Rattle.wbt_grant.specs.Kinds.{MayGrant};
ghost use Rattle.wbt_pause.specs.declared.decision.Kind.TheVariants as kind;
ghost use Rattle.wbt_journal.specs.Machine.{context_domain};
ghost use Rattle.wbt_table.specs.Layout.{domains, setting};
ghost use Rattle.wbt_task.specs.History.{writer_of};
ghost use Rattle.wbt_writer.specs.Asked.{Asked, Gives};
ghost use Rattle.wbt_writer.specs.Checks.{Checks, LoadsAlone};
ghost use Rattle.wbt_writer.specs.Counted.{cpu_of, is_due_at, task_at};
ghost use Rattle.wbt_writer.specs.Desk.{AreAt, Fits, HaveLefts, HaveRead, IsGoing, OwesNothing, record_in, sight};
ghost use Rattle.wbt_writer.specs.Exact.{ChecksSome, ChecksTask};
ghost use Rattle.wbt_writer.specs.Loads.{AreInRange, IsGroup};
ghost use Rattle.wbt_run_steps.specs.Gate.{AskedBeforeEach};
ghost use Rattle.wbt_run_steps.specs.Kinds.{CutsTurn, StepsAs, TakesTurn};
ghost use Rattle.wbt_run_steps.specs.Steps.{IsStopped};

use crate::lines::{fractions_after, read_lines};
use crate::loads::{Loads, load_all};
use crate::reads::reads_of;
use crate::work::{WriterPlace, WriterWork};
use std::sync::Wait;
use wbt_io::{Clock, Gate, told_moment};
use wbt_journal::CheckEntry;
use wbt_kit::{Hands, Kit, Seats};
use wbt_pause::{Decision, Kind};
use wbt_rules::{group_of, is_strict};
use wbt_run_steps::{Pen, Stopped};
use wbt_strict::decide_for;

impl WriterWork {
    /// The check of the task's writer that is due: its loads, then what it reads at a moment that the clock tells, what it decides, and
    /// what comes of it.
    pub fn check<R: Wait, C: Clock, G: Gate>(
        &mut self,
        hands: &Hands<R, C, G>,
        place: &WriterPlace,
        task: u32,
        seats: &mut Seats,
        pen: &mut Pen,
    ) -> Result<(), Stopped>
        requires at_kit { AreAt place.now.trace.now place.now.cpu hands.now.kit.now self.old seats.old }
        requires task { IsGoing place.now.trace.now self.old.tasks task }
        requires due { is_due_at (cpu_of self.old.tasks) (task_at self.old.tasks task).writer ≡ true }
        requires owes { OwesNothing place.now.cpu seats.old }
        requires lefts { HaveLefts place.now.trace.now place.now.cpu hands.now.kit.now self.old.tasks seats.old }
        requires have_read { HaveRead place.now.trace.now self.old seats.old }
        requires room { (1 ≤ pen.old.room) × (1 ≤ pen.old.checks) }
        ensures at_kit { AreAt place.now.trace.now place.now.cpu hands.now.kit.now self.new seats.new }
        ensures checks { OnOk result (Checks (C.told hands.now.clock.now) place.now.trace.now hands.now.kit.now place.now.cpu task (sight self.old seats.old pen.old.log) (sight self.new seats.new pen.new.log)) }
        ensures loads_alone { OnErr result (LoadsAlone place.now.trace.now hands.now.kit.now place.now.cpu (sight self.old seats.old pen.old.log) (sight self.new seats.new pen.new.log)) }
        ensures took { OnOk result (ChecksTask place.now.trace.now hands.now.kit.now place.now.cpu task (sight self.old seats.old pen.old.log) (sight self.new seats.new pen.new.log)) }
        ensures took_some { OnErr result (ChecksSome place.now.trace.now hands.now.kit.now place.now.cpu task (sight self.old seats.old pen.old.log) (sight self.new seats.new pen.new.log)) }
        ensures stopped { OnErr result (IsStopped place.now.cpu (G.said hands.now.gate.now) seats.new) }
        ensures asked { AskedBeforeEach place.now.cpu (G.said hands.now.gate.now) seats.old seats.new }
        ensures kinds { OnOk result (TakesTurn (domains hands.now.kit.now.throttle.layout) place.now.cpu seats.old seats.new) }
        ensures cut { OnErr result (CutsTurn (domains hands.now.kit.now.throttle.layout) place.now.cpu seats.old seats.new) }
    {
        let at = self.tasks.task(task);
        let group = group_of(place.trace, at.context);
        let loads = load_all(hands, place.cpu, at.writer, at.context, group, seats)?;
        let now = told_moment(hands.clock);
        let check = self.ask(hands, place, task, now, &loads, seats);
        pen.tell_check(check);
        give(place.cpu, at.writer, check.decision, hands.kit, seats);
        self.tasks.checked(place.trace, task, check.decision, now);
        Ok(())
    }

    // What the check reads and decides at a moment, by its loads.
    fn ask<R: Wait, C, G>(
        &mut self,
        hands: &Hands<R, C, G>,
        place: &WriterPlace,
        task: u32,
        now: u64,
        loads: &Loads,
        seats: &mut Seats,
    ) -> CheckEntry
        requires at_kit { AreAt place.now.trace.now place.now.cpu hands.now.kit.now self.old seats.old }
        requires task { IsGoing place.now.trace.now self.old.tasks task }
        requires due { is_due_at (cpu_of self.old.tasks) (task_at self.old.tasks task).writer ≡ true }
        requires moment { now < 2 ^ 62 }
        requires in_range { AreInRange loads.now }
        requires group { IsGroup (context_domain place.now.trace.now (task_at self.old.tasks task).context) loads.now.group }
        ensures at_kit { AreAt place.now.trace.now place.now.cpu hands.now.kit.now self.new seats.new }
        ensures asked { Asked place.now.trace.now hands.now.kit.now task (task_at self.old.tasks task).context now (writer_of (cpu_of self.old.tasks) (task_at self.old.tasks task).writer).task loads.now result self.old self.new seats.old seats.new }
    {
        let at = self.tasks.task(task);
        let context = at.context as usize;
        let kept = self.fractions[context];
        let estimate = hands
            .kit
            .published
            .read(hands.rt, &mut seats.est, at.context);
        let lines = read_lines(at.context, loads, kept, &hands.kit.shares, &mut seats.share);
        self.fractions[context] = fractions_after(&lines, kept);
        let reads = reads_of(place.trace, at.context, &lines, &loads.count);
        let numbers = self.tasks.numbers(at.writer);
        let strict = is_strict(place.trace, at.context);
        CheckEntry {
            task,
            context: at.context,
            now,
            global: lines.global,
            cgroup: lines.cgroup,
            count: loads.count,
            estimate: estimate.version,
            decision: decide_for(strict, &reads, &estimate, numbers, now),
        }
    }
}

// The writer gets the pages that it may dirty, where it doesn't wait. `cpu`, on which it runs, serves the contract alone.
fn give(cpu: u32, writer: u32, decision: Decision, kit: &Kit, seats: &mut Seats)
    requires fits { Fits cpu kit.now seats.old }
    requires seat { (setting kit.now.throttle.layout).seat writer ≡ cpu }
    requires may { decision.kind ≢ kind.Wait → MayGrant (setting kit.now.throttle.layout) writer decision.left (record_in cpu seats.old) }
    ensures fits { Fits cpu kit.now seats.new }
    ensures gives { Gives cpu writer decision seats.old seats.new }
    ensures kinds { StepsAs cpu [] seats.old seats.new }
{
    let _cpu = cpu;
    match decision.kind {
        Kind::Wait => {}
        _ => kit.throttle.grant(&mut seats.cpu, writer, &decision),
    }
}
