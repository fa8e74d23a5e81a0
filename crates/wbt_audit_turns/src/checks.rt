//! Points 7 and 8: checks decide as the control law asks, and stand exactly where they are due.

ghost use Rattle.std.specs.Prelude.{◌≡◌, ◌<◌, ◌+◌, ◌≤◌, ◌||◌, not, true, false, None, Some, option_map, length, IfOk, IfSome};
ghost use Rattle.wbt_journal.specs.Checks as spec;
ghost use Rattle.wbt_journal.specs.Checks.{due_fault, none_due, with_mark, with_marks};
ghost use Rattle.wbt_journal.specs.Estimates.{decision_at};
ghost use Rattle.wbt_journal.specs.Items.{all_told, tells};
ghost use Rattle.wbt_journal.specs.Told.{checked};
ghost use Rattle.wbt_task.specs.History.{writer_of};
ghost use Rattle.wbt_journal.specs.Side.{check_by, first_side, is_none_due, number_of, settle, side_after_write, write_page};
ghost use Rattle.wbt_journal.specs.Verdict as verdict;
ghost use Rattle.wbt_journal.specs.Walk.{first_of, unless};
ghost use Rattle.wbt_trace.specs.Lawful.{IsLawful};
ghost use Rattle.wbt_audit_turns.specs.Judging.{IsJudgeOf, Passes, asked_group, asked_in_range, from_line, is_asked, side_checked, written};
ghost use Rattle.wbt_audit_turns.specs.Marks.{marked_item};
ghost use Rattle.wbt_audit_turns.specs.Sides.{AreNamed, Fits, IsMachine, side_of};
ghost use Rattle.wbt_audit_walk.specs.Walks.{item_of};

use crate::asked::{asked_by, is_told};
use crate::machine::{Machine, opened_at};
use crate::named::Named;
use crate::side::Side;
use std::alloc::Global;
use wbt_audit_walk::act::Act;
use wbt_audit_walk::lines::end_at;
use wbt_audit_walk::things::is_own_task;
use wbt_audit_walk::walk::{Step, Walk};
use wbt_journal::{CheckEntry, Ending, Journal};
use wbt_num::NoMemory;
use wbt_pause::Decision;
use wbt_rules::group_of;
use wbt_trace::Trace;

/// The first faults of a journal's checks.
#[derive(Clone, Copy, Debug, PartialEq, Eq)]
pub struct CheckFaults {
    /// The line of the first check that decides otherwise than the law asks.
    pub decision: Option<u64>,
    /// Where there is none, the line of the first write where a check is due, or of the first check that isn't due or reads other domains;
    /// or the last line, where a check is missing.
    pub stand: Option<u64>,
}

/// The first faults of a journal's checks.
pub fn check_faults(
    alloc: Global,
    trace: &Trace,
    journal: &Journal,
) -> Result<CheckFaults, NoMemory>
    requires lawful { IsLawful trace.now }
    ensures decision { IfOk result (λ found. found.decision ≡ verdict.decisions_fault trace.now (with_marks trace.now journal.now)) }
    ensures stand { IfOk result (λ found. found.decision ≡ None → found.stand ≡ verdict.checks_fault trace.now (with_marks trace.now journal.now)) }
{
    let mut judge = Judge::make(alloc, trace, journal)?;
    let mut walk = Walk::start(journal)?;
    'steps: while let Some(step) = walk.next()? {
        if let Some(line) = judge.pass(journal, &step)? {
            return Ok(CheckFaults {
                decision: Some(line),
                stand: None,
            });
        }
    }
    judge.end_part();
    let stand = judge.first_stand(end_at(journal)?);
    Ok(CheckFaults {
        decision: None,
        stand,
    })
}

/// What is kept along the walk.
#[derive(Drop)]
pub struct Judge<'a> {
    /// Where the memory of the next part's side comes from.
    pub alloc: Global,
    /// The machine.
    pub machine: Machine<'a>,
    /// The estimates that checks name.
    pub named: Named,
    /// How the run ended.
    pub ending: Ending,
    /// The side of the CPU whose part is read.
    pub side: Side,
    /// The first line of an entry that may not stand there.
    pub stand: Option<u64>,
    /// Whether a part ended with a check that was due, and wrongly so.
    pub missing: bool,
}

impl<'a> Judge<'a> {
    fn make(alloc: Global, trace: &'a Trace, journal: &Journal) -> Result<Judge<'a>, NoMemory>
        requires lawful { IsLawful trace.now }
        ensures judge { IfOk result (λ judge. IsJudgeOf trace.now journal.now judge) }
        ensures side { IfOk result (λ judge. side_of judge.side ≡ first_side trace.now) }
        ensures begins { IfOk result (λ judge. (judge.stand ≡ None) × (judge.missing ≡ false)) }
    {
        let timer = journal.timer.as_slice();
        let contexts = trace.contexts.as_slice().len();
        let machine = Machine::make(alloc, trace, opened_at(timer))?;
        let side = Side::make(alloc, &machine)?;
        Ok(Judge {
            alloc,
            named: Named::make(alloc, journal, contexts, machine.opened)?,
            machine,
            ending: journal.ending,
            side,
            stand: None,
            missing: false,
        })
    }

    // Passes a step. It tells the line of a check that decides otherwise than the law asks.
    fn pass(&mut self, journal: &Journal, step: &Step) -> Result<Option<u64>, NoMemory>
        requires judge { IsJudgeOf self.old.machine.trace.now journal.now self.old }
        ensures passes { IfOk result (λ found. Passes self.old self.new (all_told journal.now) step.now.line (marked_item self.old.machine.trace.now (item_of step.now)) found) }
        ensures judge { IfOk result (λ found. found ≡ None → IsJudgeOf self.old.machine.trace.now journal.now self.new) }
        ensures same { IfOk result (λ _found. (self.new.machine ≡ self.old.machine) × (self.new.ending ≡ self.old.ending)) }
    {
        match step.act {
            None => {
                self.begin_part()?;
                Ok(None)
            }
            Some(Act::Write { task, page, fresh }) => {
                self.pass_write(step, task, page, fresh)?;
                Ok(None)
            }
            Some(Act::Check(check)) => self.pass_check(journal, step, check),
            Some(_) => Ok(None),
        }
    }

    // The CPU's part ends, and the next begins.
    fn begin_part(&mut self) -> Result<(), NoMemory>
        requires machine { IsMachine self.old.machine }
        ensures side { IfOk result (λ _done. side_of self.new.side ≡ first_side self.old.machine.trace.now) }
        ensures missing { IfOk result (λ _done. self.new.missing ≡ (self.old.missing || not (none_due self.old.ending (side_of self.old.side)))) }
        ensures fits { IfOk result (λ _done. Fits self.old.machine self.new.side) }
        ensures rest { IfOk result (λ _done. self.new ≡ record self.old { side = self.new.side; missing = self.new.missing }) }
    {
        self.end_part();
        self.side = Side::make(self.alloc, &self.machine)?;
        Ok(())
    }

    fn end_part(&mut self)
        ensures missing { self.new ≡ record self.old { missing = self.old.missing || not (none_due self.old.ending (side_of self.old.side)) } }
    {
        self.missing = self.missing || self.ends_due();
    }

    // Whether a part that ends here ends with a check that is due, and wrongly so.
    fn ends_due(&self) -> bool
        ensures { result ≡ not (none_due self.now.ending (side_of self.now.side)) }
    {
        match self.ending {
            Ending::Done => !self.side.is_all_quiet(),
            _ => false,
        }
    }

    // A task wrote a page of the part that is read.
    fn pass_write(&mut self, step: &Step, task: u32, page: u32, fresh: bool) -> Result<(), NoMemory>
        requires machine { IsMachine self.old.machine }
        requires fits { Fits self.old.machine self.old.side }
        ensures side { IfOk result (λ _done. side_of self.new.side ≡ side_after_write self.old.machine.trace.now self.old.machine.opened step.now.cpu (side_of self.old.side) (written task page fresh)) }
        ensures stand { IfOk result (λ _done. self.new.stand ≡ first_of self.old.stand (from_line step.now.line (due_fault self.old.machine.trace.now (side_of self.old.side) step.now.cpu (written task page fresh)))) }
        ensures fits { IfOk result (λ _done. Fits self.old.machine self.new.side) }
        ensures rest { IfOk result (λ _done. self.new ≡ record self.old { side = self.new.side; stand = self.new.stand }) }
    {
        if !is_own_task(self.machine.trace, step.cpu, task) {
            return Ok(());
        }
        match self.machine.contexts.get(page) {
            None => Ok(()),
            Some(context) => self.judge_write(step.line, task, context, fresh),
        }
    }

    // A task of the CPU wrote a page of a context.
    fn judge_write(
        &mut self,
        line: u64,
        task: u32,
        context: u32,
        fresh: bool,
    ) -> Result<(), NoMemory>
        requires machine { IsMachine self.old.machine }
        requires fits { Fits self.old.machine self.old.side }
        requires there { task < length self.old.machine.trace.now.tasks }
        requires context { context < length self.old.machine.trace.now.contexts }
        ensures side { IfOk result (λ _done. side_of self.new.side ≡ write_page self.old.machine.trace.now self.old.machine.opened task (Some context) fresh (side_of self.old.side)) }
        ensures stand { IfOk result (λ _done. self.new.stand ≡ first_of self.old.stand (from_line line (unless (is_none_due self.old.machine.trace.now (side_of self.old.side) task) 0))) }
        ensures fits { IfOk result (λ _done. Fits self.old.machine self.new.side) }
        ensures rest { IfOk result (λ _done. self.new ≡ record self.old { side = self.new.side; stand = self.new.stand }) }
    {
        self.tell_due(line, task);
        self.side.wrote(&self.machine, task, context, fresh)
    }

    // Tells a write where a check of its task is due.
    fn tell_due(&mut self, line: u64, task: u32)
        requires machine { IsMachine self.old.machine }
        requires there { task < length self.old.machine.trace.now.tasks }
        ensures { self.new ≡ record self.old { stand = first_of self.old.stand (from_line line (unless (is_none_due self.old.machine.trace.now (side_of self.old.side) task) 0)) } }
    {
        if !self.side.is_quiet(&self.machine, task) {
            self.tell(line);
        }
    }

    // A check. It tells the line of one that decides otherwise than the law asks.
    fn pass_check(
        &mut self,
        journal: &Journal,
        step: &Step,
        check: &CheckEntry,
    ) -> Result<Option<u64>, NoMemory>
        requires judge { IsJudgeOf self.old.machine.trace.now journal.now self.old }
        ensures passes { IfOk result (λ found. Passes self.old self.new (all_told journal.now) step.now.line (tells step.now.cpu (checked (with_mark self.old.machine.trace.now check.entry.now))) found) }
        ensures fits { IfOk result (λ _found. Fits self.old.machine self.new.side) }
        ensures rest { IfOk result (λ _found. self.new ≡ record self.old { side = self.new.side; stand = self.new.stand }) }
    {
        if !is_own_task(self.machine.trace, step.cpu, check.task) {
            return Ok(None);
        }
        self.judge_check(journal, step.line, check)
    }

    // A check of a task of the CPU.
    fn judge_check(
        &mut self,
        journal: &Journal,
        line: u64,
        check: &CheckEntry,
    ) -> Result<Option<u64>, NoMemory>
        requires judge { IsJudgeOf self.old.machine.trace.now journal.now self.old }
        requires there { check.now.task < length self.old.machine.trace.now.tasks }
        ensures answer { IfOk result (λ found. found ≡ from_line line (unless (is_asked self.old.machine.trace.now self.old.machine.opened (all_told journal.now) (side_of self.old.side) check.entry.now) (decision_at check.entry.now))) }
        ensures side { IfOk result (λ found. found ≡ None → side_of self.new.side ≡ side_checked self.old.machine.trace.now self.old.machine.opened (with_mark self.old.machine.trace.now check.entry.now) (side_of self.old.side)) }
        ensures stand { IfOk result (λ found. found ≡ None → self.new.stand ≡ first_of self.old.stand (from_line line (unless (spec.may_check self.old.machine.trace.now (side_of self.old.side) check.entry.now) (decision_at check.entry.now)))) }
        ensures fits { IfOk result (λ _found. Fits self.old.machine self.new.side) }
        ensures rest { IfOk result (λ _found. self.new ≡ record self.old { side = self.new.side; stand = self.new.stand }) }
    {
        // Such a check names no estimate, which an earlier point tells: it is never judged here.
        if check.context as usize >= self.machine.trace.contexts.as_slice().len() {
            return Err(NoMemory);
        }
        let at = decision_line(line, check)?;
        match self.told(journal, check) {
            None => Ok(Some(at)),
            Some(asked) => {
                self.see_check(at, check, asked);
                Ok(None)
            }
        }
    }

    // What the check is to decide, where its lines tell that.
    fn told(&self, journal: &Journal, check: &CheckEntry) -> Option<Decision>
        requires machine { IsMachine self.now.machine }
        requires named { AreNamed self.now.machine.opened (length self.now.machine.trace.now.contexts) (all_told journal.now) self.now.named }
        requires there { check.now.task < length self.now.machine.trace.now.tasks }
        requires context { check.now.context < length self.now.machine.trace.now.contexts }
        ensures none { result ≡ None → is_asked self.now.machine.trace.now self.now.machine.opened (all_told journal.now) (side_of self.now.side) check.entry.now ≡ false }
        ensures some { IfSome result (λ _decision. is_asked self.now.machine.trace.now self.now.machine.opened (all_told journal.now) (side_of self.now.side) check.entry.now ≡ true) }
        ensures value { IfSome result (λ decision. decision ≡ (with_mark self.now.machine.trace.now check.entry.now).decision) }
        ensures settles { IfSome result (λ decision. decision.task.nr_dirtied ≤ (writer_of (side_of self.now.side).cpu (number_of self.now.machine.trace.now check.entry.now.task check.entry.now.context)).task.nr_dirtied) }
    {
        match self.asked(journal, check) {
            None => None,
            Some(asked) => {
                if is_told(&check.decision, &asked) {
                    Some(asked)
                } else {
                    None
                }
            }
        }
    }

    // The check, whose last line is this, decided what it was asked.
    fn see_check(&mut self, at: u64, check: &CheckEntry, asked: Decision)
        requires machine { IsMachine self.old.machine }
        requires fits { Fits self.old.machine self.old.side }
        requires there { check.now.task < length self.old.machine.trace.now.tasks }
        requires context { check.now.context < length self.old.machine.trace.now.contexts }
        requires settles { asked.task.nr_dirtied ≤ (writer_of (side_of self.old.side).cpu (number_of self.old.machine.trace.now check.now.task check.now.context)).task.nr_dirtied }
        ensures side { side_of self.new.side ≡ settle self.old.machine.trace.now self.old.machine.opened check.entry.now.task (check_by self.old.machine.trace.now self.old.machine.opened check.entry.now.task check.entry.now.context asked (side_of self.old.side)) }
        ensures stand { self.new.stand ≡ first_of self.old.stand (unless (spec.may_check self.old.machine.trace.now (side_of self.old.side) check.entry.now) at) }
        ensures fits { Fits self.old.machine self.new.side }
        ensures rest { self.new ≡ record self.old { side = self.new.side; stand = self.new.stand } }
    {
        self.tell_undue(at, check);
        self.side
            .checked(&self.machine, check.task, check.context, asked);
    }

    // Tells a check, whose last line is this, that isn't due or reads other domains.
    fn tell_undue(&mut self, at: u64, check: &CheckEntry)
        requires machine { IsMachine self.old.machine }
        requires there { check.now.task < length self.old.machine.trace.now.tasks }
        requires context { check.now.context < length self.old.machine.trace.now.contexts }
        ensures { self.new ≡ record self.old { stand = first_of self.old.stand (unless (spec.may_check self.old.machine.trace.now (side_of self.old.side) check.entry.now) at) } }
    {
        if !self.may_check(check) {
            self.tell(at);
        }
    }

    // What the check is to decide by the estimate that it names; none where the journal doesn't have that, or where a number isn't in the
    // range of the control law. `journal` serves the contract alone.
    fn asked(&self, journal: &Journal, check: &CheckEntry) -> Option<Decision>
        requires machine { IsMachine self.now.machine }
        requires named { AreNamed self.now.machine.opened (length self.now.machine.trace.now.contexts) (all_told journal.now) self.now.named }
        requires there { check.now.task < length self.now.machine.trace.now.tasks }
        requires context { check.now.context < length self.now.machine.trace.now.contexts }
        ensures value { result ≡ asked_in_range self.now.machine.trace.now (side_of self.now.side) check.entry.now (spec.named_estimate self.now.machine.trace.now self.now.machine.opened (all_told journal.now) check.entry.now) }
        ensures settles { IfSome result (λ decision. decision.task.nr_dirtied ≤ (writer_of (side_of self.now.side).cpu (number_of self.now.machine.trace.now check.entry.now.task check.entry.now.context)).task.nr_dirtied) }
    {
        let task = self
            .side
            .numbers(self.machine.number(check.task, check.context));
        match self
            .named
            .estimate(self.machine.trace, check.context, check.estimate)
        {
            None => None,
            Some(estimate) => asked_by(self.machine.trace, check, &estimate, task),
        }
    }

    // Whether the check is due, and reads the global domain and its context's cgroup.
    fn may_check(&self, check: &CheckEntry) -> bool
        requires machine { IsMachine self.now.machine }
        requires there { check.now.task < length self.now.machine.trace.now.tasks }
        requires context { check.now.context < length self.now.machine.trace.now.contexts }
        ensures { result ≡ spec.may_check self.now.machine.trace.now (side_of self.now.side) check.entry.now }
    {
        self.side
            .is_due(self.machine.number(check.task, check.context))
            && (check.global.domain == 0
                && reads_group(check, group_of(self.machine.trace, check.context)))
    }

    fn tell(&mut self, line: u64)
        ensures { self.new ≡ record self.old { stand = first_of self.old.stand (Some line) } }
    {
        if self.stand.is_none() {
            self.stand = Some(line);
        }
    }

    fn first_stand(&self, end: u64) -> Option<u64>
        ensures { result ≡ first_of self.now.stand (unless (not self.now.missing) end) }
    {
        if self.stand.is_none() && self.missing {
            Some(end)
        } else {
            self.stand
        }
    }
}

// Whether the check reads the context's cgroup, if it has one, which is 0 else.
fn reads_group(check: &CheckEntry, group: u32) -> bool
    ensures { result ≡ spec.same_numbers (spec.domains_read check.entry.now.cgroup) (asked_group group) }
{
    match &check.cgroup {
        None => group == 0,
        Some(read) => group != 0 && read.domain == group,
    }
}

// The last line of a check, which tells what it decided.
fn decision_line(line: u64, check: &CheckEntry) -> Result<u64, NoMemory>
    ensures { IfOk result (λ at. at ≡ line + decision_at check.entry.now) }
{
    let reads = match check.cgroup {
        None => 2,
        Some(_) => 3,
    };
    line.checked_add(reads).ok_or(NoMemory)
}
