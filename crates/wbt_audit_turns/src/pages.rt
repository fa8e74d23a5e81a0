//! Point 12: each task writes its pages in order, in the part of its CPU, and every page that is named is there.

ghost use Rattle.std.specs.Prelude.{◌≡◌, Bool, None, List, ◌∷◌, [], length, map, replicate, IfOk, OnOk};
ghost use Rattle.wbt_journal.specs.Checks.{has_page as is_there};
ghost use Rattle.wbt_journal.specs.Effects.{effect, of_part};
ghost use Rattle.wbt_journal.specs.Items.{items_of, item_size, tells};
ghost use Rattle.wbt_journal.specs.Leaves.{is_page};
ghost use Rattle.wbt_journal.specs.Machine.{page_context};
ghost use Rattle.wbt_journal.specs.Pages.{page_fault, move_fault, writes_after};
ghost use Rattle.wbt_journal.specs.Told.{wrote};
ghost use Rattle.wbt_journal.specs.Verdict as spec;
ghost use Rattle.wbt_journal.specs.Verdict.{first_cpu_line};
ghost use Rattle.wbt_journal.specs.Walk.{first_fault, first_failed, unless};
ghost use Rattle.wbt_trace.specs.Lawful.{IsLawful, IsAction};
ghost use Rattle.wbt_trace.specs.declared.trace.Action.{Action as ActionValue};
ghost use Rattle.wbt_audit_walk.specs.Acts.{told_of};
ghost use Rattle.wbt_audit_walk.specs.Walking.{Judges};
ghost use Rattle.wbt_audit_walk.specs.Walks.{item_of};
ghost use Rattle.wbt_audit_turns.specs.Written.{ArePlanned, ShowsWritten, all_left, no_pages};

use crate::plan::Plan;
use std::alloc::Global;
use wbt_audit_walk::act::Act;
use wbt_audit_walk::lines::first_left_line;
use wbt_audit_walk::things::{has_page, is_own_task};
use wbt_audit_walk::walk::{Step, Walk};
use wbt_journal::{Journal, Left};
use wbt_num::NoMemory;
use wbt_rules::first_of;
use wbt_trace::{Action, Trace};

/// The first line at which a task writes another page than its next, or at which a task or page is named that isn't there or an entry
/// stands in the part of another CPU than its task's; None where there is no such line. It takes eight bytes for each action.
pub fn pages_fault(alloc: Global, trace: &Trace, journal: &Journal) -> Result<Option<u64>, NoMemory>
    requires { IsLawful trace.now }
    ensures { IfOk result (λ found. found ≡ spec.pages_fault trace.now journal.now) }
{
    let mut plans = plans_of(alloc, trace)?;
    match walk_fault(trace, &mut plans, journal)? {
        Some(line) => Ok(Some(line)),
        None => {
            let line = first_left_line(journal)?;
            left_fault(trace, line, journal.left.as_slice())
        }
    }
}

// The first line at fault of the CPUs' parts.
fn walk_fault(trace: &Trace, plans: &mut [Plan], journal: &Journal) -> Result<Option<u64>, NoMemory>
    requires lawful { IsLawful trace.now }
    requires shows { ShowsWritten trace.now plans.old [] }
    ensures { IfOk result (λ found. found ≡ first_fault (page_fault trace.now) writes_after item_size (first_cpu_line journal.now) [] (items_of journal.now)) }
{
    let mut walk = Walk::start(journal)?;
    'steps: while let Some(step) = walk.next()? {
        if let Some(at) = judge(trace, plans, &step) {
            let line = step.line_at(at)?;
            return Ok(Some(line));
        }
    }
    Ok(None)
}

// The line of the first page that is left and isn't there, where the first one's line is this.
fn left_fault(trace: &Trace, line: u64, left: &[Left]) -> Result<Option<u64>, NoMemory>
    requires { IsLawful trace.now }
    ensures { IfOk result (λ found. found ≡ first_failed (is_page trace.now) line left.now) }
{
    for (place, one) in left.iter().enumerate() {
        if !has_page(trace, one.page) {
            let at = line.checked_add(place as u64).ok_or(NoMemory)?;
            return Ok(Some(at));
        }
    }
    Ok(None)
}

// The plans of all tasks, who have written nothing.
fn plans_of(alloc: Global, trace: &Trace) -> Result<Vec<Plan>, NoMemory>
    requires { IsLawful trace.now }
    ensures { IfOk result (λ plans. ShowsWritten trace.now plans.items []) }
{
    let mut plans = no_plans(alloc, trace.tasks.as_slice().len())?;
    plan_all(trace, &mut plans)?;
    Ok(plans)
}

// The actions of all tasks, who have written nothing.
fn plan_all(trace: &Trace, plans: &mut [Plan]) -> Result<(), NoMemory>
    requires lawful { IsLawful trace.now }
    requires none { plans.old ≡ replicate (length trace.now.tasks) no_pages }
    ensures { OnOk result (ShowsWritten trace.now plans.new []) }
{
    for action in trace.actions.as_slice() {
        plan_action(trace, plans, action)?;
    }
    begin_all(plans);
    Ok(())
}

// So many tasks that write nothing.
fn no_plans(alloc: Global, tasks: usize) -> Result<Vec<Plan>, NoMemory>
    ensures { IfOk result (λ plans. plans.items ≡ replicate tasks no_pages) }
{
    let mut plans = Vec::with_capacity(alloc, tasks)?;
    for _task in 0..tasks {
        plans.push(Plan::new(alloc))?;
    }
    Ok(plans)
}

// One action more of its task.
fn plan_action(trace: &Trace, plans: &mut [Plan], action: &Action) -> Result<(), NoMemory>
    requires lawful { IsLawful trace.now }
    requires tasks { length plans.old ≡ length trace.now.tasks }
    requires action { IsAction (length trace.now.tasks) trace.now.inodes action.now }
    ensures { OnOk result ((actions : List ActionValue) → ArePlanned trace.now plans.old (action.now ∷ actions) → ArePlanned trace.now plans.new actions) }
{
    match *action {
        Action::Rest { .. } => Ok(()),
        Action::Write {
            task,
            inode,
            from,
            pages,
        } => {
            let first = first_of(trace, inode) + from;
            plans[task as usize].push(first, pages)?;
            Ok(())
        }
    }
}

// Every task has all to write again.
fn begin_all(plans: &mut [Plan])
    ensures { plans.new ≡ map all_left plans.old }
{
    for plan in plans.iter_mut() {
        plan.begin();
    }
}

// The line at fault, counted from the step's first.
fn judge(trace: &Trace, plans: &mut [Plan], step: &Step) -> Option<u64>
    requires lawful { IsLawful trace.now }
    requires tasks { length plans.old ≡ length trace.now.tasks }
    ensures { Judges (page_fault trace.now) writes_after (ShowsWritten trace.now plans.old) (ShowsWritten trace.now plans.new) (item_of step.now) result }
{
    match step.act {
        None => {
            begin_all(plans);
            None
        }
        Some(act) => judge_act(trace, plans, step.cpu, &act),
    }
}

fn judge_act(trace: &Trace, plans: &mut [Plan], cpu: usize, act: &Act) -> Option<u64>
    requires lawful { IsLawful trace.now }
    requires tasks { length plans.old ≡ length trace.now.tasks }
    ensures { Judges (page_fault trace.now) writes_after (ShowsWritten trace.now plans.old) (ShowsWritten trace.now plans.new) (tells cpu (told_of act.now)) result }
{
    match *act {
        Act::Write { task, page, .. } => judge_write(trace, plans, cpu, task, page),
        Act::Check(check) => {
            if is_own_task(trace, cpu, check.task) {
                return None;
            }
            Some(act.lines() - 1)
        }
        _ => judge_pages(trace, act),
    }
}

// The page of a flusher's act has to be there.
fn judge_pages(trace: &Trace, act: &Act) -> Option<u64>
    requires { IsLawful trace.now }
    ensures { result ≡ of_part None (move_fault trace.now) (effect (told_of act.now)).flight }
{
    match *act {
        Act::Claim { page, .. } => judge_page(trace, page),
        Act::Done { page, .. } => judge_page(trace, page),
        Act::Back { page, .. } => judge_page(trace, page),
        _ => None,
    }
}

fn judge_write(trace: &Trace, plans: &mut [Plan], cpu: usize, task: u32, page: u32) -> Option<u64>
    requires lawful { IsLawful trace.now }
    requires tasks { length plans.old ≡ length trace.now.tasks }
    ensures { (fresh : Bool) → Judges (page_fault trace.now) writes_after (ShowsWritten trace.now plans.old) (ShowsWritten trace.now plans.new) (tells cpu (wrote task page fresh)) result }
{
    if !is_own_task(trace, cpu, task) {
        return Some(0);
    }
    if plans[task as usize].write(page) {
        None
    } else {
        Some(0)
    }
}

fn judge_page(trace: &Trace, page: u32) -> Option<u64>
    requires { IsLawful trace.now }
    ensures { result ≡ unless (is_there (page_context trace.now page)) 0 }
{
    if has_page(trace, page) { None } else { Some(0) }
}
