//! What a trace says of its writers, tasks and pages, by number.

ghost use Rattle.std.specs.Prelude.{◌≡◌, ◌<◌, ◌^◌, length, IfOk};
ghost use Rattle.wbt_journal.specs.Estimates as estimates;
ghost use Rattle.wbt_journal.specs.Side.{number_of, numbers_of as numbers_value};
ghost use Rattle.wbt_trace.specs.Lawful.{IsLawful};
ghost use Rattle.wbt_audit_turns.specs.Plans.{by_of, seen_more};
ghost use Rattle.wbt_audit_turns.specs.Sides.{ArePlansOf, IsMachine, plan_of};

use crate::numbers::{Numbers, numbers_of};
use std::alloc::Global;
use wbt_audit_walk::things::PageContexts;
use wbt_journal::TimerEntry;
use wbt_limits::ratelimit_pages;
use wbt_num::{MOST_CONTEXTS, NoMemory};
use wbt_rules::thresholds_at;
use wbt_trace::{Action, Trace};

/// What a task is to do.
#[derive(Clone, Copy, Debug, PartialEq, Eq)]
pub struct TaskPlan {
    /// How many pages it writes.
    pub pages: u64,
    /// Whether its last action is a rest.
    pub rests_last: bool,
}

/// A machine of a trace that was opened at a moment: its writers, tasks and pages by number.
#[derive(Drop)]
pub struct Machine<'a> {
    /// The trace.
    pub trace: &'a Trace,
    /// The moment of the opening, in ticks.
    pub opened: u64,
    /// The numbers of its writers.
    pub numbers: Numbers,
    /// What each task is to do.
    pub tasks: Vec<TaskPlan>,
    /// The context of each page.
    pub contexts: PageContexts,
    /// After so many fresh pages of one CPU a check is due.
    pub ratelimit_pages: u64,
    /// The most pages left to a writer.
    pub cap: u64,
}

impl<'a> Machine<'a> {
    /// The machine of a trace that was opened at a moment, in ticks.
    pub fn make(alloc: Global, trace: &'a Trace, opened: u64) -> Result<Machine<'a>, NoMemory>
        requires lawful { IsLawful trace.now }
        ensures machine { IfOk result (λ machine. IsMachine machine) }
        ensures trace { IfOk result (λ machine. machine.trace.now ≡ trace.now) }
        ensures opened { IfOk result (λ machine. machine.opened ≡ opened) }
    {
        let first = thresholds_at(trace, opened, 0, 0, 0);
        Ok(Machine {
            trace,
            opened,
            numbers: numbers_of(alloc, trace)?,
            tasks: task_plans(alloc, trace)?,
            contexts: PageContexts::of(alloc, trace)?,
            ratelimit_pages: ratelimit_pages(first.thresh, trace.cpus),
            cap: u64::from(trace.cap),
        })
    }

    /// The number of a task's writer of a context; past all where there is none.
    pub fn number(&self, task: u32, context: u32) -> u32
        requires machine { IsMachine self.now }
        requires task { task < length self.now.trace.now.tasks }
        requires context { context < length self.now.trace.now.contexts }
        ensures { result ≡ number_of self.now.trace.now task context }
    {
        self.numbers.table[MOST_CONTEXTS * task as usize + context as usize]
    }

    /// The numbers of a task's writers, in order.
    pub fn numbers_of(&self, task: u32) -> &[u32]
        requires machine { IsMachine self.now }
        requires task { task < length self.now.trace.now.tasks }
        ensures { result.now ≡ numbers_value self.now.trace.now task }
    {
        self.numbers.of_tasks[task as usize].as_slice()
    }

    /// What a task is to do.
    pub fn plan(&self, task: u32) -> TaskPlan
        requires machine { IsMachine self.now }
        requires task { task < length self.now.trace.now.tasks }
        ensures { result ≡ plan_of self.now.trace.now task }
    {
        self.tasks[task as usize]
    }
}

/// The moment of the timer's first limits, in ticks; 0 where there are none.
pub fn opened_at(timer: &[TimerEntry]) -> u64
    ensures { result ≡ estimates.opened_at timer.now }
{
    for entry in timer {
        if let TimerEntry::Limits { now, .. } = *entry {
            return now;
        }
    }
    0
}

fn task_plans(alloc: Global, trace: &Trace) -> Result<Vec<TaskPlan>, NoMemory>
    requires lawful { IsLawful trace.now }
    ensures { IfOk result (λ plans. ArePlansOf trace.now plans.items) }
{
    let new = TaskPlan {
        pages: 0,
        rests_last: false,
    };
    let mut plans = vec![in alloc; new; trace.tasks.as_slice().len()]?;
    for action in trace.actions.as_slice() {
        let task = task_of(action);
        let plan = with_action(plans[task as usize], action)?;
        plans[task as usize] = plan;
    }
    Ok(plans)
}

fn task_of(action: &Action) -> u32
    ensures { result ≡ by_of action.now }
{
    match action {
        Action::Write { task, .. } | Action::Rest { task, .. } => *task,
    }
}

// The plan with an action of the task more. One of 2^64 pages or more, of which a trace has none, is refused as memory is.
fn with_action(plan: TaskPlan, action: &Action) -> Result<TaskPlan, NoMemory>
    ensures { IfOk result (λ more. more ≡ seen_more plan action.now) }
{
    match *action {
        Action::Write { pages, .. } => Ok(TaskPlan {
            pages: plan.pages.checked_add(u64::from(pages)).ok_or(NoMemory)?,
            rests_last: false,
        }),
        Action::Rest { .. } => Ok(TaskPlan {
            rests_last: true,
            ..plan
        }),
    }
}
