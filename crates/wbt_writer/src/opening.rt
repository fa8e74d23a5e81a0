//! The tasks of a trace before any turn.

ghost use Rattle.std.specs.Prelude.{◌≡◌, ◌+◌, ◌^◌, ◌<◌, get_or, length, replicate, slice_get, Some, IfOk, ℕ};
ghost use Rattle.wbt_journal.specs.Side.{first_side, is_own_task};
ghost use Rattle.wbt_task.specs.History.{new_writer as newcomer};
ghost use Rattle.wbt_trace.specs.Lawful.{IsLawful};
ghost use Rattle.wbt_writer.specs.Counted.{AreTasksOf, no_task, side_of, task_at, written_of};
ghost use Rattle.wbt_writer.specs.Opening as spec;
ghost use Rattle.wbt_writer.specs.Opening.{HasSeen, seen_more};

use crate::task::{TaskPlace, task_of};
use crate::tasks::Tasks;
use std::alloc::{AllocError, Global};
use wbt_journal::writers_in_order;
use wbt_num::{MOST_WRITERS, NoMemory};
use wbt_task::{CpuLocal, Writer, new_writer};
use wbt_trace::{Action, Trace};

impl Tasks {
    /// The tasks of a trace as a CPU sees them, none of which has begun. A check of a writer is due at the latest once this
    /// many pages were counted on the CPU since its last check.
    pub fn make(
        alloc: Global,
        trace: &Trace,
        cpu: u32,
        ratelimit_pages: u64,
    ) -> Result<Tasks, NoMemory>
        requires lawful { IsLawful trace.now }
        ensures tasks { IfOk result (λ s. AreTasksOf trace.now s) }
        ensures side { IfOk result (λ s. side_of s ≡ first_side trace.now) }
        ensures written { IfOk result (λ s. (task : ℕ) → task < length trace.now.tasks → written_of s task ≡ 0) }
        ensures own { IfOk result (λ s. (task : ℕ) → task < length trace.now.tasks → (task_at s task).own ≡ is_own_task trace.now cpu task) }
        ensures next { IfOk result (λ s. (s.next ≡ 0) × (s.ratelimit_pages ≡ ratelimit_pages)) }
    {
        let cap = u64::from(trace.cap);
        let listed = writers_in_order(alloc, trace)?;
        let names = listed.into_vec();
        let writers = new_writers(alloc, cap, names.as_slice().len())?;
        let tasks = first_tasks(alloc, trace, cpu)?;
        Ok(Tasks {
            tasks,
            names,
            writers,
            local: CpuLocal {
                since_check: 0,
                leaks: 0,
            },
            ratelimit_pages,
            cap,
            next: 0,
        })
    }
}

fn new_writers(alloc: Global, cap: u64, count: usize) -> Result<Vec<Writer>, AllocError>
    ensures { IfOk result (λ writers. writers.items ≡ replicate count (newcomer cap)) }
{
    let mut writers = Vec::new(alloc);
    for _number in 0..count {
        writers.push(new_writer(cap))?;
    }
    Ok(writers)
}

// Each task at its first action, with all its pages still to write.
fn first_tasks(alloc: Global, trace: &Trace, cpu: u32) -> Result<Vec<TaskPlace>, AllocError>
    requires lawful { IsLawful trace.now }
    ensures long { IfOk result (λ tasks. length tasks.items ≡ length trace.now.tasks) }
    ensures each { IfOk result (λ tasks. (t : ℕ) → t < length trace.now.tasks → (x : TaskPlace) × HasSeen trace.now (is_own_task trace.now cpu t) t (length trace.now.actions) x × (get_or tasks.items t no_task ≡ spec.begun x)) }
{
    let mut tasks = new_tasks(alloc, trace, cpu)?;
    see_actions(&mut tasks, trace, cpu);
    begin_each(&mut tasks);
    Ok(tasks)
}

fn new_tasks(alloc: Global, trace: &Trace, cpu: u32) -> Result<Vec<TaskPlace>, AllocError>
    ensures long { IfOk result (λ tasks. length tasks.items ≡ length trace.now.tasks) }
    ensures each { IfOk result (λ tasks. (t : ℕ) → t < length trace.now.tasks → get_or tasks.items t no_task ≡ spec.new_task (is_own_task trace.now cpu t) (length trace.now.actions)) }
{
    let count = trace.tasks.as_slice().len();
    let actions = trace.actions.as_slice().len();
    let mut tasks = Vec::new(alloc);
    for task in 0..count {
        tasks.push(new_task(is_own(trace, cpu, task), actions))?;
    }
    Ok(tasks)
}

// Whether a task runs on the CPU.
fn is_own(trace: &Trace, cpu: u32, task: usize) -> bool
    requires { task < length trace.now.tasks }
    ensures { result ≡ is_own_task trace.now cpu task }
{
    trace.tasks.as_slice()[task].cpu == cpu
}

fn see_actions(tasks: &mut Vec<TaskPlace>, trace: &Trace, cpu: u32)
    requires lawful { IsLawful trace.now }
    requires long { length tasks.old.items ≡ length trace.now.tasks }
    requires new { (t : ℕ) → t < length trace.now.tasks → get_or tasks.old.items t no_task ≡ spec.new_task (is_own_task trace.now cpu t) (length trace.now.actions) }
    ensures long { length tasks.new.items ≡ length trace.now.tasks }
    ensures seen { (t : ℕ) → t < length trace.now.tasks → HasSeen trace.now (is_own_task trace.now cpu t) t (length trace.now.actions) (get_or tasks.new.items t no_task) }
{
    let actions = trace.actions.as_slice();
    for at in 0..actions.len() {
        see_action(tasks, trace, at, actions[at], cpu);
    }
}

// The action's task sees it. `cpu` serves the contract alone.
fn see_action(tasks: &mut Vec<TaskPlace>, trace: &Trace, at: usize, action: Action, cpu: u32)
    requires lawful { IsLawful trace.now }
    requires long { length tasks.old.items ≡ length trace.now.tasks }
    requires there { slice_get trace.now.actions at ≡ Some action }
    requires seen { (t : ℕ) → t < length trace.now.tasks → HasSeen trace.now (is_own_task trace.now cpu t) t at (get_or tasks.old.items t no_task) }
    ensures long { length tasks.new.items ≡ length trace.now.tasks }
    ensures seen { (t : ℕ) → t < length trace.now.tasks → HasSeen trace.now (is_own_task trace.now cpu t) t (at + 1) (get_or tasks.new.items t no_task) }
{
    let task = task_of(&action) as usize;
    tasks[task] = with_action(tasks[task], at, trace.actions.as_slice().len(), &action);
}

fn begin_each(tasks: &mut Vec<TaskPlace>)
    ensures long { length tasks.new.items ≡ length tasks.old.items }
    ensures each { (t : ℕ) → t < length tasks.old.items → get_or tasks.new.items t no_task ≡ spec.begun (get_or tasks.old.items t no_task) }
{
    for task in 0..tasks.len() {
        tasks[task] = begun(tasks[task]);
    }
}

// A task of which no action was seen yet, of so many.
fn new_task(own: bool, actions: usize) -> TaskPlace
    ensures { result ≡ spec.new_task own actions }
{
    TaskPlace {
        own,
        at: actions,
        done: 0,
        written: 0,
        todo: 0,
        rests_last: false,
        since: 0,
        ended: false,
        rest: 0,
        writer: MOST_WRITERS as u32,
        context: 0,
    }
}

// The task with an action of its own more.
fn with_action(task: TaskPlace, at: usize, actions: usize, action: &Action) -> TaskPlace
    requires { task.todo < 2 ^ 60 }
    ensures { result ≡ seen_more task at actions action.now }
{
    let first = first_action_from(task.at, at, actions);
    match action {
        Action::Write { pages, .. } => TaskPlace {
            at: first,
            todo: task.todo + u64::from(*pages),
            rests_last: false,
            ..task
        },
        Action::Rest { .. } => TaskPlace {
            at: first,
            rests_last: true,
            ..task
        },
    }
}

fn first_action_from(now: usize, at: usize, actions: usize) -> usize
    ensures { result ≡ spec.first_action_from now at actions }
{
    if now == actions { at } else { now }
}

// A task without pages has ended, but for one that rests last.
fn begun(task: TaskPlace) -> TaskPlace
    ensures { result ≡ spec.begun task }
{
    TaskPlace {
        ended: !task.rests_last && task.todo == 0,
        ..task
    }
}
