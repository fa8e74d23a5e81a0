//! The side of a CPU along its part of a journal: what each of its tasks still writes, and what the CPU counts for their writers.

ghost use Rattle.std.specs.Prelude.{◌≡◌, ◌<◌, ◌≤◌, ◌+◌, ◌^◌, not, ◌&&◌, ◌==◌, Some, true, cond, length, map, replicate, All, IfOk, OnErr};
ghost use Rattle.std.specs.List.{list_all};
ghost use Rattle.wbt_counter.specs.Sums.{one_if};
ghost use Rattle.wbt_journal.specs.Checks as checks;
ghost use Rattle.wbt_journal.specs.Side as spec;
ghost use Rattle.wbt_journal.specs.Side.{check_by, number_of, numbers_of, write_page};
ghost use Rattle.wbt_task.specs.Counts.{Settles, counted};
ghost use Rattle.wbt_task.specs.History.{HasRoom, IsOfWriter, cpu_after, cpu_step, new_writer as newcomer, writer_of};
ghost use Rattle.wbt_task.specs.declared.history.Event.TheVariants as history;
ghost use Rattle.wbt_journal.specs.Machine.{rests_last};
ghost use Rattle.wbt_audit_turns.specs.Sides.{Fits, IsMachine, at_first, cpu_of, side_of};

use crate::machine::{Machine, TaskPlan};
use std::alloc::Global;
use wbt_num::NoMemory;
use wbt_pause::{Decision, Task};
use wbt_task::{CpuLocal, Due, Event, Writer, first_task, new_writer, page_done, run};

/// How many fresh pages are counted in one part; where there are more, for which there is no memory anyway, a journal is refused as memory
/// is.
pub const MOST_FRESH: u64 = 1 << 46;

/// What a task has left.
#[derive(Clone, Copy, Debug, PartialEq, Eq)]
pub struct TaskLeft {
    /// How many pages it still writes.
    pub todo: u64,
    /// Whether it has ended.
    pub has_ended: bool,
}

/// The tasks and writers of a trace by number, as one CPU sees them. Those of other CPUs do nothing here.
#[derive(Drop)]
pub struct Side {
    /// What the CPU counts.
    pub local: CpuLocal,
    /// The writers.
    pub writers: Vec<Writer>,
    /// The tasks.
    pub tasks: Vec<TaskLeft>,
    /// How many fresh pages may still be counted.
    pub room: u64,
}

impl Side {
    /// The side at the beginning of a part.
    pub fn make(alloc: Global, machine: &Machine) -> Result<Side, NoMemory>
        requires machine { IsMachine machine.now }
        ensures side { IfOk result (λ side. side_of side ≡ spec.first_side machine.now.trace.now) }
        ensures fits { IfOk result (λ side. Fits machine.now side) }
    {
        Ok(Side {
            local: CpuLocal {
                since_check: 0,
                leaks: 0,
            },
            writers: new_writers(alloc, machine.cap, machine.numbers.count)?,
            tasks: first_tasks(alloc, machine.tasks.as_slice())?,
            room: MOST_FRESH,
        })
    }

    /// The writer of a number; that of no number is a new one without pages, which is forgotten.
    pub fn writer(&self, number: u32) -> Writer
        ensures { result ≡ writer_of (cpu_of self.now) number }
    {
        let number = number as usize;
        if number < self.writers.len() {
            self.writers[number]
        } else {
            new_writer(0)
        }
    }

    /// What a check of a writer goes by.
    pub fn numbers(&self, number: u32) -> Task
        ensures { result ≡ (writer_of (cpu_of self.now) number).task }
    {
        self.writer(number).task
    }

    /// Whether a check of the writer is due.
    pub fn is_due(&self, number: u32) -> bool
        ensures { result ≡ checks.is_due (writer_of (cpu_of self.now) number).due }
    {
        match self.writer(number).due {
            Due::Check => true,
            Due::No => false,
        }
    }

    /// Whether no check of the task's writers is due.
    pub fn is_quiet(&self, machine: &Machine, task: u32) -> bool
        requires machine { IsMachine machine.now }
        requires there { task < length machine.now.trace.now.tasks }
        ensures { result ≡ spec.is_none_due machine.now.trace.now (side_of self.now) task }
    {
        self.are_quiet(machine.numbers_of(task))
    }

    /// Whether no check is due.
    pub fn is_all_quiet(&self) -> bool
        ensures { result ≡ list_all checks.is_writer_quiet self.now.writers.items }
    {
        for writer in self.writers.as_slice() {
            if is_due(writer) {
                return false;
            }
        }
        true
    }

    /// A task of the CPU wrote a page of a context.
    pub fn wrote(
        &mut self,
        machine: &Machine,
        task: u32,
        context: u32,
        fresh: bool,
    ) -> Result<(), NoMemory>
        requires machine { IsMachine machine.now }
        requires there { task < length machine.now.trace.now.tasks }
        requires context { context < length machine.now.trace.now.contexts }
        requires fits { Fits machine.now self.old }
        ensures side { IfOk result (λ _done. side_of self.new ≡ write_page machine.now.trace.now machine.now.opened task (Some context) fresh (side_of self.old)) }
        ensures fits { IfOk result (λ _done. Fits machine.now self.new) }
        ensures room { IfOk result (λ _done. self.new.room + one_if fresh ≡ self.old.room) }
        ensures no_room { OnErr result ((fresh ≡ true) × (self.old.room ≡ 0)) }
    {
        self.count_write(machine, task, context, fresh)?;
        self.pass_page(machine, task);
        self.settle(machine, task);
        Ok(())
    }

    /// A check of a task of the CPU decided this.
    pub fn checked(&mut self, machine: &Machine, task: u32, context: u32, decision: Decision)
        requires machine { IsMachine machine.now }
        requires there { task < length machine.now.trace.now.tasks }
        requires context { context < length machine.now.trace.now.contexts }
        requires fits { Fits machine.now self.old }
        requires settles { Settles (cpu_of self.old) (history.Checked (number_of machine.now.trace.now task context) decision) }
        ensures side { side_of self.new ≡ spec.settle machine.now.trace.now machine.now.opened task (check_by machine.now.trace.now machine.now.opened task context decision (side_of self.old)) }
        ensures fits { Fits machine.now self.new }
        ensures room { self.new.room ≡ self.old.room }
    {
        self.count_check(machine, machine.number(task, context), decision);
        self.settle(machine, task);
    }

    fn are_quiet(&self, numbers: &[u32]) -> bool
        ensures { result ≡ list_all (spec.is_quiet (side_of self.now)) numbers.now }
    {
        for number in numbers {
            if self.is_due(*number) {
                return false;
            }
        }
        true
    }

    // A page that was dirty already costs nothing.
    fn count_write(
        &mut self,
        machine: &Machine,
        task: u32,
        context: u32,
        fresh: bool,
    ) -> Result<(), NoMemory>
        requires machine { IsMachine machine.now }
        requires there { task < length machine.now.trace.now.tasks }
        requires context { context < length machine.now.trace.now.contexts }
        requires fits { Fits machine.now self.old }
        ensures side { IfOk result (λ _done. side_of self.new ≡ cond fresh (spec.write_fresh machine.now.trace.now machine.now.opened task context (side_of self.old)) (side_of self.old)) }
        ensures fits { IfOk result (λ _done. Fits machine.now self.new) }
        ensures room { IfOk result (λ _done. self.new.room + one_if fresh ≡ self.old.room) }
        ensures no_room { OnErr result ((fresh ≡ true) × (self.old.room ≡ 0)) }
    {
        if !fresh {
            return Ok(());
        }
        self.count_page(machine, machine.number(task, context))
    }

    // One page less to write.
    fn pass_page(&mut self, machine: &Machine, task: u32)
        requires there { task < length machine.now.trace.now.tasks }
        requires fits { Fits machine.now self.old }
        ensures side { side_of self.new ≡ spec.with_page task (side_of self.old) }
        ensures fits { Fits machine.now self.new }
        ensures room { self.new.room ≡ self.old.room }
    {
        let left = self.tasks[task as usize];
        self.tasks[task as usize] = TaskLeft {
            todo: left.todo.saturating_sub(1),
            ..left
        };
    }

    // The writer of a number wrote a fresh page.
    fn count_page(&mut self, machine: &Machine, number: u32) -> Result<(), NoMemory>
        requires fits { Fits machine.now self.old }
        ensures cpu { IfOk result (λ _done. cpu_of self.new ≡ cpu_step machine.now.ratelimit_pages machine.now.cap (cpu_of self.old) (history.Wrote number)) }
        ensures tasks { IfOk result (λ _done. self.new.tasks.items ≡ self.old.tasks.items) }
        ensures fits { IfOk result (λ _done. Fits machine.now self.new) }
        ensures room { IfOk result (λ _done. self.new.room + 1 ≡ self.old.room) }
        ensures no_room { OnErr result (self.old.room ≡ 0) }
    {
        if self.room == 0 {
            return Err(NoMemory);
        }
        self.room -= 1;
        if (number as usize) < self.writers.len() {
            self.count(machine, Event::Wrote(number as usize));
        } else {
            self.count_lone_page(machine);
        }
        Ok(())
    }

    // A writer of no number wrote a fresh page, which the CPU alone counts.
    fn count_lone_page(&mut self, machine: &Machine)
        requires since { self.old.local.since_check < 2 ^ 52 }
        ensures cpu { (number : _) → length self.old.writers.items ≤ number → cpu_of self.new ≡ cpu_step machine.now.ratelimit_pages machine.now.cap (cpu_of self.old) (history.Wrote number) }
        ensures tasks { (self.new.tasks.items ≡ self.old.tasks.items) }
        ensures room { self.new.room ≡ self.old.room }
    {
        let mut task = first_task();
        page_done(
            &mut self.local,
            &mut task,
            0,
            false,
            machine.ratelimit_pages,
        );
    }

    // A check of the writer of a number decided this; a writer of no number is forgotten.
    fn count_check(&mut self, machine: &Machine, number: u32, decision: Decision)
        requires fits { Fits machine.now self.old }
        requires settles { Settles (cpu_of self.old) (history.Checked number decision) }
        ensures cpu { cpu_of self.new ≡ cpu_step machine.now.ratelimit_pages machine.now.cap (cpu_of self.old) (history.Checked number decision) }
        ensures tasks { self.new.tasks.items ≡ self.old.tasks.items }
        ensures fits { Fits machine.now self.new }
        ensures room { self.new.room ≡ self.old.room }
    {
        if (number as usize) < self.writers.len() {
            self.count(machine, Event::Checked(number as usize, decision));
        }
    }

    // A task that has no page left to write and no check due ends, but for one that rests last.
    fn settle(&mut self, machine: &Machine, task: u32)
        requires machine { IsMachine machine.now }
        requires there { task < length machine.now.trace.now.tasks }
        requires fits { Fits machine.now self.old }
        ensures side { side_of self.new ≡ spec.settle machine.now.trace.now machine.now.opened task (side_of self.old) }
        ensures fits { Fits machine.now self.new }
        ensures room { self.new.room ≡ self.old.room }
    {
        if self.is_over(machine, task) {
            self.end(machine, task);
        }
    }

    fn is_over(&self, machine: &Machine, task: u32) -> bool
        requires machine { IsMachine machine.now }
        requires there { task < length machine.now.trace.now.tasks }
        requires fits { Fits machine.now self.now }
        ensures { result ≡ (not (rests_last machine.now.trace.now task) && ((spec.task_of (side_of self.now) task).todo == 0 && spec.is_none_due machine.now.trace.now (side_of self.now) task)) }
    {
        let plan = machine.plan(task);
        let left = self.tasks[task as usize];
        !plan.rests_last && (left.todo == 0 && self.is_quiet(machine, task))
    }

    // The task ends: each of its writers does.
    fn end(&mut self, machine: &Machine, task: u32)
        requires machine { IsMachine machine.now }
        requires there { task < length machine.now.trace.now.tasks }
        requires fits { Fits machine.now self.old }
        ensures side { side_of self.new ≡ spec.end_task machine.now.trace.now machine.now.opened task (side_of self.old) }
        ensures fits { Fits machine.now self.new }
        ensures room { self.new.room ≡ self.old.room }
    {
        self.end_each(machine, machine.numbers_of(task));
        let left = self.tasks[task as usize];
        self.tasks[task as usize] = TaskLeft {
            has_ended: true,
            ..left
        };
    }

    fn end_each(&mut self, machine: &Machine, numbers: &[u32])
        requires fits { Fits machine.now self.old }
        requires there { All (λ number. number < length self.old.writers.items) numbers.now }
        ensures cpu { cpu_of self.new ≡ cpu_after machine.now.ratelimit_pages machine.now.cap (cpu_of self.old) (map history.Ended numbers.now) }
        ensures tasks { self.new.tasks.items ≡ self.old.tasks.items }
        ensures fits { Fits machine.now self.new }
        ensures room { self.new.room ≡ self.old.room }
    {
        for number in numbers {
            self.end_writer(machine, *number);
        }
    }

    fn end_writer(&mut self, machine: &Machine, number: u32)
        requires fits { Fits machine.now self.old }
        requires there { number < length self.old.writers.items }
        ensures cpu { cpu_of self.new ≡ cpu_step machine.now.ratelimit_pages machine.now.cap (cpu_of self.old) (history.Ended number) }
        ensures tasks { self.new.tasks.items ≡ self.old.tasks.items }
        ensures fits { Fits machine.now self.new }
        ensures room { self.new.room ≡ self.old.room }
    {
        self.count(machine, Event::Ended(number as usize));
    }

    // What one event makes of the CPU's counts.
    fn count(&mut self, machine: &Machine, event: Event)
        requires there { IsOfWriter (length self.old.writers.items) event }
        requires room { HasRoom (cpu_of self.old) event }
        ensures cpu { cpu_of self.new ≡ cpu_step machine.now.ratelimit_pages machine.now.cap (cpu_of self.old) event }
        ensures tasks { self.new.tasks.items ≡ self.old.tasks.items }
        ensures room { self.new.room ≡ self.old.room }
    {
        run(
            &[event],
            machine.ratelimit_pages,
            machine.cap,
            &mut self.local,
            &mut self.writers,
        );
    }
}

fn is_due(writer: &Writer) -> bool
    ensures { result ≡ checks.is_due writer.now.due }
{
    match writer.due {
        Due::Check => true,
        Due::No => false,
    }
}

fn new_writers(alloc: Global, cap: u64, count: u32) -> Result<Vec<Writer>, NoMemory>
    ensures { IfOk result (λ writers. writers.items ≡ replicate count (newcomer cap)) }
{
    let mut writers = Vec::new(alloc);
    for _number in 0..count {
        writers.push(new_writer(cap))?;
    }
    Ok(writers)
}

fn first_tasks(alloc: Global, plans: &[TaskPlan]) -> Result<Vec<TaskLeft>, NoMemory>
    ensures { IfOk result (λ tasks. tasks.items ≡ map at_first plans.now) }
{
    let mut tasks = Vec::new(alloc);
    for plan in plans {
        tasks.push(at_first(plan))?;
    }
    Ok(tasks)
}

// A task without pages has ended, but for one that rests last.
fn at_first(plan: &TaskPlan) -> TaskLeft
    ensures { result ≡ at_first plan.now }
{
    TaskLeft {
        todo: plan.pages,
        has_ended: !plan.rests_last && plan.pages == 0,
    }
}
