//! The tasks of a CPU, and what the CPU counts for their writers.

ghost use Rattle.std.specs.Prelude.{◌≡◌, ◌≢◌, ◌+◌, ◌^◌, ◌<◌, ◌≤◌, ◌==◌, ◌&&◌, not, true, false, cond, nat_lt, get_or, map, length, set, slice_get, Some, None};
ghost use Rattle.wbt_journal.specs.Machine.{ratelimit_pages};
ghost use Rattle.wbt_journal.specs.Checks.{MayEnd};
ghost use Rattle.wbt_journal.specs.Side as side;
ghost use Rattle.wbt_journal.specs.Side.{all_writers, check_by, number_from, number_of, numbers_from, write_fresh, with_page};
ghost use Rattle.wbt_rules.specs.Pace.{pace_of, pause_of, since_after};
ghost use Rattle.wbt_task.specs.Counts.{LeavesPages, Settles, counted, AllHavePagesLeft};
ghost use Rattle.wbt_task.specs.History.{HasRoom, IsOfWriter, cpu_after, cpu_step, writer_of};
ghost use Rattle.wbt_task.specs.declared.history.Event.TheVariants as history;
ghost use Rattle.wbt_trace.specs.Lawful.{IsLawful};
ghost use Rattle.wbt_trace.specs.declared.trace.Action.TheVariants as action;
ghost use Rattle.wbt_writer.specs.Exact.{IsFirstFrom, MovesAlong, StandsBehind};
ghost use Rattle.wbt_writer.specs.Counted.{AreCounted, AreTasksOf, GoesOn, IsJob, KeepsFixed, OthersStay, Passes, rest_after, OnlyEnds, cpu_of, ends_from, is_due_at, no_name, side_of, task_at};

use crate::task::{Next, TaskPlace};
use wbt_pause::Decision;
use wbt_task::{CpuLocal, Due, Event, Writer, run};
use wbt_trace::{Trace, Writer as Name};

/// The tasks and writers of a trace by number, as one CPU sees them. Those of other CPUs do nothing here.
#[derive(Drop)]
pub struct Tasks {
    pub(crate) tasks: Vec<TaskPlace>,
    pub(crate) names: Vec<Name>,
    pub(crate) writers: Vec<Writer>,
    pub(crate) local: CpuLocal,
    pub(crate) ratelimit_pages: u64,
    pub(crate) cap: u64,
    // Where the search for the next turn begins: after the task of the last one.
    pub(crate) next: usize,
}

/// What a task's turn is.
#[derive(Clone, Copy, Debug, PartialEq, Eq)]
pub enum TaskJob {
    /// A check of a writer.
    Check { writer: u32, context: u32 },
    /// A rest of so many ticks.
    Rest { ticks: u64 },
    /// A rest of so many ticks before its next page.
    Pause { ticks: u64 },
    /// A write of a page, which is counted from the inode's first.
    Write { inode: u32, page: u32 },
}

impl Tasks {
    /// The task wrote its next page, which was dirty before.
    pub fn wrote_already(&mut self, trace: &Trace, task: u32)
        requires lawful { IsLawful trace.now }
        requires there { task < length trace.now.tasks }
        requires tasks { AreTasksOf trace.now self.old }
        requires next { (inode : _) × (from : _) × (pages : _) × (slice_get trace.now.actions (task_at self.old task).at ≡ Some (action.Write task inode from pages)) }
        requires no_pause { pause_of (pace_of trace.now task) (task_at self.old task).since ≡ None }
        requires going { (task_at self.old task).ended ≡ false }
        ensures tasks { AreTasksOf trace.now self.new }
        ensures side { (opened : _) → self.old.ratelimit_pages ≡ ratelimit_pages trace.now opened → side_of self.new ≡ side.settle trace.now opened task (with_page task (side_of self.old)) }
        ensures passes { Passes (task_at self.old task) (task_at self.new task) }
        ensures stands { StandsBehind trace.now task (task_at self.old task) (task_at self.new task) }
        ensures since { (task_at self.new task).since ≡ since_after (pace_of trace.now task) (task_at self.old task).since }
        ensures place { MovesAlong (task_at self.old task) (task_at self.new task) }
        ensures others { OthersStay task self.old self.new }
        ensures fixed { KeepsFixed self.old self.new }
    {
        let mut passed = self.task(task);
        passed.pass_page(task, trace);
        self.put(task, passed);
        self.settle(trace, task);
    }

    /// The task wrote its next page, which was clean: its writer of the context counts it.
    pub fn wrote_fresh(&mut self, trace: &Trace, task: u32, writer: u32, context: u32)
        requires lawful { IsLawful trace.now }
        requires there { task < length trace.now.tasks }
        requires tasks { AreTasksOf trace.now self.old }
        requires next { (inode : _) × (from : _) × (pages : _) × (slice_get trace.now.actions (task_at self.old task).at ≡ Some (action.Write task inode from pages)) }
        requires no_pause { pause_of (pace_of trace.now task) (task_at self.old task).since ≡ None }
        requires going { (task_at self.old task).ended ≡ false }
        requires quiet { is_due_at (cpu_of self.old) (task_at self.old task).writer ≡ false }
        requires writer { (writer ≡ number_of trace.now task context) × (writer < length self.old.writers.items) }
        requires named { get_or (all_writers trace.now) writer no_name ≡ record { task = task; context = context } }
        ensures tasks { AreTasksOf trace.now self.new }
        ensures side { (opened : _) → self.old.ratelimit_pages ≡ ratelimit_pages trace.now opened → side_of self.new ≡ side.settle trace.now opened task (with_page task (write_fresh trace.now opened task context (side_of self.old))) }
        ensures passes { Passes (task_at self.old task) (task_at self.new task) }
        ensures stands { StandsBehind trace.now task (task_at self.old task) (task_at self.new task) }
        ensures since { (task_at self.new task).since ≡ since_after (pace_of trace.now task) (task_at self.old task).since }
        ensures place { MovesAlong (record (task_at self.old task) { writer = writer; context = context }) (task_at self.new task) }
        ensures others { OthersStay task self.old self.new }
        ensures fixed { KeepsFixed self.old self.new }
    {
        let mut passed = self.task(task);
        passed.pass_page(task, trace);
        self.count(Event::Wrote(writer as usize));
        self.put(task, counted_by(passed, writer, context));
        self.settle(trace, task);
    }

    /// A check of the task's writer decided this at a moment: a pause makes the task rest.
    pub fn checked(&mut self, trace: &Trace, task: u32, decision: Decision, now: u64)
        requires lawful { IsLawful trace.now }
        requires there { task < length trace.now.tasks }
        requires tasks { AreTasksOf trace.now self.old }
        requires due { is_due_at (cpu_of self.old) (task_at self.old task).writer ≡ true }
        requires going { (task_at self.old task).ended ≡ false }
        requires moment { (now < 2 ^ 62) × (decision.pause ≤ 200) }
        requires settles { Settles (cpu_of self.old) (history.Checked (task_at self.old task).writer decision) }
        requires leaves { LeavesPages trace.now.cap (cpu_of self.old) (history.Checked (task_at self.old task).writer decision) }
        requires small { decision.task.nr_dirtied_pause ≤ 2 ^ 47 }
        ensures tasks { AreTasksOf trace.now self.new }
        ensures side { (opened : _) → self.old.ratelimit_pages ≡ ratelimit_pages trace.now opened → side_of self.new ≡ side.settle trace.now opened task (check_by trace.now opened task (task_at self.old task).context decision (side_of self.old)) }
        ensures own { task_at self.new task ≡ record (task_at self.old task) { rest = rest_after decision now (task_at self.old task); ended = (task_at self.new task).ended } }
        ensures others { OthersStay task self.old self.new }
        ensures fixed { KeepsFixed self.old self.new }
    {
        let at = self.task(task);
        self.count(Event::Checked(at.writer as usize, decision));
        self.put(task, resting(at, rest_until(&decision, now, at.rest)));
        self.settle(trace, task);
    }

    /// The task, whose next action is a rest, rests until a moment. Where that was its last action it ends.
    pub fn rested(&mut self, trace: &Trace, task: u32, until: u64)
        requires lawful { IsLawful trace.now }
        requires there { task < length trace.now.tasks }
        requires tasks { AreTasksOf trace.now self.old }
        requires next { (ticks : _) × (slice_get trace.now.actions (task_at self.old task).at ≡ Some (action.Rest task ticks)) }
        requires going { (task_at self.old task).ended ≡ false }
        requires quiet { is_due_at (cpu_of self.old) (task_at self.old task).writer ≡ false }
        ensures tasks { AreTasksOf trace.now self.new }
        ensures rests { (task_at self.new task).rest ≡ until }
        ensures own { task_at self.new task ≡ record (task_at self.old task) { at = (task_at self.new task).at; rest = until; ended = (task_at self.new task).ended } }
        ensures next { IsFirstFrom trace.now task ((task_at self.old task).at + 1) (task_at self.new task).at }
        ensures goes_on { (task_at self.new task).at < length trace.now.actions → side_of self.new ≡ side_of self.old }
        ensures ends { (opened : _) → self.old.ratelimit_pages ≡ ratelimit_pages trace.now opened → length trace.now.actions ≤ (task_at self.new task).at → side_of self.new ≡ side.end_task trace.now opened task (side_of self.old) }
        ensures may_end { length trace.now.actions ≤ (task_at self.new task).at → MayEnd trace.now (side_of self.old) task }
        ensures written { ((task_at self.new task).written ≡ (task_at self.old task).written) × ((task_at self.new task).own ≡ (task_at self.old task).own) }
        ensures others { OthersStay task self.old self.new }
        ensures fixed { KeepsFixed self.old self.new }
    {
        let mut at = self.task(task);
        at.pass_rest(task, trace);
        if at.at < trace.actions.as_slice().len() {
            self.put(task, resting(at, until));
            return;
        }
        self.end(task);
        self.put(task, ended_at(at, until));
    }

    /// The task rests until a moment before its next page.
    pub fn paused(&mut self, task: u32, until: u64)
        requires { task < length self.old.tasks.items }
        ensures tasks { (trace : _) → AreTasksOf trace self.old → AreTasksOf trace self.new }
        ensures side { side_of self.new ≡ side_of self.old }
        ensures own { task_at self.new task ≡ record (task_at self.old task) { since = 0; rest = until } }
        ensures others { OthersStay task self.old self.new }
        ensures fixed { KeepsFixed self.old self.new }
    {
        let at = self.task(task);
        self.put(task, paused_at(at, until));
    }

    /// What the task's next turn is.
    pub fn job(&self, trace: &Trace, task: u32) -> TaskJob
        requires lawful { IsLawful trace.now }
        requires there { task < length trace.now.tasks }
        requires tasks { AreTasksOf trace.now self.now }
        requires going { ((task_at self.now task).own ≡ true) × ((task_at self.now task).ended ≡ false) }
        ensures { IsJob trace.now self.now task result }
    {
        let at = self.task(task);
        if self.is_due(at.writer) {
            return TaskJob::Check {
                writer: at.writer,
                context: at.context,
            };
        }
        match at.next(task, trace) {
            Next::Write { inode, page } => TaskJob::Write { inode, page },
            Next::Rest { ticks } => TaskJob::Rest { ticks },
            Next::Pause { ticks } => TaskJob::Pause { ticks },
            Next::Nothing => unreachable!(),
        }
    }

    /// The number of a task's writer of a context; past all where there is none. `trace` serves the contract alone.
    pub fn number(&self, trace: &Trace, task: u32, context: u32) -> u32
        requires there { task < length trace.now.tasks }
        requires tasks { AreTasksOf trace.now self.now }
        requires few { length self.now.names.items < 2 ^ 32 }
        ensures value { result ≡ number_of trace.now task context }
        ensures named { result < length self.now.writers.items → get_or (all_writers trace.now) result no_name ≡ record { task = task; context = context } }
    {
        let at = self.task(task);
        if (at.writer as usize) < self.writers.len() && at.context == context {
            return at.writer;
        }
        number_in(self.names.as_slice(), task, context)
    }

    /// The task's turn begins: the search for the next one goes on after it.
    pub fn begin(&mut self, task: u32)
        requires { task < length self.old.tasks.items }
        ensures only { self.new ≡ record self.old { next = task + 1 } }
        ensures tasks { (trace : _) → AreTasksOf trace self.old → AreTasksOf trace self.new }
    {
        self.next = task as usize + 1;
    }

    /// How many writers the trace has.
    pub fn writers(&self) -> usize
        ensures { result ≡ length self.now.writers.items }
    {
        self.writers.as_slice().len()
    }

    /// The numbers of a writer.
    pub fn numbers(&self, writer: u32) -> wbt_pause::Task
        requires { writer < length self.now.writers.items }
        ensures { result ≡ (writer_of (cpu_of self.now) writer).task }
    {
        self.writers[writer as usize].task
    }

    // A task that has no page left to write and no check due ends, but for one that rests last. `trace` serves the contract alone.
    fn settle(&mut self, trace: &Trace, task: u32)
        requires there { task < length trace.now.tasks }
        requires some { 1 ≤ trace.now.cap }
        requires counted { AreCounted trace.now self.old }
        requires others { (t : _) → t < length trace.now.tasks → t ≢ task → GoesOn trace.now (cpu_of self.old) (task_at self.old t) }
        ensures tasks { AreTasksOf trace.now self.new }
        ensures side { (opened : _) → self.old.ratelimit_pages ≡ ratelimit_pages trace.now opened → side_of self.new ≡ side.settle trace.now opened task (side_of self.old) }
        ensures fixed { KeepsFixed self.old self.new }
        ensures own { task_at self.new task ≡ record (task_at self.old task) { ended = (task_at self.new task).ended } }
        ensures others { OthersStay task self.old self.new }
    {
        if self.is_over(task) {
            self.end(task);
        }
    }

    /// A task as it stands.
    pub fn task(&self, task: u32) -> TaskPlace
        requires { task < length self.now.tasks.items }
        ensures { result ≡ task_at self.now task }
    {
        self.tasks[task as usize]
    }

    fn put(&mut self, task: u32, at: TaskPlace)
        requires { task < length self.old.tasks.items }
        ensures tasks { self.new.tasks.items ≡ set self.old.tasks.items task at }
        ensures cpu { cpu_of self.new ≡ cpu_of self.old }
        ensures fixed { KeepsFixed self.old self.new }
    {
        self.tasks[task as usize] = at;
    }

    // Whether a task has no page left to write and no check due, and doesn't rest last.
    fn is_over(&self, task: u32) -> bool
        requires { task < length self.now.tasks.items }
        ensures { result ≡ (not (task_at self.now task).rests_last && ((task_at self.now task).todo == 0 && not (is_due_at (cpu_of self.now) (task_at self.now task).writer))) }
    {
        let at = self.tasks[task as usize];
        !at.rests_last && (at.todo == 0 && !self.is_due(at.writer))
    }

    // The task ends: each of its writers does.
    fn end(&mut self, task: u32)
        requires there { task < length self.old.tasks.items }
        requires long { length self.old.writers.items ≡ length self.old.names.items }
        requires few { counted (cpu_of self.old) ≤ 2 ^ 46 }
        requires since { self.old.local.since_check ≤ 2 ^ 46 }
        ensures cpu { cpu_of self.new ≡ cpu_after self.old.ratelimit_pages self.old.cap (cpu_of self.old) (map history.Ended (numbers_from task 0 self.old.names.items)) }
        ensures only { OnlyEnds (cpu_of self.old) (cpu_of self.new) }
        ensures stay { (n : _) → (get_or self.old.names.items n no_name).task ≢ task → writer_of (cpu_of self.new) n ≡ writer_of (cpu_of self.old) n }
        ensures left { 1 ≤ self.old.cap → AllHavePagesLeft self.old.cap (cpu_of self.old) → AllHavePagesLeft self.old.cap (cpu_of self.new) }
        ensures tasks { self.new.tasks.items ≡ set self.old.tasks.items task (record (task_at self.old task) { ended = true }) }
        ensures fixed { KeepsFixed self.old self.new }
    {
        self.end_writers(task);
        self.tasks[task as usize].ended = true;
    }

    fn end_writers(&mut self, task: u32)
        requires long { length self.old.writers.items ≡ length self.old.names.items }
        requires few { counted (cpu_of self.old) ≤ 2 ^ 46 }
        requires since { self.old.local.since_check ≤ 2 ^ 46 }
        ensures cpu { cpu_of self.new ≡ cpu_after self.old.ratelimit_pages self.old.cap (cpu_of self.old) (map history.Ended (numbers_from task 0 self.old.names.items)) }
        ensures only { OnlyEnds (cpu_of self.old) (cpu_of self.new) }
        ensures stay { (n : _) → (get_or self.old.names.items n no_name).task ≢ task → writer_of (cpu_of self.new) n ≡ writer_of (cpu_of self.old) n }
        ensures left { 1 ≤ self.old.cap → AllHavePagesLeft self.old.cap (cpu_of self.old) → AllHavePagesLeft self.old.cap (cpu_of self.new) }
        ensures tasks { self.new.tasks.items ≡ self.old.tasks.items }
        ensures fixed { KeepsFixed self.old self.new }
    {
        for number in 0..self.names.len() {
            self.end_writer(task, number);
        }
    }

    // The writer of a number ends, where it is the task's.
    fn end_writer(&mut self, task: u32, number: usize)
        requires there { number < length self.old.names.items }
        requires long { length self.old.writers.items ≡ length self.old.names.items }
        requires few { counted (cpu_of self.old) ≤ 2 ^ 46 }
        requires since { self.old.local.since_check ≤ 2 ^ 46 }
        ensures next { cpu_after self.old.ratelimit_pages self.old.cap (cpu_of self.old) (ends_from task number self.old.names.items) ≡ cpu_after self.old.ratelimit_pages self.old.cap (cpu_of self.new) (ends_from task (number + 1) self.old.names.items) }
        ensures only { OnlyEnds (cpu_of self.old) (cpu_of self.new) }
        ensures stay { (n : _) → (get_or self.old.names.items n no_name).task ≢ task → writer_of (cpu_of self.new) n ≡ writer_of (cpu_of self.old) n }
        ensures left { 1 ≤ self.old.cap → AllHavePagesLeft self.old.cap (cpu_of self.old) → AllHavePagesLeft self.old.cap (cpu_of self.new) }
        ensures tasks { self.new.tasks.items ≡ self.old.tasks.items }
        ensures fixed { KeepsFixed self.old self.new }
    {
        if self.names[number].task != task {
            return;
        }
        self.count(Event::Ended(number));
    }

    // What one event makes of the CPU's counts.
    fn count(&mut self, event: Event)
        requires there { IsOfWriter (length self.old.writers.items) event }
        requires room { HasRoom (cpu_of self.old) event }
        ensures cpu { cpu_of self.new ≡ cpu_step self.old.ratelimit_pages self.old.cap (cpu_of self.old) event }
        ensures tasks { self.new.tasks.items ≡ self.old.tasks.items }
        ensures fixed { KeepsFixed self.old self.new }
    {
        run(
            &[event],
            self.ratelimit_pages,
            self.cap,
            &mut self.local,
            &mut self.writers,
        );
    }

    // Whether a check of the writer is due.
    fn is_due(&self, writer: u32) -> bool
        ensures { result ≡ is_due_at (cpu_of self.now) writer }
    {
        let writer = writer as usize;
        writer < self.writers.len() && self.writers[writer].due == Due::Check
    }
}

// The task with its last fresh page counted by a writer.
fn counted_by(task: TaskPlace, writer: u32, context: u32) -> TaskPlace
    ensures { result ≡ record task { writer = writer; context = context } }
{
    TaskPlace {
        writer,
        context,
        ..task
    }
}

// The task at its end, with its rest until a moment.
fn ended_at(task: TaskPlace, rest: u64) -> TaskPlace
    ensures { result ≡ record task { rest = rest; ended = true } }
{
    TaskPlace {
        rest,
        ended: true,
        ..task
    }
}

// The task with its rest until a moment, before its next page: its pages are counted anew for its pace.
fn paused_at(task: TaskPlace, rest: u64) -> TaskPlace
    ensures { result ≡ record task { since = 0; rest = rest } }
{
    TaskPlace {
        since: 0,
        rest,
        ..task
    }
}

// The task with its rest until a moment.
fn resting(task: TaskPlace, rest: u64) -> TaskPlace
    ensures { result ≡ record task { rest = rest } }
{
    TaskPlace { rest, ..task }
}

// Where a check's pause ends, or what the rest was.
fn rest_until(decision: &Decision, now: u64, rest: u64) -> u64
    requires { (now < 2 ^ 62) × (decision.now.pause ≤ 200) }
    ensures { result ≡ cond (nat_lt 0 decision.now.pause) (now + decision.now.pause) rest }
{
    if decision.pause > 0 {
        now + decision.pause
    } else {
        rest
    }
}

// The number of a task's writer of a context; past all where there is none.
fn number_in(names: &[Name], task: u32, context: u32) -> u32
    requires { length names.now < 2 ^ 32 }
    ensures value { result ≡ number_from task context 0 names.now }
    ensures named { result < length names.now → get_or names.now result no_name ≡ record { task = task; context = context } }
{
    for number in 0..names.len() {
        if names[number].task == task && names[number].context == context {
            return number as u32;
        }
    }
    names.len() as u32
}
