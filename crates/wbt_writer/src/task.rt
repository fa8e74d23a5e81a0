//! A task: where it is among its actions.

ghost use Rattle.std.specs.Prelude.{◌≡◌, ◌+◌, ◌<◌, ◌≤◌, length, slice_get, Some, None, true, false};
ghost use Rattle.wbt_rules.specs.Pace as spec;
ghost use Rattle.wbt_trace.specs.Lawful.{IsLawful};
ghost use Rattle.wbt_trace.specs.declared.trace.Action.TheVariants.{Write, Rest};
ghost use Rattle.wbt_writer.specs.Ahead.{by_of, pages_in, ComesNext, IsAlong, Skips};
ghost use Rattle.wbt_writer.specs.Exact.{IsFirstFrom, StandsBehind};

use wbt_rules::{pause_of, since_after};
use wbt_trace::{Action, Pace, Trace};

/// A task of the trace.
#[derive(Clone, Copy)]
pub struct TaskPlace {
    /// Whether it runs on this CPU.
    pub own: bool,
    /// The place of its next action among the trace's, which is past the last where it has none.
    pub at: usize,
    /// How many pages of that action it has written.
    pub done: u32,
    /// How many pages it wrote, and how many it still writes.
    pub written: u64,
    pub todo: u64,
    /// Whether its last action is a rest.
    pub rests_last: bool,
    /// How many pages it has written since it began or rested for its pace; 0 where it has none.
    pub since: u32,
    pub ended: bool,
    /// The moment at which its rest ends.
    pub rest: u64,
    /// The number of the writer of its last fresh page, or past all writers.
    pub writer: u32,
    /// That page's context.
    pub context: u32,
}

/// What a task does next.
#[derive(Clone, Copy)]
pub enum Next {
    /// It writes this page, which is counted from the inode's first.
    Write { inode: u32, page: u32 },
    /// It rests for so many ticks.
    Rest { ticks: u64 },
    /// It rests for so many ticks before its next page.
    Pause { ticks: u64 },
    /// It has done all.
    Nothing,
}

impl TaskPlace {
    /// What it does next. `task` is its number.
    pub fn next(&self, task: u32, trace: &Trace) -> Next
        requires lawful { IsLawful trace.now }
        requires along { IsAlong trace.now task self.now }
        ensures { ComesNext trace.now task self.now result }
    {
        let actions = trace.actions.as_slice();
        if self.at >= actions.len() {
            return Next::Nothing;
        }
        match actions[self.at] {
            Action::Write { inode, from, .. } => {
                match pause_of(pace_of(trace, task), self.since) {
                    None => Next::Write {
                        inode,
                        page: from + self.done,
                    },
                    Some(ticks) => Next::Pause { ticks },
                }
            }
            Action::Rest { ticks, .. } => Next::Rest { ticks },
        }
    }

    /// Its next page was written.
    pub fn pass_page(&mut self, task: u32, trace: &Trace)
        requires lawful { IsLawful trace.now }
        requires along { IsAlong trace.now task self.old }
        requires next { (inode : _) × (from : _) × (pages : _) × (slice_get trace.now.actions self.old.at ≡ Some (Write task inode from pages)) }
        requires no_pause { spec.pause_of (spec.pace_of trace.now task) self.old.since ≡ None }
        ensures along { IsAlong trace.now task self.new }
        ensures written { self.new.written ≡ self.old.written + 1 }
        ensures todo { self.new.todo + 1 ≡ self.old.todo }
        ensures past { length trace.now.actions ≤ self.new.at → self.new.rests_last ≡ false }
        ensures stands { StandsBehind trace.now task self.old self.new }
        ensures since { self.new.since ≡ spec.since_after (spec.pace_of trace.now task) self.old.since }
        ensures others { self.new ≡ record self.old { at = self.new.at; done = self.new.done; written = self.new.written; todo = self.new.todo; since = self.new.since } }
    {
        let actions = trace.actions.as_slice();
        let pages = pages_of(&actions[self.at]);
        self.written += 1;
        self.since = since_after(pace_of(trace, task), self.since);
        self.todo -= 1;
        if self.done + 1 < pages {
            self.done += 1;
            return;
        }
        self.done = 0;
        self.at = action_from(task, self.at + 1, trace);
    }

    /// Its rest, which was next, has begun.
    pub fn pass_rest(&mut self, task: u32, trace: &Trace)
        requires lawful { IsLawful trace.now }
        requires along { IsAlong trace.now task self.old }
        requires next { (ticks : _) × (slice_get trace.now.actions self.old.at ≡ Some (Rest task ticks)) }
        ensures along { IsAlong trace.now task self.new }
        ensures last { length trace.now.actions ≤ self.new.at → self.new.rests_last ≡ true }
        ensures all { length trace.now.actions ≤ self.new.at → self.new.todo ≡ 0 }
        ensures next { IsFirstFrom trace.now task (self.old.at + 1) self.new.at }
        ensures others { self.new ≡ record self.old { at = self.new.at } }
    {
        self.at = action_from(task, self.at + 1, trace);
    }
}

// When the task rests between its pages.
fn pace_of(trace: &Trace, task: u32) -> Option<Pace>
    requires { task < length trace.now.tasks }
    ensures { result ≡ spec.pace_of trace.now task }
{
    trace.tasks.as_slice()[task as usize].pace
}

/// The place of the task's first action from one on, which is past the last where it has none.
pub fn action_from(task: u32, from: usize, trace: &Trace) -> usize
    requires { from ≤ length trace.now.actions }
    ensures within { result ≤ length trace.now.actions }
    ensures own { (action : _) → slice_get trace.now.actions result ≡ Some action → by_of action ≡ task }
    ensures skips { Skips task from result trace.now.actions }
{
    let actions = trace.actions.as_slice();
    for at in from..actions.len() {
        if task_of(&actions[at]) == task {
            return at;
        }
    }
    actions.len()
}

// How many pages an action writes.
fn pages_of(action: &Action) -> u32
    ensures { result ≡ pages_in action.now }
{
    match action {
        Action::Write { pages, .. } => *pages,
        Action::Rest { .. } => 0,
    }
}

/// The task of an action.
pub fn task_of(action: &Action) -> u32
    ensures { result ≡ by_of action.now }
{
    match action {
        Action::Write { task, .. } | Action::Rest { task, .. } => *task,
    }
}
