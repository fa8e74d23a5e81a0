//! Which task takes the next turn.

ghost use Rattle.std.specs.Prelude.{◌≡◌, ◌^◌, ◌<◌, ◌≤◌, ◌&&◌, ◌↔◌, IsTrue, nat_le, length};
ghost use Rattle.wbt_writer.specs.Choice as spec;
ghost use Rattle.wbt_writer.specs.Choice.{IsChosen, IsSought, sooner_of};
ghost use Rattle.wbt_writer.specs.Counted.{task_at};

use crate::task::TaskPlace;
use crate::tasks::Tasks;

/// Which task takes the next turn.
#[derive(Clone, Copy, Debug, PartialEq, Eq)]
pub enum Chosen {
    /// This one.
    Task { task: u32 },
    /// Each task that hasn't ended rests, the least until this moment.
    Resting { until: u64 },
    /// Every task has ended.
    Done,
}

// What was found among some tasks.
#[derive(Clone, Copy)]
pub(crate) enum Sought {
    Task { task: u32 },
    // The least end of a rest, where some task hasn't ended.
    Nobody { least: Option<u64> },
}

impl Tasks {
    /// From the task after the one of the last turn, the first that hasn't ended and whose rest has ended takes the turn.
    pub fn choose(&self, now: u64) -> Chosen
        requires few { length self.now.tasks.items < 2 ^ 32 }
        requires next { self.now.next ≤ length self.now.tasks.items }
        ensures { IsChosen self.now now result }
    {
        match self.seek(self.next, self.tasks.len(), now) {
            Sought::Task { task } => Chosen::Task { task },
            Sought::Nobody { least } => self.from_first(now, least),
        }
    }

    // Whether every task has ended.
    pub(crate) fn have_ended(&self) -> bool
        requires few { length self.now.tasks.items < 2 ^ 32 }
        requires next { self.now.next ≤ length self.now.tasks.items }
        ensures { IsTrue result ↔ spec.AllEnded self.now 0 (length self.now.tasks.items) }
    {
        // No rest lasts beyond that moment.
        match self.choose(u64::MAX) {
            Chosen::Done => true,
            Chosen::Task { .. } => false,
            Chosen::Resting { .. } => false,
        }
    }

    // Nobody was found from the place on, and this is the least end there.
    fn from_first(&self, now: u64, behind: Option<u64>) -> Chosen
        requires few { length self.now.tasks.items < 2 ^ 32 }
        requires next { self.now.next ≤ length self.now.tasks.items }
        requires behind { spec.AllRest self.now now self.now.next (length self.now.tasks.items) × spec.HasLeast self.now self.now.next (length self.now.tasks.items) behind }
        ensures { IsChosen self.now now result }
    {
        match self.seek(0, self.next, now) {
            Sought::Task { task } => Chosen::Task { task },
            Sought::Nobody { least } => match sooner(least, behind) {
                None => Chosen::Done,
                Some(until) => Chosen::Resting { until },
            },
        }
    }

    // The first from one on, before another, that may begin; else the least end of a rest.
    fn seek(&self, from: usize, to: usize, now: u64) -> Sought
        requires few { length self.now.tasks.items < 2 ^ 32 }
        requires range { (from ≤ to) × (to ≤ length self.now.tasks.items) }
        ensures { IsSought self.now now from to result }
    {
        let mut least = None;
        for at in from..to {
            let task = self.task(at as u32);
            if is_ready(task, now) {
                return Sought::Task { task: at as u32 };
            }
            least = sooner(least, end_of(task));
        }
        Sought::Nobody { least }
    }
}

fn is_ready(task: TaskPlace, now: u64) -> bool
    ensures { result ≡ (spec.is_open task && nat_le task.rest now) }
{
    task.own && !task.ended && task.rest <= now
}

// Where a task that hasn't ended rests until.
fn end_of(task: TaskPlace) -> Option<u64>
    ensures { result ≡ spec.end_of task }
{
    if task.own && !task.ended {
        Some(task.rest)
    } else {
        None
    }
}

// The sooner of two ends, where there are any.
fn sooner(one: Option<u64>, other: Option<u64>) -> Option<u64>
    ensures { result ≡ sooner_of one other }
{
    match one {
        None => other,
        Some(a) => match other {
            None => Some(a),
            Some(b) => Some(a.min(b)),
        },
    }
}
