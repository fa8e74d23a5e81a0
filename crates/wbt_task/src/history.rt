//! What happens on a CPU, in order, and what becomes of its counts and of its writers.
//!
//! A writer is a task in one writeback context. Writers have numbers from 0, whichever way the layers above choose them. What
//! a writer has, and whether its check is due, follows from the history of its CPU alone.

ghost use Rattle.std.specs.Prelude.{◌≡◌, ◌^◌, ◌<◌, length, All};
ghost use Rattle.wbt_task.specs.History.{Along, HasRoom, IsOfWriter, checked_writer, cpu_after, cpu_step, new_writer as newcomer, wrote_page, wrote_writer};

use crate::allowance::{CpuLocal, Due, end_task, first_task, page_done};
use wbt_pause::{Decision, Kind, Task};

/// What happens on a CPU to one of its writers.
#[derive(Clone, Copy, Debug, PartialEq, Eq)]
pub enum Event {
    /// The writer dirtied a page that was not dirty.
    Wrote(usize),
    /// A check of the writer decided this.
    Checked(usize, Decision),
    /// The writer's task ended. A new writer has its place.
    Ended(usize),
}

/// What a CPU knows of a writer.
#[derive(Clone, Copy, Debug, PartialEq, Eq)]
pub struct Writer {
    /// Its numbers.
    pub task: Task,
    /// Pages that are left to it.
    pub left: u64,
    /// Whether its last check marked it.
    pub exceeded: bool,
    /// Whether its check is due.
    pub due: Due,
}

/// A new writer: nothing dirtied, and its first allowance left to it, at most `cap` pages.
#[tactic(auto, unfolding(crate::specs::History::new_writer))]
pub fn new_writer(cap: u64) -> Writer
    ensures { result ≡ newcomer cap }
{
    let task = first_task();
    Writer {
        task,
        left: task.nr_dirtied_pause.min(cap),
        exceeded: false,
        due: Due::No,
    }
}

/// Makes the calls of a history on a CPU and its writers: `page_done` for a fresh write, `end_task` where a task ends.
pub fn run(
    history: &[Event],
    ratelimit_pages: u64,
    cap: u64,
    local: &mut CpuLocal,
    writers: &mut [Writer],
)
    requires there { All (IsOfWriter (length writers.old)) history.now }
    requires room { Along HasRoom ratelimit_pages cap (record { local = local.old; writers = writers.old }) history.now }
    ensures { record { local = local.new; writers = writers.new } ≡ cpu_after ratelimit_pages cap (record { local = local.old; writers = writers.old }) history.now }
{
    for event in history {
        step(*event, ratelimit_pages, cap, local, writers);
    }
}

// The call of one event.
#[tactic(auto, unfolding(crate::specs::History::cpu_step))]
fn step(event: Event, ratelimit_pages: u64, cap: u64, local: &mut CpuLocal, writers: &mut [Writer])
    requires there { IsOfWriter (length writers.old) event }
    requires room { HasRoom (record { local = local.old; writers = writers.old }) event }
    ensures { record { local = local.new; writers = writers.new } ≡ cpu_step ratelimit_pages cap (record { local = local.old; writers = writers.old }) event }
{
    match event {
        Event::Wrote(writer) => wrote(local, &mut writers[writer], ratelimit_pages),
        Event::Checked(writer, decision) => writers[writer] = checked(decision),
        Event::Ended(writer) => {
            end_task(local, &writers[writer].task);
            writers[writer] = new_writer(cap);
        }
    }
}

// A fresh write: a page less is left.
fn wrote(local: &mut CpuLocal, writer: &mut Writer, ratelimit_pages: u64)
    requires dirtied_in_range { writer.old.task.nr_dirtied < 2 ^ 52 }
    requires since_in_range { local.old.since_check < 2 ^ 52 }
    ensures counts { local.new ≡ (wrote_page ratelimit_pages local.old writer.old).local }
    ensures value { writer.new ≡ wrote_writer (wrote_page ratelimit_pages local.old writer.old) writer.old }
{
    let left = writer.left.saturating_sub(1);
    writer.left = left;
    writer.due = page_done(
        local,
        &mut writer.task,
        left,
        writer.exceeded,
        ratelimit_pages,
    );
}

// What a check gives a writer.
fn checked(decision: Decision) -> Writer
    ensures { result ≡ checked_writer decision }
{
    Writer {
        task: decision.task,
        left: decision.left,
        exceeded: decision.exceeded,
        due: if decision.kind == Kind::Wait {
            Due::Check
        } else {
            Due::No
        },
    }
}
