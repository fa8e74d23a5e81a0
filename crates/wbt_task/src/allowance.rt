//! A writer's allowance, and what its CPU counts beside it.

ghost use Rattle.std.specs.Prelude.{◌≡◌, ◌+◌, ◌-◌, ◌^◌, ◌<◌, ◌≤◌, ◌⊎◌, ◌↔◌, min, max};
ghost use Rattle.wbt_task.specs.Allowance.{allowance_of, due_at, ended, first, limit_after, local_after, moved_at, page_after, since_after, task_after};

use wbt_pause::Task;

/// The allowance of a new writer, in pages.
pub const FIRST_ALLOWANCE: u64 = 32;

/// The most pages that a writer marked exceeded dirties before its check.
pub const EXCEEDED_ALLOWANCE: u64 = 8;

/// What a CPU counts of its writers.
#[derive(Clone, Copy, Debug, PartialEq, Eq)]
pub struct CpuLocal {
    /// Fresh writes since it last counted anew.
    pub since_check: u64,
    /// Pages that ended writers dirtied and no writer counts.
    pub leaks: u64,
}

/// Whether a writer's check is due.
#[derive(Clone, Copy, Debug, PartialEq, Eq)]
pub enum Due {
    /// The writer goes on.
    No,
    /// The writer asks for a check.
    Check,
}

/// The numbers of a new writer.
#[tactic(auto, unfolding(crate::specs::Allowance::first))]
pub fn first_task() -> Task
    ensures value { result ≡ first }
    ensures dirtied { result.nr_dirtied ≡ 0 }
    ensures allowance { result.nr_dirtied_pause ≡ 32 }
    ensures no_pause { result.paused_when ≡ 0 }
{
    Task {
        nr_dirtied: 0,
        nr_dirtied_pause: FIRST_ALLOWANCE,
        paused_when: 0,
    }
}

/// Counts a fresh write of a writer, after which `left` pages are left to it, and tells whether its check is due. The
/// kernel's `balance_dirty_pages_ratelimited_flags`.
#[tactic(auto, unfolding(crate::specs::Allowance::page_after))]
pub fn page_done(
    local: &mut CpuLocal,
    task: &mut Task,
    left: u64,
    exceeded: bool,
    ratelimit_pages: u64,
) -> Due
    requires dirtied_in_range { task.old.nr_dirtied < 2 ^ 52 }
    requires since_in_range { local.old.since_check < 2 ^ 52 }
    ensures value { record { local = local.new; task = task.new; due = result } ≡ page_after local.old task.old left exceeded ratelimit_pages }

    // A check is due where the writer's allowance is used up, where its CPU made enough fresh writes, and where no page is
    // left.
    ensures due { (result ≡ Due.Check) ↔ ((allowance_of task.old exceeded ≤ task.new.nr_dirtied) ⊎ ((ratelimit_pages ≤ local.old.since_check + 1) ⊎ (left ≡ 0))) }

    // The page is counted, and pages of leaks become the writer's; none is counted twice or lost.
    ensures pages_kept { task.new.nr_dirtied + local.new.leaks ≡ task.old.nr_dirtied + 1 + local.old.leaks }
    ensures page_counted { task.old.nr_dirtied + 1 ≤ task.new.nr_dirtied }
    ensures up_to_allowance { task.new.nr_dirtied ≤ max (task.old.nr_dirtied + 1) (allowance_of task.old exceeded) }

    // Where no check is due, more may be dirtied.
    ensures cpu_below { result ≡ Due.No → local.new.since_check < ratelimit_pages }
    ensures writer_below { result ≡ Due.No → task.new.nr_dirtied < allowance_of task.old exceeded }
    ensures cpu_counts { result ≡ Due.No → local.new.since_check ≡ local.old.since_check + 1 }
    ensures starts_anew { ratelimit_pages ≤ local.old.since_check + 1 → local.new.since_check ≡ 0 }

    // A check alone changes these.
    ensures allowance_stays { task.new.nr_dirtied_pause ≡ task.old.nr_dirtied_pause }
    ensures pause_stays { task.new.paused_when ≡ task.old.paused_when }
{
    let allowance = allowance(task, exceeded);
    local.since_check += 1;
    task.nr_dirtied += 1;
    let limit = count_anew(local, task.nr_dirtied, allowance, ratelimit_pages);
    take_leaks(local, task, limit);
    due_now(task.nr_dirtied, limit, left)
}

/// A writer's task ended: its pages are its CPU's leaks from now on. One call for each writer of the task.
#[tactic(auto, unfolding(crate::specs::Allowance::ended))]
pub fn end_task(local: &mut CpuLocal, task: &Task)
    requires { local.old.leaks + task.now.nr_dirtied < 2 ^ 52 }
    ensures value { local.new ≡ ended local.old task.now }
    ensures leaks_grow { local.new.leaks ≡ local.old.leaks + task.now.nr_dirtied }
    ensures since_stays { local.new.since_check ≡ local.old.since_check }
{
    local.leaks += task.nr_dirtied;
}

// What a writer may dirty before its check.
fn allowance(task: &Task, exceeded: bool) -> u64
    ensures { result ≡ allowance_of task.now exceeded }
{
    if exceeded {
        task.nr_dirtied_pause.min(EXCEEDED_ALLOWANCE)
    } else {
        task.nr_dirtied_pause
    }
}

// The CPU counts anew where a check is due by the allowance or by its own count; by its own, no more may be dirtied.
fn count_anew(local: &mut CpuLocal, dirtied: u64, allowance: u64, ratelimit_pages: u64) -> u64
    ensures limit { result ≡ limit_after dirtied local.old.since_check allowance ratelimit_pages }
    ensures since { local.new.since_check ≡ since_after dirtied local.old.since_check allowance ratelimit_pages }
    ensures leaks { local.new.leaks ≡ local.old.leaks }
    ensures at_most { result ≤ allowance }
    ensures whole { local.old.since_check < ratelimit_pages → result ≡ allowance }
    ensures none { ratelimit_pages ≤ local.old.since_check → result ≤ dirtied }
    ensures starts_anew { ratelimit_pages ≤ local.old.since_check → local.new.since_check ≡ 0 }
    ensures goes_on { local.old.since_check < ratelimit_pages → dirtied < allowance → local.new.since_check ≡ local.old.since_check }
{
    let used_up = dirtied >= allowance;
    let enough = local.since_check >= ratelimit_pages;
    if used_up || enough {
        local.since_check = 0;
    }
    if enough && !used_up { 0 } else { allowance }
}

// Pages of leaks become the writer's, up to what it may dirty.
fn take_leaks(local: &mut CpuLocal, task: &mut Task, limit: u64)
    ensures dirtied { task.new.nr_dirtied ≡ task.old.nr_dirtied + moved_at local.old.leaks task.old.nr_dirtied limit }
    ensures leaks { local.new.leaks ≡ local.old.leaks - moved_at local.old.leaks task.old.nr_dirtied limit }
    ensures kept { task.new.nr_dirtied + local.new.leaks ≡ task.old.nr_dirtied + local.old.leaks }
    ensures more { task.old.nr_dirtied ≤ task.new.nr_dirtied }
    ensures up_to_limit { task.new.nr_dirtied ≤ max task.old.nr_dirtied limit }
    ensures since { local.new.since_check ≡ local.old.since_check }
    ensures allowance { task.new.nr_dirtied_pause ≡ task.old.nr_dirtied_pause }
    ensures pause { task.new.paused_when ≡ task.old.paused_when }
{
    if local.leaks > 0 && task.nr_dirtied < limit {
        let pages = local.leaks.min(limit - task.nr_dirtied);
        local.leaks -= pages;
        task.nr_dirtied += pages;
    }
}

// A check is due where the writer reached its limit, and where no page is left.
fn due_now(dirtied: u64, limit: u64, left: u64) -> Due
    ensures value { result ≡ due_at dirtied limit left }
    ensures exactly { (result ≡ Due.Check) ↔ ((limit ≤ dirtied) ⊎ (left ≡ 0)) }
    ensures below { result ≡ Due.No → dirtied < limit }
{
    if dirtied >= limit || left == 0 {
        Due::Check
    } else {
        Due::No
    }
}
