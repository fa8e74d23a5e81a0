//! How rows are made of tallies.

ghost use Rattle.std.specs.Prelude.{ℕ, ◌≡◌, ◌+◌, ◌^◌, ◌<◌, ◌≤◌, [], ◌∷◌, ◌++◌, length, filter, get_or, IfOk, OnOk};
ghost use Rattle.wbt_replay_moves.specs.Definition.State.{no_domain};
ghost use Rattle.wbt_forecast_rows.specs.Rows.{has_row as has_row_by};
ghost use Rattle.wbt_forecast_rows.specs.Tally as spec;

use crate::domains::pages_of;
use crate::rows::{ContextRow, DomainRow, TaskRow};
use crate::tally::{ContextTally, DomainTally, TaskTally};
use std::alloc::{AllocError, Global};
use wbt_num::Items;
use wbt_replay_moves::{Domain, Writeback};

/// The rows of domains.
pub fn domain_rows(
    alloc: Global,
    tallies: &[DomainTally],
    bases: &[u64],
    domains: &[Domain],
) -> Result<Items<DomainRow>, AllocError>
    requires few { length tallies.now ≤ 2 ^ 32 }
    requires bases { length bases.now ≡ length tallies.now }
    requires domains { length domains.now ≡ length tallies.now }
    requires bounds { (domain : ℕ) → domain < length tallies.now → get_or bases.now domain 0 + (get_or domains.now domain no_domain).peak < 2 ^ 64 }
    ensures { IfOk result (λ rows. rows ≡ spec.by_number (spec.domain_told bases.now domains.now) 0 tallies.now) }
{
    let mut rows = Items::new(alloc);
    for (domain, tally) in tallies.iter().enumerate() {
        rows.push(DomainRow {
            domain: domain as u32,
            count: pages_of(tally.count),
            most: tally.most,
            hard: domains[domain].limits.hard,
            bound: bases[domain] + domains[domain].peak,
        })?;
    }
    Ok(rows)
}

/// The rows of contexts.
pub fn context_rows(
    alloc: Global,
    tallies: &[ContextTally],
    contexts: &[Writeback],
) -> Result<Items<ContextRow>, AllocError>
    requires few { length tallies.now ≤ 2 ^ 32 }
    requires contexts { length contexts.now ≡ length tallies.now }
    ensures { IfOk result (λ rows. rows ≡ spec.by_number (spec.context_told contexts.now) 0 tallies.now) }
{
    let mut rows = Items::new(alloc);
    for (context, tally) in tallies.iter().enumerate() {
        let estimate = contexts[context].estimate;
        rows.push(ContextRow {
            context: context as u32,
            dirtied: tally.dirtied,
            written: tally.written,
            bandwidth: estimate.bw,
            average: estimate.avg,
            ratelimit: estimate.ratelimit,
        })?;
    }
    Ok(rows)
}

/// The rows of those tasks that have one.
pub fn task_rows(alloc: Global, tallies: &[TaskTally]) -> Result<Items<TaskRow>, AllocError>
    requires { length tallies.now ≤ 2 ^ 32 }
    ensures { IfOk result (λ rows. rows ≡ filter has_row_by (spec.by_number spec.task_told 0 tallies.now)) }
{
    let mut rows = Items::new(alloc);
    for (task, tally) in tallies.iter().enumerate() {
        push_task(&mut rows, task_row(task as u32, tally))?;
    }
    Ok(rows)
}

// Puts a task's row behind others, where the task has one.
fn push_task(rows: &mut Items<TaskRow>, row: TaskRow) -> Result<(), AllocError>
    ensures { OnOk result (rows.new ≡ rows.old ++ filter has_row_by (row ∷ [])) }
{
    if has_row(&row) {
        return rows.push(row);
    }
    Ok(())
}

fn has_row(row: &TaskRow) -> bool
    ensures { result ≡ has_row_by row.now }
{
    row.pages > 0 || row.checks > 0
}

fn task_row(task: u32, tally: &TaskTally) -> TaskRow
    ensures { result ≡ spec.task_told task tally.now }
{
    TaskRow {
        task,
        pages: tally.pages,
        checks: tally.checks,
        pauses: tally.pauses,
        ticks: tally.ticks,
        longest: tally.longest,
    }
}
