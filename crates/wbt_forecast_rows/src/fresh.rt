//! Tallies at the beginning of an interval.

ghost use Rattle.std.specs.Prelude.{◌≡◌, map, replicate, vec_len, pos, IfOk};
ghost use Rattle.wbt_forecast_rows.specs.Tally as spec;

use crate::tally::{ContextTally, DomainTally, TaskTally};
use std::alloc::{AllocError, Global};

// Nothing was written of a context.
const NO_PAGES: ContextTally = ContextTally {
    dirtied: 0,
    written: 0,
};

// Nothing was told of a task.
const NO_WORK: TaskTally = TaskTally {
    pages: 0,
    checks: 0,
    pauses: 0,
    ticks: 0,
    longest: 0,
};

/// So many domains, of which nothing is dirty.
pub fn domains(alloc: Global, count: usize) -> Result<Vec<DomainTally>, AllocError>
    ensures { IfOk result (λ tallies. tallies.items ≡ replicate count (record { count = pos 0; most = 0 })) }
{
    let mut tallies = Vec::with_capacity(alloc, count)?;
    for _domain in 0..count {
        tallies.push(DomainTally { count: 0, most: 0 })?;
    }
    Ok(tallies)
}

/// So many contexts.
pub fn contexts(alloc: Global, count: usize) -> Result<Vec<ContextTally>, AllocError>
    ensures { IfOk result (λ tallies. tallies.items ≡ replicate count spec.no_pages) }
{
    let mut tallies = Vec::with_capacity(alloc, count)?;
    for _context in 0..count {
        tallies.push(NO_PAGES)?;
    }
    Ok(tallies)
}

/// So many tasks.
pub fn tasks(alloc: Global, count: usize) -> Result<Vec<TaskTally>, AllocError>
    ensures { IfOk result (λ tallies. tallies.items ≡ replicate count spec.no_work) }
{
    let mut tallies = Vec::with_capacity(alloc, count)?;
    for _task in 0..count {
        tallies.push(NO_WORK)?;
    }
    Ok(tallies)
}

/// The next interval begins for these domains, whose counts stay.
pub fn clear_domains(tallies: &mut [DomainTally])
    ensures { tallies.new ≡ map spec.domain_again tallies.old }
{
    for domain in 0..tallies.len() {
        tallies[domain].most = 0;
    }
}

/// It begins for these contexts.
pub fn clear_contexts(tallies: &mut [ContextTally])
    ensures { tallies.new ≡ map (λ tally. spec.no_pages) tallies.old }
{
    for context in 0..tallies.len() {
        tallies[context] = NO_PAGES;
    }
}

/// It begins for these tasks.
pub fn clear_tasks(tallies: &mut [TaskTally])
    ensures { tallies.new ≡ map (λ tally. spec.no_work) tallies.old }
{
    for task in 0..tallies.len() {
        tallies[task] = NO_WORK;
    }
}
