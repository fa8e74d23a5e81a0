//! The CPUs of a run before its first step.

ghost use Rattle.std.specs.Prelude.{◌≡◌, ◌≤◌, ◌<◌, ◌^◌, [], length, IfOk, OnOk};
ghost use Rattle.wbt_replay_order.specs.Definition.Opening as spec;
ghost use Rattle.wbt_replay_order.specs.Kept.Opens.{DomainsFit};
ghost use Rattle.wbt_journal.specs.Machine.{domains};

use crate::opening::{filled, first_limits};
use std::alloc::{AllocError, Global};
use wbt_num::{Items, Limits, Queue, Row};
use wbt_replay_moves::cpu::turn_of;
use wbt_replay_moves::{Cpu, Held, ReplayJob, Whose};
use wbt_rules::domains_of;
use wbt_task::CpuLocal;
use wbt_trace::Trace;

/// The CPUs, each with its tasks and jobs.
pub fn first_cpus(alloc: Global, trace: &Trace) -> Result<Vec<Cpu>, AllocError>
    requires tasks { length trace.now.tasks ≤ 256 }
    requires flushers { length trace.now.flushers ≤ 64 }
    requires cgroups { length trace.now.cgroups < 2 ^ 31 }
    requires fits { DomainsFit trace.now }
    ensures { IfOk result (λ cpus. cpus.items ≡ spec.first_cpus trace.now trace.now.cpus) }
{
    let mut cpus = Vec::new(alloc);
    for cpu in 0..trace.cpus {
        cpus.push(first_cpu(alloc, trace, cpu)?)?;
    }
    Ok(cpus)
}

fn first_cpu(alloc: Global, trace: &Trace, cpu: u32) -> Result<Cpu, AllocError>
    requires tasks { length trace.now.tasks ≤ 256 }
    requires flushers { length trace.now.flushers ≤ 64 }
    requires cgroups { length trace.now.cgroups < 2 ^ 31 }
    requires fits { DomainsFit trace.now }
    ensures { IfOk result (λ c. c ≡ spec.first_cpu trace.now cpu) }
{
    let tasks = tasks_on(alloc, trace, cpu)?;
    let jobs = first_jobs(alloc, trace, cpu, tasks.as_slice())?;
    let own_domains = Row::from_vec(filled(alloc, domains_of(trace) as usize, 0)?);
    let own_contexts = Row::from_vec(filled(alloc, trace.contexts.as_slice().len(), 0)?);
    Ok(Cpu {
        jobs,
        next: 0,
        tasks,
        next_task: 0,
        turn: turn_of(Whose::Task { task: 0 }, 0),
        todo: Queue::new(alloc),
        local: CpuLocal {
            since_check: 0,
            leaks: 0,
        },
        own_domains,
        own_contexts,
        held: Row::from_vec(first_held(alloc, trace)?),
        entries: Items::new(alloc),
        checks: Items::new(alloc),
        estimates: Items::new(alloc),
        made: 0,
        stopped: false,
    })
}

// What a CPU holds of each domain before its first load.
fn first_held(alloc: Global, trace: &Trace) -> Result<Vec<Held>, AllocError>
    requires few { length trace.now.cgroups < 2 ^ 31 }
    requires fits { DomainsFit trace.now }
    ensures { IfOk result (λ list. list.items ≡ spec.first_held trace.now (domains trace.now)) }
{
    let mut held = Vec::new(alloc);
    for domain in 0..domains_of(trace) {
        held.push(held_first(first_limits(trace, domain)))?;
    }
    Ok(held)
}

fn held_first(limits: Limits) -> Held
    ensures { result ≡ spec.held_first limits }
{
    Held { version: 0, limits }
}

// The CPU's tasks by number.
fn tasks_on(alloc: Global, trace: &Trace, cpu: u32) -> Result<Items<u32>, AllocError>
    requires { length trace.now.tasks ≤ 256 }
    ensures { IfOk result (λ tasks. tasks ≡ spec.tasks_from cpu 0 trace.now.tasks []) }
{
    let mut tasks = Items::new(alloc);
    for (number, line) in trace.tasks.as_slice().iter().enumerate() {
        if line.cpu == cpu {
            let number = number as u32;
            tasks.push(number)?;
        }
    }
    Ok(tasks)
}

// The CPU's jobs: its writer side where it has tasks, and its flushers by number.
fn first_jobs(
    alloc: Global,
    trace: &Trace,
    cpu: u32,
    tasks: &[u32],
) -> Result<Items<ReplayJob>, AllocError>
    requires { length trace.now.flushers ≤ 64 }
    ensures { IfOk result (λ jobs. jobs ≡ spec.jobs_with trace.now cpu tasks.now) }
{
    let mut jobs = Items::new(alloc);
    if !tasks.is_empty() {
        jobs.push(ReplayJob::Writer)?;
    }
    put_flushers(&mut jobs, trace, cpu)?;
    Ok(jobs)
}

// Puts the CPU's flushers after its other jobs.
fn put_flushers(jobs: &mut Items<ReplayJob>, trace: &Trace, cpu: u32) -> Result<(), AllocError>
    requires { length trace.now.flushers ≤ 64 }
    ensures { OnOk result (jobs.new ≡ spec.flushers_from cpu 0 trace.now.flushers jobs.old) }
{
    for (flusher, line) in trace.flushers.as_slice().iter().enumerate() {
        if line.cpu == cpu {
            let flusher = flusher as u32;
            jobs.push(ReplayJob::Flusher { flusher })?;
        }
    }
    Ok(())
}
