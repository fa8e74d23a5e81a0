//! Tasks whose end no line tells: such a task rests last, and its CPU has another task.

ghost use Rattle.std.specs.Prelude.{ℕ, ◌≡◌, ◌+◌, ◌<◌, ◌&&◌, ◌==◌, false, length, nat_le, replicate, slice_index, slice_index_or, IfOk, OnOk};
ghost use Rattle.wbt_journal.specs.Machine.{rests_last};
ghost use Rattle.wbt_trace.specs.Lawful.{IsLawful};
ghost use Rattle.wbt_audit.specs.Audited.{unsettled_task, tasks_on};
ghost use Rattle.wbt_audit_turns.specs.Worked.{one_if_so};

use std::alloc::Global;
use wbt_audit_walk::lists::zeros;
use wbt_num::NoMemory;
use wbt_trace::{Action, Trace};

/// The least task whose last action is a rest and whose CPU has another task; None where there is none.
pub fn unsettled(alloc: Global, trace: &Trace) -> Result<Option<u32>, NoMemory>
    requires { IsLawful trace.now }
    ensures { IfOk result (λ found. found ≡ unsettled_task trace.now) }
{
    let rests = last_rests(alloc, trace)?;
    let counts = tasks_by_cpu(alloc, trace)?;
    Ok(first_unsettled(trace, rests.as_slice(), counts.as_slice()))
}

fn first_unsettled(trace: &Trace, rests: &[bool], counts: &[u64]) -> Option<u32>
    requires lawful { IsLawful trace.now }
    requires each { length rests.now ≡ length trace.now.tasks }
    requires rests { (task : ℕ) → task < length trace.now.tasks → slice_index_or rests.now task false ≡ rests_last trace.now task }
    requires cpus { length counts.now ≡ trace.now.cpus }
    requires tasks { (cpu : ℕ) → cpu < length counts.now → slice_index counts.now cpu ≡ tasks_on trace.now cpu }
    ensures { result ≡ unsettled_task trace.now }
{
    for (task, line) in trace.tasks.as_slice().iter().enumerate() {
        if is_unsettled(rests[task], counts[line.cpu as usize]) {
            return Some(task as u32);
        }
    }
    None
}

// Whether a task that rests last, or doesn't, is unsettled on a CPU with so many tasks.
fn is_unsettled(rests: bool, tasks: u64) -> bool
    ensures { result ≡ (rests && nat_le 2 tasks) }
{
    rests && tasks >= 2
}

// By task, whether its last action is a rest.
fn last_rests(alloc: Global, trace: &Trace) -> Result<Vec<bool>, NoMemory>
    requires { IsLawful trace.now }
    ensures count { IfOk result (λ rests. length rests.items ≡ length trace.now.tasks) }
    ensures last { IfOk result (λ rests. (task : ℕ) → task < length trace.now.tasks → slice_index_or rests.items task false ≡ rests_last trace.now task) }
{
    let mut rests = vec![in alloc; false; trace.tasks.as_slice().len()]?;
    for action in trace.actions.as_slice() {
        match *action {
            Action::Write { task, .. } => rests[task as usize] = false,
            Action::Rest { task, .. } => rests[task as usize] = true,
        }
    }
    Ok(rests)
}

// By CPU, how many tasks it has.
fn tasks_by_cpu(alloc: Global, trace: &Trace) -> Result<Vec<u64>, NoMemory>
    ensures count { IfOk result (λ counts. length counts.items ≡ trace.now.cpus) }
    ensures tasks { IfOk result (λ counts. (cpu : ℕ) → cpu < length counts.items → slice_index counts.items cpu ≡ tasks_on trace.now cpu) }
{
    let mut counts = zeros(alloc, trace.cpus as usize)?;
    count_tasks(trace, &mut counts)?;
    Ok(counts)
}

fn count_tasks(trace: &Trace, counts: &mut [u64]) -> Result<(), NoMemory>
    requires { counts.old ≡ replicate (length counts.old) 0 }
    ensures { OnOk result ((cpu : ℕ) → cpu < length counts.old → slice_index counts.new cpu ≡ tasks_on trace.now cpu) }
{
    for line in trace.tasks.as_slice() {
        count_task(counts, line.cpu)?;
    }
    Ok(())
}

// A task more of a CPU.
fn count_task(counts: &mut [u64], cpu: u32) -> Result<(), NoMemory>
    ensures { OnOk result ((of : ℕ) → of < length counts.old → slice_index counts.new of ≡ slice_index counts.old of + one_if_so (cpu == of)) }
{
    let place = cpu as usize;
    if place < counts.len() {
        counts[place] = counts[place].checked_add(1).ok_or(NoMemory)?;
    }
    Ok(())
}
