//! Point 16: the journal ended as it says.

ghost use Rattle.std.specs.Prelude.{ℕ, ◌≡◌, ◌+◌, ◌-◌, ◌<◌, ◌==◌, ◌++◌, List, [], length, count_by, replicate, slice_index, IfOk, OnOk};
ghost use Rattle.std.specs.List.{list_any, list_all};
ghost use Rattle.wbt_journal.specs.Items.{parts_of, all_told};
ghost use Rattle.wbt_journal.specs.Leaves as leaves;
ghost use Rattle.wbt_journal.specs.Machine.{pages_of_task};
ghost use Rattle.wbt_journal.specs.Told.{Told, told};
ghost use Rattle.wbt_journal.specs.Verdict as spec;
ghost use Rattle.wbt_trace.specs.declared.trace.Trace.{Trace as TraceValue};
ghost use Rattle.wbt_audit_walk.specs.Acts.{told_of, told_by};
ghost use Rattle.wbt_audit_turns.specs.Worked.{AreLeft, HaveChances, one_if_so, pages_planned, is_faulted_by, is_step_entry};

use std::alloc::Global;
use wbt_audit_walk::act::Act;
use wbt_audit_walk::lines::end_at;
use wbt_audit_walk::lists::zeros;
use wbt_audit_walk::walk::Walk;
use wbt_journal::{CpuJournal, Ending, Entry, Journal, Left};
use wbt_num::{MOST_PAGE_STEPS, NoMemory};
use wbt_rules::MOST_FAULTS;
use wbt_trace::{Action, Trace};

/// The line `end`, where the ending isn't the journal's; else None.
pub fn ending_fault(
    alloc: Global,
    trace: &Trace,
    journal: &Journal,
) -> Result<Option<u64>, NoMemory>
    ensures { IfOk result (λ found. found ≡ spec.ending_fault trace.now journal.now) }
{
    if ends_by(alloc, trace, journal)? {
        return Ok(None);
    }
    Ok(Some(end_at(journal)?))
}

fn ends_by(alloc: Global, trace: &Trace, journal: &Journal) -> Result<bool, NoMemory>
    ensures { IfOk result (λ ends. ends ≡ leaves.ends_by trace.now (parts_of journal.now) (all_told journal.now) journal.now.left journal.now.ending) }
{
    let mut pages = pages_by_task(alloc, trace)?;
    let mut chances = all_chances(alloc, trace.flushers.as_slice().len())?;
    ends(trace, journal, &mut pages, &mut chances)
}

// Whether it ended so, where nothing is written and no disk has failed.
fn ends(
    trace: &Trace,
    journal: &Journal,
    pages: &mut [u64],
    chances: &mut [u32],
) -> Result<bool, NoMemory>
    requires pages { AreLeft trace.now pages.old (all_told journal.now) (all_told journal.now) }
    requires chances { HaveChances trace.now chances.old (all_told journal.now) (all_told journal.now) }
    ensures { IfOk result (λ ends. ends ≡ leaves.ends_by trace.now (parts_of journal.now) (all_told journal.now) journal.now.left journal.now.ending) }
{
    work(trace, journal, pages, chances)?;
    let failed = has_zero(chances);
    let wrote_all = are_zero(pages);
    if failed {
        return Ok(is_faulted(journal.ending));
    }
    match journal.ending {
        Ending::Done => {
            let nothing = is_nothing(journal.left.as_slice());
            Ok(wrote_all && nothing)
        }
        Ending::Halted => Ok(true),
        Ending::Spent => Ok(is_spent(journal.cpus.as_slice())),
        Ending::Faulted => Ok(false),
    }
}

fn is_faulted(ending: Ending) -> bool
    ensures { result ≡ is_faulted_by ending }
{
    match ending {
        Ending::Faulted => true,
        _ => false,
    }
}

fn is_nothing(left: &[Left]) -> bool
    ensures { result ≡ leaves.is_nothing left.now }
{
    left.is_empty()
}

// Goes through all entries.
fn work(
    trace: &Trace,
    journal: &Journal,
    pages: &mut [u64],
    chances: &mut [u32],
) -> Result<(), NoMemory>
    requires pages { AreLeft trace.now pages.old (all_told journal.now) (all_told journal.now) }
    requires chances { HaveChances trace.now chances.old (all_told journal.now) (all_told journal.now) }
    ensures pages { OnOk result (AreLeft trace.now pages.new [] (all_told journal.now)) }
    ensures chances { OnOk result (HaveChances trace.now chances.new [] (all_told journal.now)) }
{
    let mut walk = Walk::start(journal)?;
    'steps: while let Some(step) = walk.next()? {
        pass(pages, chances, step.act);
    }
    Ok(())
}

// By flusher, how often its disk may fail.
fn all_chances(alloc: Global, flushers: usize) -> Result<Vec<u32>, NoMemory>
    ensures { IfOk result (λ chances. chances.items ≡ replicate flushers MOST_FAULTS) }
{
    let mut chances = Vec::with_capacity(alloc, flushers)?;
    for _flusher in 0..flushers {
        chances.push(MOST_FAULTS)?;
    }
    Ok(chances)
}

// By task, how many pages it writes.
fn pages_by_task(alloc: Global, trace: &Trace) -> Result<Vec<u64>, NoMemory>
    ensures count { IfOk result (λ pages. length pages.items ≡ length trace.now.tasks) }
    ensures pages { IfOk result (λ pages. (task : ℕ) → task < length pages.items → slice_index pages.items task ≡ length (pages_of_task trace.now task)) }
{
    let mut pages = zeros(alloc, trace.tasks.as_slice().len())?;
    plan_all(trace, &mut pages)?;
    Ok(pages)
}

// The actions of all tasks.
fn plan_all(trace: &Trace, pages: &mut [u64]) -> Result<(), NoMemory>
    requires { pages.old ≡ replicate (length pages.old) 0 }
    ensures { OnOk result ((task : ℕ) → task < length pages.old → slice_index pages.new task ≡ length (pages_of_task trace.now task)) }
{
    for action in trace.actions.as_slice() {
        plan(pages, action)?;
    }
    Ok(())
}

// An action has its task write so many pages more.
fn plan(pages: &mut [u64], action: &Action) -> Result<(), NoMemory>
    ensures { OnOk result ((task : ℕ) → task < length pages.old → slice_index pages.new task ≡ slice_index pages.old task + pages_planned task action.now) }
{
    match *action {
        Action::Rest { .. } => Ok(()),
        Action::Write {
            task,
            pages: more,
            ..
        } => {
            let place = task as usize;
            if place < pages.len() {
                pages[place] = pages[place].checked_add(u64::from(more)).ok_or(NoMemory)?;
            }
            Ok(())
        }
    }
}

// What a step leaves.
fn pass(pages: &mut [u64], chances: &mut [u32], act: Option<Act>)
    ensures pages { (trace : TraceValue) (rest all : List Told) → AreLeft trace pages.old (told_by act.entry ++ rest) all → AreLeft trace pages.new rest all }
    ensures chances { (trace : TraceValue) (rest all : List Told) → HaveChances trace chances.old (told_by act.entry ++ rest) all → HaveChances trace chances.new rest all }
{
    match act {
        None => {}
        Some(act) => {
            write(pages, &act);
            fail(chances, &act);
        }
    }
}

// A write leaves its task a page less to write.
fn write(pages: &mut [u64], act: &Act)
    ensures { (task : ℕ) → task < length pages.old → slice_index pages.new task ≡ slice_index pages.old task - one_if_so (leaves.writes_of task (told_of act.now)) }
{
    if let Act::Write { task, .. } = *act {
        let place = task as usize;
        if place < pages.len() {
            pages[place] = pages[place].saturating_sub(1);
        }
    }
}

// A fault leaves its flusher's disk a chance less.
fn fail(chances: &mut [u32], act: &Act)
    ensures { (flusher : ℕ) → flusher < length chances.old → slice_index chances.new flusher ≡ slice_index chances.old flusher - one_if_so (leaves.is_fault_of flusher (told_of act.now)) }
{
    if let Act::Fault { flusher, .. } = *act {
        let place = flusher as usize;
        if place < chances.len() {
            chances[place] = chances[place].saturating_sub(1);
        }
    }
}

fn has_zero(numbers: &[u32]) -> bool
    ensures { result ≡ list_any (λ n. n == 0) numbers.now }
{
    numbers.iter().any(|n| *n == 0)
}

fn are_zero(numbers: &[u64]) -> bool
    ensures { result ≡ list_all (λ n. n == 0) numbers.now }
{
    numbers.iter().all(|n| *n == 0)
}

// Whether some CPU made all its page steps.
fn is_spent(parts: &[CpuJournal]) -> bool
    ensures { result ≡ list_any (λ part. leaves.has_all_steps (told part)) parts.now }
{
    parts.iter().any(|part| has_all_steps(part))
}

fn has_all_steps(part: &CpuJournal) -> bool
    ensures { result ≡ leaves.has_all_steps (told part.now) }
{
    page_steps(part.entries.as_slice()) as u64 >= MOST_PAGE_STEPS
}

fn page_steps(entries: &[Entry]) -> usize
    ensures { result ≡ count_by is_step_entry entries.now }
{
    entries.iter().filter(|entry| is_page_step(entry)).count()
}

// A write, and the completion of a page or that it is given back.
fn is_page_step(entry: &Entry) -> bool
    ensures { result ≡ is_step_entry entry.now }
{
    match *entry {
        Entry::Write { .. } => true,
        Entry::Done { .. } => true,
        Entry::Back { .. } => true,
        _ => false,
    }
}
