//! What a run tells of each context of a strict device at its end.

ghost use Rattle.std.specs.Prelude.{◌≡◌, ℕ, ◌^◌, ◌<◌, ◌≤◌, unsigned_abs, false, [], ◌∷◌, length, map, All, IfOk, OnOk};
ghost use Rattle.wbt_counter.specs.History.{at_least_zero};
ghost use Rattle.wbt_num.specs.declared.limits.TheConstants.{MAX_LIMIT};
ghost use Rattle.wbt_num.specs.declared.most.TheConstants.{MOST_STEPS};
ghost use Rattle.wbt_trace.specs.Lawful.{IsLawful, IsAction, writers_after};
ghost use Rattle.wbt_rules.specs.Strict.{is_strict as is_held};
ghost use Rattle.wbt_strict.specs.Decision.{greatest_part};
ghost use Rattle.wbt_journal.specs.Checks.{reads_by};
ghost use Rattle.wbt_replay_order.specs.Definition.Strict as spec;
ghost use Rattle.wbt_replay_order.specs.Kept.Facts.{Facts};
ghost use Rattle.wbt_replay_order.specs.Kept.Strict.{AreMost, AreParts, CheckFits, ChecksFit, WithChecks, tallied};

use crate::opening::filled;
use std::alloc::{AllocError, Global};
use wbt_journal::{CheckEntry, StepEntry, StrictLine};
use wbt_num::{Items, Row};
use wbt_replay_moves::Cpu;
use wbt_replay_order::Tally;
use wbt_rules::{context_of, is_strict};
use wbt_strict::strict_bound;
use wbt_trace::{Action, Trace, Writers};

const NO_TALLY: Tally = Tally { pages: 0, most: 0 };

// The tally of the step's context after it.
fn tally_after(tally: Tally, step: &StepEntry) -> Tally
    requires { unsigned_abs tally.pages ≤ 2 ^ 40 }
    ensures value { result ≡ tallied step.now.change tally }
    ensures few { unsigned_abs step.now.change ≤ 128 }
{
    let pages = tally.pages + i64::from(step.change);
    Tally {
        pages,
        most: tally.most.max(some_or_none(pages)),
    }
}

fn some_or_none(pages: i64) -> u64
    ensures { result ≡ at_least_zero pages }
{
    if pages < 0 { 0 } else { pages as u64 }
}

/// A line for each context of a strict device, in order.
///
/// One pass over the steps and one over the checks serve all contexts. Where no device is strict there is nothing to do.
pub fn strict_lines(
    alloc: Global,
    trace: &Trace,
    steps: &[StepEntry],
    cpus: &[Cpu],
) -> Result<Items<StrictLine>, AllocError>
    requires lawful { IsLawful trace.now }
    requires facts { Facts trace.now }
    requires few { length steps.now ≤ MOST_STEPS }
    requires checks { ChecksFit trace.now cpus.now }
    ensures { IfOk result (λ lines. lines ≡ spec.strict_lines trace.now steps.now cpus.now) }
{
    if has_strict(trace) {
        all_lines(alloc, trace, steps, cpus)
    } else {
        Ok(Items::new(alloc))
    }
}

fn all_lines(
    alloc: Global,
    trace: &Trace,
    steps: &[StepEntry],
    cpus: &[Cpu],
) -> Result<Items<StrictLine>, AllocError>
    requires lawful { IsLawful trace.now }
    requires facts { Facts trace.now }
    requires few { length steps.now ≤ MOST_STEPS }
    requires checks { ChecksFit trace.now cpus.now }
    ensures { IfOk result (λ lines. lines ≡ spec.strict_lines trace.now steps.now cpus.now) }
{
    let contexts = trace.contexts.as_slice().len() as u32;
    let tallies = tallies_of(alloc, contexts, steps)?;
    let parts = parts_of(alloc, trace, cpus)?;
    let writers = writer_contexts(alloc, trace)?;
    let mut lines = Items::new(alloc);
    for context in 0..contexts {
        if is_strict(trace, context) {
            let most = tallies.get(context).most;
            let bound = bound_for(trace, writers.as_slice(), context, parts.get(context));
            lines.push(StrictLine {
                context,
                most,
                bound,
            })?;
        }
    }
    Ok(lines)
}

// Whether a context is one of a strict device.
fn has_strict(trace: &Trace) -> bool
    requires { Facts trace.now }
    ensures { result ≡ false → (k : ℕ) → k < length trace.now.contexts → is_held trace.now k ≡ false }
{
    for context in 0..trace.contexts.as_slice().len() as u32 {
        if is_strict(trace, context) {
            return true;
        }
    }
    false
}

// ---- the most pages of each context

fn tallies_of(alloc: Global, contexts: u32, steps: &[StepEntry]) -> Result<Row<Tally>, AllocError>
    requires { length steps.now ≤ MOST_STEPS }
    ensures { IfOk result (λ tallies. AreMost contexts steps.now tallies) }
{
    let mut tallies = Row::from_vec(filled(alloc, contexts as usize, NO_TALLY)?);
    for step in steps {
        if step.context < contexts {
            let tally = tally_after(tallies.get(step.context), step);
            tallies.put(step.context, tally);
        }
    }
    Ok(tallies)
}

// ---- the greatest part that checks use of each context

fn parts_of(alloc: Global, trace: &Trace, cpus: &[Cpu]) -> Result<Row<u64>, AllocError>
    requires facts { Facts trace.now }
    requires checks { ChecksFit trace.now cpus.now }
    ensures { IfOk result (λ parts. AreParts trace.now cpus.now parts) }
{
    let mut parts = Row::from_vec(filled(alloc, trace.contexts.as_slice().len(), 0)?);
    for cpu in cpus {
        note_checks(&mut parts, trace, cpu.checks.as_slice());
    }
    Ok(parts)
}

fn note_checks(parts: &mut Row<u64>, trace: &Trace, checks: &[CheckEntry])
    requires facts { Facts trace.now }
    requires checks { All (CheckFits trace.now) checks.now }
    requires many { length parts.old ≡ length trace.now.contexts }
    ensures { WithChecks trace.now checks.now parts.old parts.new }
{
    for check in checks {
        let part = part_of(trace, check).max(parts.get(check.context));
        parts.put(check.context, part);
    }
}

// The greatest part of a domain's threshold that the check reads for its context.
fn part_of(trace: &Trace, check: &CheckEntry) -> u64
    requires facts { Facts trace.now }
    requires fits { CheckFits trace.now check.now }
    ensures { result ≡ greatest_part (reads_by trace.now check.entry.now) }
{
    let global = check.global.read_for(trace, check.context).wb_thresh;
    match check.cgroup {
        None => global,
        Some(line) => global.max(line.read_for(trace, check.context).wb_thresh),
    }
}

// ---- the bound of a context

// How many pages the context may have, where these are the contexts of the writers and its checks use this part at most.
fn bound_for(trace: &Trace, writers: &[u32], context: u32, part: u64) -> u64
    requires facts { Facts trace.now }
    requires writers { writers.now ≡ spec.writer_contexts trace.now }
    requires part { part ≤ MAX_LIMIT }
    ensures { result ≡ spec.bound_with trace.now context part }
{
    let writers = writers.iter().filter(|home| **home == context).count() as u64;
    strict_bound(part, trace.cpus, writers, u64::from(trace.cap))
}

// The context of each writer: of each distinct pair of a task and the context of an inode that it writes.
fn writer_contexts(alloc: Global, trace: &Trace) -> Result<Items<u32>, AllocError>
    requires { IsLawful trace.now }
    ensures { IfOk result (λ contexts. contexts ≡ spec.writer_contexts trace.now) }
{
    let mut writers = Writers::new(alloc)?;
    let mut contexts = Items::new(alloc);
    for action in trace.actions.as_slice() {
        put_writer(&mut writers, &mut contexts, trace, action)?;
    }
    Ok(contexts)
}

// Adds the writer of an action and its context, where it is new.
fn put_writer(
    writers: &mut Writers,
    contexts: &mut Items<u32>,
    trace: &Trace,
    action: &Action,
) -> Result<(), AllocError>
    requires lawful { IsLawful trace.now }
    requires action { IsAction (length trace.now.tasks) trace.now.inodes action.now }
    requires contexts { contexts.old ≡ map (λ w. w.context) writers.old }
    ensures writers { OnOk result (writers.new ≡ writers_after writers.old trace.now.inodes (action.now ∷ [])) }
    ensures contexts { OnOk result (contexts.new ≡ map (λ w. w.context) writers.new) }
{
    match action {
        Action::Write { task, inode, .. } => {
            let context = context_of(trace, *inode);
            if writers.contains(*task, context) {
                return Ok(());
            }
            writers.add(*task, context)?;
            contexts.push(context)
        }
        Action::Rest { .. } => Ok(()),
    }
}
