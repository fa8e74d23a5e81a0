//! Point 14: each flusher claims pages, hands them to its disk, and completes them in order or gives them back, in the part of its
//! CPU.

ghost use Rattle.std.specs.Prelude.{◌≡◌, true, length, map, replicate, IfOk};
ghost use Rattle.wbt_journal.specs.Flights.{new_flusher, flushers_after, flushers_after_told};
ghost use Rattle.wbt_journal.specs.Items.{tells};
ghost use Rattle.wbt_journal.specs.Verdict as spec;
ghost use Rattle.wbt_journal.specs.Walk.{unless};
ghost use Rattle.wbt_trace.specs.Lawful.{IsLawful};
ghost use Rattle.wbt_audit_walk.specs.Acts.{told_of};
ghost use Rattle.wbt_audit_turns.specs.Flown.{flusher_named, meets_by};
ghost use Rattle.wbt_audit_walk.specs.Walks.{item_of};

use crate::flusher::Flusher;
use std::alloc::Global;
use wbt_audit_walk::act::Act;
use wbt_audit_walk::things::is_own_flusher;
use wbt_audit_walk::walk::{Step, Walk};
use wbt_journal::Journal;
use wbt_num::NoMemory;
use wbt_rules::{chunk_at, is_within_chunk};
use wbt_trace::Trace;

/// The first line of a flusher that may not come there; None where each flusher works in turn. It takes four bytes for each page of
/// a batch.
pub fn flights_fault(
    alloc: Global,
    trace: &Trace,
    journal: &Journal,
) -> Result<Option<u64>, NoMemory>
    ensures { IfOk result (λ found. found ≡ spec.flights_fault trace.now journal.now) }
{
    let mut flushers = new_flushers(alloc, trace.flushers.as_slice().len())?;
    walk_fault(trace, &mut flushers, journal)
}

// So many flushers that have done nothing.
fn new_flushers(alloc: Global, count: usize) -> Result<Vec<Flusher>, NoMemory>
    ensures { IfOk result (λ flushers. flushers.items ≡ replicate count new_flusher) }
{
    let mut flushers = Vec::with_capacity(alloc, count)?;
    for _flusher in 0..count {
        flushers.push(Flusher::new(alloc))?;
    }
    Ok(flushers)
}

// The first line at fault, where the flushers have done nothing.
fn walk_fault(
    trace: &Trace,
    flushers: &mut [Flusher],
    journal: &Journal,
) -> Result<Option<u64>, NoMemory>
    requires { flushers.old ≡ replicate (length trace.now.flushers) new_flusher }
    ensures { IfOk result (λ found. found ≡ spec.flights_fault trace.now journal.now) }
{
    let mut walk = Walk::start(journal)?;
    'steps: while let Some(step) = walk.next()? {
        let may = judge(trace, flushers, &step)?;
        if !may {
            return Ok(Some(step.line));
        }
    }
    Ok(None)
}

// Whether the step may come.
fn judge(trace: &Trace, flushers: &mut [Flusher], step: &Step) -> Result<bool, NoMemory>
    requires { length flushers.old ≡ length trace.now.flushers }
    ensures may { IfOk result (λ may. spec.turn_fault trace.now flushers.old (item_of step.now) ≡ unless may 0) }
    ensures moved { IfOk result (λ may. may ≡ true → flushers.new ≡ flushers_after trace.now flushers.old (item_of step.now)) }
{
    match step.act {
        None => {
            begin_all(flushers);
            Ok(true)
        }
        Some(act) => judge_act(trace, flushers, step.cpu, &act),
    }
}

// No flusher has done anything.
fn begin_all(flushers: &mut [Flusher])
    ensures { flushers.new ≡ map (λ _flusher. new_flusher) flushers.old }
{
    for flusher in flushers.iter_mut() {
        flusher.begin();
    }
}

fn judge_act(
    trace: &Trace,
    flushers: &mut [Flusher],
    cpu: usize,
    act: &Act,
) -> Result<bool, NoMemory>
    requires { length flushers.old ≡ length trace.now.flushers }
    ensures may { IfOk result (λ may. spec.turn_fault trace.now flushers.old (tells cpu (told_of act.now)) ≡ unless may 0) }
    ensures moved { IfOk result (λ may. may ≡ true → flushers.new ≡ flushers_after_told flushers.old (told_of act.now)) }
{
    match flusher_of(act) {
        None => Ok(true),
        Some(flusher) => {
            if !is_own_flusher(trace, cpu, flusher) || !meets_chunk(chunk_at(trace, flusher), act) {
                return Ok(false);
            }
            flushers[flusher as usize].follow(act)
        }
    }
}

// Whether a batch, or a fault, has no more pages than its device's line says.
fn meets_chunk(chunk: Option<u32>, act: &Act) -> bool
    ensures { result ≡ meets_by chunk (told_of act.now) }
{
    match *act {
        Act::Batch { pages, .. } => is_within_chunk(chunk, u64::from(pages)),
        Act::Fault { pages, .. } => is_within_chunk(chunk, u64::from(pages)),
        _ => true,
    }
}

// The flusher that an act is of.
fn flusher_of(act: &Act) -> Option<u32>
    ensures { result ≡ flusher_named (told_of act.now) }
{
    match *act {
        Act::Claim { flusher, .. } => Some(flusher),
        Act::Batch { flusher, .. } => Some(flusher),
        Act::Done { flusher, .. } => Some(flusher),
        Act::Fault { flusher, .. } => Some(flusher),
        Act::Back { flusher, .. } => Some(flusher),
        Act::Notice { flusher, .. } => Some(flusher),
        Act::Age { flusher, .. } => Some(flusher),
        Act::Take { flusher, .. } => Some(flusher),
        _ => None,
    }
}
