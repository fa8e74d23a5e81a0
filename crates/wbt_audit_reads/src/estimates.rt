//! Estimates: those of a context follow one another, and a check names one of them, no older than its CPU had named.

ghost use Rattle.std.specs.Prelude.{◌≡◌, ◌<◌, ◌^◌, IfOk, length, option_copied, slice_get};
ghost use Rattle.wbt_trace.specs.Lawful.{IsLawful};
ghost use Rattle.wbt_journal.specs.Estimates.{opened_at as opening, no_sight, decision_at as last_line};
ghost use Rattle.wbt_journal.specs.Items.{all_told};
ghost use Rattle.wbt_journal.specs.Machine.{contexts};
ghost use Rattle.wbt_journal.specs.Verdict as verdict;
ghost use Rattle.wbt_rules.specs.First.{first_estimates};
ghost use Rattle.wbt_audit_reads.specs.Estimating as spec;
ghost use Rattle.wbt_audit_walk.specs.Walks.{item_of};

use crate::follows::follows;
use std::alloc::Global;
use wbt_audit_walk::act::Act;
use wbt_audit_walk::newest::{Newest, zeros};
use wbt_audit_walk::walk::{Step, Walk};
use wbt_estimate::Estimate;
use wbt_journal::{CheckEntry, EstEntry, Journal, TimerEntry};
use wbt_num::NoMemory;
use wbt_rules::first_by;
use wbt_trace::Trace;

/// The first line at fault, which tells an estimate or a check.
pub fn estimates_fault(
    alloc: Global,
    trace: &Trace,
    journal: &Journal,
) -> Result<Option<u64>, NoMemory>
    requires { IsLawful trace.now }
    ensures { IfOk result (λ found. found ≡ verdict.estimates_fault trace.now journal.now) }
{
    let mut estimates = Estimates::make(alloc, trace, journal)?;
    let mut walk = Walk::start(journal)?;
    'steps: while let Some(step) = walk.next()? {
        if let Some(at) = estimates.judge(&step) {
            let line = step.line_at(at)?;
            return Ok(Some(line));
        }
    }
    Ok(None)
}

// By context how many estimates it has in the journal, the last one so far, and the newest version that the CPU has named.
#[derive(Drop)]
struct Estimates {
    counts: Vec<u64>,
    last: Vec<Estimate>,
    named: Newest,
}

impl Estimates {
    fn make(alloc: Global, trace: &Trace, journal: &Journal) -> Result<Estimates, NoMemory>
        requires { IsLawful trace.now }
        ensures { IfOk result (λ kept. spec.KeepsEstimates trace.now (opening journal.now.timer) (all_told journal.now) kept no_sight) }
    {
        let contexts = contexts_of(trace);
        let opened = opened_at(journal.timer.as_slice());
        let counts = counts_of(alloc, contexts, journal)?;
        let last = firsts_of(alloc, trace, opened)?;
        let named = Newest::make(alloc, contexts)?;
        Ok(Estimates {
            counts,
            last,
            named,
        })
    }

    // The line of a step's fault, from its first; what is kept after it where there is none.
    fn judge(&mut self, step: &Step) -> Option<u64>
        ensures { spec.JudgesEstimates self.old self.new (item_of step.now) result }
    {
        match step.act {
            None => {
                self.named.forget();
                None
            }
            Some(act) => self.judge_act(&act),
        }
    }

    fn judge_act(&mut self, act: &Act) -> Option<u64>
        ensures { spec.JudgesEstimate self.old self.new act.now result }
    {
        match act.estimate() {
            None => self.judge_other(act),
            Some(est) => self.judge_estimate(est),
        }
    }

    fn judge_other(&mut self, act: &Act) -> Option<u64>
        ensures { spec.JudgesOther self.old self.new act.now result }
    {
        match act.check() {
            None => None,
            Some(check) => self.judge_check(check),
        }
    }

    fn judge_estimate(&mut self, est: &EstEntry) -> Option<u64>
        ensures { spec.JudgesNext self.old self.new est.now result }
    {
        let place = est.context as usize;
        match self.last_of(place) {
            None => Some(0),
            Some(old) => {
                if follows(&old, &est.estimate) {
                    self.last[place] = est.estimate;
                    None
                } else {
                    Some(0)
                }
            }
        }
    }

    fn last_of(&self, context: usize) -> Option<Estimate>
        ensures { result ≡ slice_get self.now.last.items context }
    {
        self.last.as_slice().get(context).copied()
    }

    fn judge_check(&mut self, check: &CheckEntry) -> Option<u64>
        ensures { spec.JudgesName self.old self.new check.entry.now result }
    {
        if self.may_name(check) {
            self.named.see(check.context as usize, check.estimate);
            None
        } else {
            Some(decision_at(check))
        }
    }

    fn may_name(&self, check: &CheckEntry) -> bool
        ensures value { result ≡ spec.may_name self.now check.entry.now }
        ensures small { check.entry.now.estimate < 2 ^ 64 }
    {
        let version = check.estimate;
        match self.count_of(check.context as usize) {
            None => false,
            Some(count) => {
                version <= count && self.named.allows(check.context as usize, version)
            }
        }
    }

    fn count_of(&self, context: usize) -> Option<u64>
        ensures { result ≡ slice_get self.now.counts.items context }
    {
        self.counts.as_slice().get(context).copied()
    }
}

// The line of a check that names an estimate, from its first: its last.
fn decision_at(check: &CheckEntry) -> u64
    ensures { result ≡ last_line check.entry.now }
{
    match check.cgroup {
        None => 2,
        Some(_) => 3,
    }
}

/// The moment of the first limits; 0 where there are none.
pub fn opened_at(timer: &[TimerEntry]) -> u64
    ensures { result ≡ opening timer.now }
{
    for entry in timer {
        if let TimerEntry::Limits { now, .. } = *entry {
            return now;
        }
    }
    0
}

fn contexts_of(trace: &Trace) -> usize
    ensures { result ≡ contexts trace.now }
{
    trace.contexts.as_slice().len()
}

// The estimate that each context begins with.
fn firsts_of(alloc: Global, trace: &Trace, opened: u64) -> Result<Vec<Estimate>, NoMemory>
    ensures { IfOk result (λ last. last.items ≡ first_estimates trace.now opened) }
{
    let mut last = Vec::with_capacity(alloc, contexts_of(trace))?;
    for context in trace.contexts.as_slice() {
        last.push(first_by(context.estimate, opened))?;
    }
    Ok(last)
}

// How many estimates each context has in the whole journal; 2^64 - 1 where it has more.
fn counts_of(alloc: Global, contexts: usize, journal: &Journal) -> Result<Vec<u64>, NoMemory>
    ensures { IfOk result (λ counts. spec.AreCounts contexts (all_told journal.now) counts.items) }
{
    let mut counts = zeros(alloc, contexts)?;
    let mut walk = Walk::start(journal)?;
    'steps: while let Some(step) = walk.next()? {
        count_act(step.act, &mut counts);
    }
    Ok(counts)
}

fn count_act(act: Option<Act>, counts: &mut Vec<u64>)
    ensures { spec.Counts act.entry counts.old.items counts.new.items }
{
    match act {
        None => {}
        Some(act) => count_estimate(act.estimate(), counts),
    }
}

fn count_estimate(est: Option<&EstEntry>, counts: &mut Vec<u64>)
    ensures { counts.new.items ≡ spec.counted_by (option_copied est.entry) counts.old.items }
{
    match est {
        None => {}
        Some(est) => count(est.context as usize, counts),
    }
}

fn count(place: usize, counts: &mut Vec<u64>)
    ensures { counts.new.items ≡ spec.one_counted place counts.old.items }
{
    if place < counts.len() {
        counts[place] = counts[place].saturating_add(1);
    }
}
