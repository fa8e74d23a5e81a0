//! Folds: each moves just a batch, and the versions of a counter's folds are 1 to their number, each once.

ghost use Rattle.std.specs.Prelude.{◌≡◌, ◌-◌, true, [], IfOk, OnOk, unsigned_abs};
ghost use Rattle.wbt_trace.specs.Lawful.{IsLawful};
ghost use Rattle.wbt_journal.specs.Counts.{folds_in};
ghost use Rattle.wbt_journal.specs.Items.{all_told};
ghost use Rattle.wbt_journal.specs.Verdict as verdict;
ghost use Rattle.wbt_audit_reads.specs.Folding as spec;
ghost use Rattle.wbt_audit_walk.specs.Rows.{put_cell};
ghost use Rattle.wbt_audit_walk.specs.Walks.{item_of};

use std::alloc::Global;
use wbt_audit_walk::act::Act;
use wbt_audit_walk::gather::folds_of;
use wbt_audit_walk::lines::census_at;
use wbt_audit_walk::places::Places;
use wbt_audit_walk::table::Table;
use wbt_audit_walk::walk::{Step, Walk};
use wbt_counter::{Counter, Fold, context_batch, domain_batch};
use wbt_journal::Journal;
use wbt_num::NoMemory;
use wbt_trace::Trace;

/// The first line of a fold at fault. A journal that doesn't have as many parts as the trace has CPUs is at fault at its line `census`.
pub fn folds_fault(alloc: Global, trace: &Trace, journal: &Journal) -> Result<Option<u64>, NoMemory>
    requires { IsLawful trace.now }
    ensures { IfOk result (λ found. found ≡ verdict.folds_fault trace.now journal.now) }
{
    if journal.cpus.as_slice().len() == trace.cpus as usize {
        return first_fault(alloc, trace, journal);
    }
    let line = census_at(journal)?;
    Ok(Some(line))
}

fn first_fault(alloc: Global, trace: &Trace, journal: &Journal) -> Result<Option<u64>, NoMemory>
    requires { IsLawful trace.now }
    ensures { IfOk result (λ found. found ≡ spec.first_fold_fault trace.now journal.now) }
{
    let mut seen = Seen::make(alloc, trace, journal)?;
    let mut walk = Walk::start(journal)?;
    'steps: while let Some(step) = walk.next()? {
        if let Some(at) = seen.judge(&step) {
            let line = step.line_at(at)?;
            return Ok(Some(line));
        }
    }
    Ok(None)
}

// Which versions of each counter have been seen.
#[derive(Drop)]
struct Seen {
    places: Places,
    domain_batch: u64,
    context_batch: u64,
    // By counter and version, of which the first is 1: as many as the counter has folds in the journal.
    versions: Table<bool>,
}

impl Seen {
    fn make(alloc: Global, trace: &Trace, journal: &Journal) -> Result<Seen, NoMemory>
        requires { IsLawful trace.now }
        ensures { IfOk result (λ kept. spec.KeepsSeen trace.now (folds_in (all_told journal.now)) kept []) }
    {
        let places = Places::of(trace);
        let folds = folds_of(alloc, journal)?;
        let versions = unseen_of(alloc, places, folds.as_slice())?;
        Ok(Seen {
            places,
            domain_batch: domain_batch(trace.cpus),
            context_batch: context_batch(trace.cpus),
            versions,
        })
    }

    // The line of a step's fault, from its first; what is seen with it where there is none.
    fn judge(&mut self, step: &Step) -> Option<u64>
        ensures { spec.JudgesFolds self.old self.new (item_of step.now) result }
    {
        match step.act {
            None => None,
            Some(act) => self.judge_act(&act),
        }
    }

    fn judge_act(&mut self, act: &Act) -> Option<u64>
        ensures { spec.JudgesFold self.old self.new act.now result }
    {
        match act.fold() {
            None => None,
            Some(fold) => { if self.sees(&fold) { None } else { Some(0) } }
        }
    }

    // Whether a fold is none at fault, which is seen then.
    fn sees(&mut self, fold: &Fold) -> bool
        ensures { spec.SeesFold self.old self.new fold.now result }
    {
        match self.places.counter(fold.counter) {
            None => false,
            Some(place) => {
                if moved(fold) == self.batch(fold.counter) {
                    mark(&mut self.versions, place, fold.version)
                } else {
                    false
                }
            }
        }
    }

    fn batch(&self, counter: Counter) -> u64
        ensures { result ≡ spec.kept_batch self.now counter }
    {
        match counter {
            Counter::Domain(_) => self.domain_batch,
            Counter::Context(_) => self.context_batch,
        }
    }
}

// By how much a fold moved its counter.
fn moved(fold: &Fold) -> u64
    ensures { result ≡ unsigned_abs fold.now.delta }
{
    fold.delta.unsigned_abs()
}

// Whether a version is one that a counter has and that wasn't seen, which is seen then.
fn mark(versions: &mut Table<bool>, place: usize, version: u64) -> bool
    ensures value { result ≡ spec.may_mark versions.old place version }
    ensures marked { result ≡ true → versions.new ≡ put_cell versions.old place (version - 1) true }
{
    if version == 0 {
        return false;
    }
    match versions.get(place, version - 1) {
        Some(false) => {
            versions.put(place, version - 1, true);
            true
        }
        _ => false,
    }
}

// As many versions of each counter as it has folds, none of which is seen.
fn unseen_of(alloc: Global, places: Places, folds: &[Fold]) -> Result<Table<bool>, NoMemory>
    ensures { IfOk result (λ versions. spec.HaveNone places folds.now versions) }
{
    let mut versions = Table::make(alloc, places.counters())?;
    for fold in folds {
        add_version(&mut versions, places, fold)?;
    }
    Ok(versions)
}

// One version more of a fold's counter.
fn add_version(versions: &mut Table<bool>, places: Places, fold: &Fold) -> Result<(), NoMemory>
    ensures { OnOk result (versions.new ≡ spec.one_mark_more places fold.now versions.old) }
{
    match places.counter(fold.counter) {
        None => Ok(()),
        Some(place) => versions.push(place, false),
    }
}
