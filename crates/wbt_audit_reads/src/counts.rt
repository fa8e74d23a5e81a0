//! Counts: each that a check read is the sum of the journal's folds up to its version, and no older than what its CPU had seen.

ghost use Rattle.std.specs.Prelude.{◌≡◌, ◌∷◌, [], IfOk};
ghost use Rattle.wbt_trace.specs.Lawful.{IsLawful};
ghost use Rattle.wbt_journal.specs.Counts.{folds_in, load_of_read, versions_of, loads_of, read_loads, cgroup_reads};
ghost use Rattle.wbt_journal.specs.Items.{all_told};
ghost use Rattle.wbt_journal.specs.Verdict as verdict;
ghost use Rattle.wbt_audit_reads.specs.Counting as spec;
ghost use Rattle.wbt_audit_walk.specs.Walks.{item_of};

use crate::sums::{is_sum, sums_of};
use std::alloc::Global;
use wbt_audit_walk::act::Act;
use wbt_audit_walk::gather::folds_of;
use wbt_audit_walk::newest::Newest;
use wbt_audit_walk::places::Places;
use wbt_audit_walk::table::Table;
use wbt_audit_walk::walk::{Step, Walk};
use wbt_counter::{Count, Counter, Fold};
use wbt_journal::{CheckEntry, DomainLine, Journal};
use wbt_num::NoMemory;
use wbt_trace::Trace;

/// The first line of a check at fault that reads a domain or counts a context.
pub fn counts_fault(
    alloc: Global,
    trace: &Trace,
    journal: &Journal,
) -> Result<Option<u64>, NoMemory>
    requires { IsLawful trace.now }
    ensures { IfOk result (λ found. found ≡ verdict.counts_fault trace.now journal.now) }
{
    let mut counts = Counts::make(alloc, trace, journal)?;
    let mut walk = Walk::start(journal)?;
    'steps: while let Some(step) = walk.next()? {
        if let Some(at) = counts.judge(&step) {
            let line = step.line_at(at)?;
            return Ok(Some(line));
        }
    }
    Ok(None)
}

// The sums of folds by counter and version, and the newest version that the CPU has seen of each counter.
#[derive(Drop)]
struct Counts {
    places: Places,
    sums: Table<i128>,
    newest: Newest,
}

impl Counts {
    fn make(alloc: Global, trace: &Trace, journal: &Journal) -> Result<Counts, NoMemory>
        requires { IsLawful trace.now }
        ensures { IfOk result (λ kept. spec.KeepsCounts trace.now (folds_in (all_told journal.now)) kept []) }
    {
        let places = Places::of(trace);
        let folds = folds_of(alloc, journal)?;
        let sums = sums_of(alloc, places, folds.as_slice())?;
        let newest = Newest::make(alloc, places.counters())?;
        Ok(Counts {
            places,
            sums,
            newest,
        })
    }

    // The line of a step's first count at fault, from the step's first; what is seen with it where none is.
    fn judge(&mut self, step: &Step) -> Option<u64>
        ensures { spec.JudgesCounts self.old self.new (item_of step.now) result }
    {
        match step.act {
            None => {
                self.newest.forget();
                None
            }
            Some(act) => self.judge_act(&act),
        }
    }

    fn judge_act(&mut self, act: &Act) -> Option<u64>
        ensures { spec.JudgesCount self.old self.new act.now result }
    {
        match act.check() {
            None => {
                self.see_fold(act.fold());
                None
            }
            Some(check) => self.judge_check(check),
        }
    }

    fn see_fold(&mut self, fold: Option<Fold>)
        ensures { spec.Sees self.old self.new (spec.versions_by fold) }
    {
        match fold {
            None => {}
            Some(fold) => self.see(fold.counter, fold.version),
        }
    }

    fn judge_check(&mut self, check: &CheckEntry) -> Option<u64>
        ensures { spec.JudgesCheck self.old self.new check.entry.now result }
    {
        match self.fault_of(check) {
            None => {
                self.see_check(check);
                None
            }
            Some(line) => Some(line),
        }
    }

    // The line of the first count at fault, from the check's first.
    fn fault_of(&self, check: &CheckEntry) -> Option<u64>
        ensures { result ≡ spec.check_fault self.now check.entry.now }
    {
        if !self.is_read(&check.global) {
            return Some(0);
        }
        match &check.cgroup {
            None => self.fault_of_context(check, 1),
            Some(read) => {
                if self.is_read(read) {
                    self.fault_of_context(check, 2)
                } else {
                    Some(1)
                }
            }
        }
    }

    fn fault_of_context(&self, check: &CheckEntry, line: u64) -> Option<u64>
        ensures { result ≡ spec.context_fault self.now check.entry.now line }
    {
        if self.is_count(Counter::Context(check.context), &check.count) {
            None
        } else {
            Some(line)
        }
    }

    fn is_read(&self, read: &DomainLine) -> bool
        ensures { result ≡ spec.load_test self.now (load_of_read read.now) }
    {
        self.is_count(Counter::Domain(read.domain), &read.count)
    }

    // Whether a count is a sum of folds, and no older than what was seen.
    fn is_count(&self, counter: Counter, count: &Count) -> bool
        ensures { result ≡ spec.test self.now counter count.now }
    {
        match self.places.counter(counter) {
            None => false,
            Some(place) => {
                is_sum(&self.sums, place, count) && self.newest.allows(place, count.version)
            }
        }
    }

    // Sees what a check counted, of which its last line tells first.
    fn see_check(&mut self, check: &CheckEntry)
        ensures { spec.Sees self.old self.new (versions_of (loads_of check.entry.now)) }
    {
        self.see(Counter::Context(check.context), check.count.version);
        self.see_cgroup(&check.cgroup);
        self.see_read(&check.global);
    }

    fn see_cgroup(&mut self, read: &Option<DomainLine>)
        ensures { spec.Sees self.old self.new (versions_of (read_loads (cgroup_reads read.now))) }
    {
        match read {
            None => {}
            Some(read) => self.see_read(read),
        }
    }

    fn see_read(&mut self, read: &DomainLine)
        ensures { spec.Sees self.old self.new (versions_of (load_of_read read.now ∷ [])) }
    {
        self.see(Counter::Domain(read.domain), read.count.version);
    }

    fn see(&mut self, counter: Counter, version: u64)
        ensures { spec.Sees self.old self.new (spec.one_version counter version) }
    {
        match self.places.counter(counter) {
            None => {}
            Some(place) => self.newest.see(place, version),
        }
    }
}
