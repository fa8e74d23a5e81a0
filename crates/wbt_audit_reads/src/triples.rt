//! Triples: the limits that a check read of a domain are those that the timer published as this version, and no older than what its CPU
//! had read.

ghost use Rattle.std.specs.Prelude.{◌≡◌, ◌∷◌, [], None, IfOk, OnOk};
ghost use Rattle.wbt_trace.specs.Lawful.{IsLawful};
ghost use Rattle.wbt_journal.specs.Counts.{reads_of, cgroup_reads};
ghost use Rattle.wbt_journal.specs.Reads.{same_limits};
ghost use Rattle.wbt_journal.specs.Verdict as verdict;
ghost use Rattle.wbt_audit_reads.specs.Reading as spec;
ghost use Rattle.wbt_audit_walk.specs.Walks.{item_of};

use std::alloc::Global;
use wbt_audit_walk::act::Act;
use wbt_audit_walk::newest::Newest;
use wbt_audit_walk::places::Places;
use wbt_audit_walk::table::Table;
use wbt_audit_walk::walk::{Step, Walk};
use wbt_journal::{CheckEntry, DomainLine, Journal, TimerEntry};
use wbt_num::{Limits, NoMemory};
use wbt_trace::Trace;

/// The first line of a check at fault that reads a domain.
pub fn triples_fault(
    alloc: Global,
    trace: &Trace,
    journal: &Journal,
) -> Result<Option<u64>, NoMemory>
    requires lawful { IsLawful trace.now }
    requires counts { verdict.counts_fault trace.now journal.now ≡ None }
    ensures { IfOk result (λ found. found ≡ verdict.triples_fault journal.now) }
{
    let mut triples = Triples::make(alloc, trace, journal)?;
    let mut walk = Walk::start(journal)?;
    'steps: while let Some(step) = walk.next()? {
        if let Some(at) = triples.judge(&step) {
            let line = step.line_at(at)?;
            return Ok(Some(line));
        }
    }
    Ok(None)
}

// The triples of each domain, and the newest that the CPU has read of it.
#[derive(Drop)]
struct Triples {
    places: Places,
    published: Table<Limits>,
    newest: Newest,
}

impl Triples {
    fn make(alloc: Global, trace: &Trace, journal: &Journal) -> Result<Triples, NoMemory>
        requires { IsLawful trace.now }
        ensures { IfOk result (λ kept. spec.KeepsTriples trace.now journal.now.timer kept []) }
    {
        let places = Places::of(trace);
        let published = published_by(alloc, places, journal.timer.as_slice())?;
        let newest = Newest::make(alloc, places.domains as usize)?;
        Ok(Triples {
            places,
            published,
            newest,
        })
    }

    // The line of a step's first read at fault, from the step's first; what is read with it where none is.
    fn judge(&mut self, step: &Step) -> Option<u64>
        ensures { spec.JudgesTriples self.old self.new (item_of step.now) result }
    {
        match step.act {
            None => {
                self.newest.forget();
                None
            }
            Some(act) => self.judge_act(&act),
        }
    }

    fn judge_act(&mut self, act: &Act) -> Option<u64>
        ensures { spec.JudgesTriple self.old self.new act.now result }
    {
        match act.check() {
            None => None,
            Some(check) => self.judge_check(check),
        }
    }

    fn judge_check(&mut self, check: &CheckEntry) -> Option<u64>
        ensures { spec.JudgesCheck self.old self.new check.entry.now result }
    {
        match self.fault_of(check) {
            None => {
                self.see_check(check);
                None
            }
            Some(line) => Some(line),
        }
    }

    // The line of the first read at fault, from the check's first.
    fn fault_of(&self, check: &CheckEntry) -> Option<u64>
        ensures { result ≡ spec.check_fault self.now check.entry.now }
    {
        if !self.is_triple(&check.global) {
            return Some(0);
        }
        match &check.cgroup {
            None => None,
            Some(read) => { if self.is_triple(read) { None } else { Some(1) } }
        }
    }

    fn is_triple(&self, read: &DomainLine) -> bool
        ensures { result ≡ spec.test self.now read.now }
    {
        match self.places.domain(read.domain) {
            None => false,
            Some(place) => {
                self.is_published(place, read) && self.newest.allows(place, read.triple)
            }
        }
    }

    fn is_published(&self, place: usize, read: &DomainLine) -> bool
        ensures { result ≡ spec.published_at self.now place read.now }
    {
        match self.published.get(place, read.triple) {
            None => false,
            Some(limits) => are_same(&read.limits, &limits),
        }
    }

    // Sees what a check read, of which its last line tells first.
    fn see_check(&mut self, check: &CheckEntry)
        ensures { spec.Sees self.old self.new (reads_of check.entry.now) }
    {
        self.see_cgroup(&check.cgroup);
        self.see(&check.global);
    }

    fn see_cgroup(&mut self, read: &Option<DomainLine>)
        ensures { spec.Sees self.old self.new (cgroup_reads read.now) }
    {
        match read {
            None => {}
            Some(read) => self.see(read),
        }
    }

    fn see(&mut self, read: &DomainLine)
        ensures { spec.Sees self.old self.new (read.now ∷ []) }
    {
        match self.places.domain(read.domain) {
            None => {}
            Some(place) => self.newest.see(place, read.triple),
        }
    }
}

fn are_same(a: &Limits, b: &Limits) -> bool
    ensures { result ≡ same_limits a.now b.now }
{
    a.thresh == b.thresh && a.bg == b.bg && a.hard == b.hard
}

// The triples that the timer published for each domain.
fn published_by(
    alloc: Global,
    places: Places,
    timer: &[TimerEntry],
) -> Result<Table<Limits>, NoMemory>
    ensures { IfOk result (spec.ArePublished places timer.now) }
{
    let mut published = Table::make(alloc, places.domains as usize)?;
    for entry in timer {
        publish(&mut published, places, entry)?;
    }
    Ok(published)
}

// One triple more of a domain, where the entry tells one.
fn publish(
    published: &mut Table<Limits>,
    places: Places,
    entry: &TimerEntry,
) -> Result<(), NoMemory>
    ensures { OnOk result (published.new ≡ spec.one_triple_more places entry.entry.now published.old) }
{
    match *entry {
        TimerEntry::Limits { domain, limits, .. } => push_to(published, places, domain, limits),
        TimerEntry::Period { .. } => Ok(()),
    }
}

fn push_to(
    published: &mut Table<Limits>,
    places: Places,
    domain: u32,
    limits: Limits,
) -> Result<(), NoMemory>
    ensures { OnOk result (published.new ≡ spec.triple_more_at (spec.place_by places domain) limits published.old) }
{
    match places.domain(domain) {
        None => Ok(()),
        Some(place) => published.push(place, limits),
    }
}
