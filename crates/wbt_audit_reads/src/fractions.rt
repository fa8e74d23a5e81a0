//! Fractions: each that a check read of a domain is a part of the whole, of a period that the domain has had, of no more than was added
//! for the context, and of no earlier period than its CPU had read. What is added is of what there is.

ghost use Rattle.std.specs.Prelude.{◌≡◌, ◌∷◌, [], None, IfOk, option_map, get_or};
ghost use Rattle.wbt_trace.specs.Lawful.{IsLawful};
ghost use Rattle.wbt_journal.specs.Counts.{reads_of, cgroup_reads};
ghost use Rattle.wbt_journal.specs.Items.{all_told};
ghost use Rattle.wbt_journal.specs.Reads.{periods_read};
ghost use Rattle.wbt_journal.specs.Verdict as verdict;
ghost use Rattle.wbt_audit_walk.specs.Acts.{added_of};
ghost use Rattle.wbt_audit_reads.specs.Fractioning as spec;
ghost use Rattle.wbt_audit_walk.specs.Walks.{item_of};

use crate::periods::{has_period, periods_by};
use crate::shares::added_by;
use std::alloc::Global;
use wbt_audit_walk::act::{Act, Added};
use wbt_audit_walk::newest::Newest;
use wbt_audit_walk::places::Places;
use wbt_audit_walk::table::Table;
use wbt_audit_walk::walk::{Step, Walk};
use wbt_journal::{CheckEntry, DomainLine, Journal};
use wbt_num::NoMemory;
use wbt_trace::Trace;

/// The first line at fault, which reads a domain or adds a share.
pub fn fractions_fault(
    alloc: Global,
    trace: &Trace,
    journal: &Journal,
) -> Result<Option<u64>, NoMemory>
    requires lawful { IsLawful trace.now }
    requires counts { verdict.counts_fault trace.now journal.now ≡ None }
    ensures { IfOk result (λ found. found ≡ verdict.fractions_fault trace.now journal.now) }
{
    let mut fractions = Fractions::make(alloc, trace, journal)?;
    let mut walk = Walk::start(journal)?;
    'steps: while let Some(step) = walk.next()? {
        if let Some(at) = fractions.judge(&step) {
            let line = step.line_at(at)?;
            return Ok(Some(line));
        }
    }
    Ok(None)
}

// The periods that each domain has had, what was added for each context in each domain, and the newest period that the CPU has read
// for it.
#[derive(Drop)]
struct Fractions {
    places: Places,
    periods: Table<u128>,
    added: Vec<u128>,
    newest: Newest,
}

impl Fractions {
    fn make(alloc: Global, trace: &Trace, journal: &Journal) -> Result<Fractions, NoMemory>
        requires { IsLawful trace.now }
        ensures { IfOk result (λ kept. spec.KeepsFractions trace.now journal.now.timer (all_told journal.now) kept []) }
    {
        let places = Places::of(trace);
        let periods = periods_by(alloc, places, journal.timer.as_slice())?;
        let added = added_by(alloc, places, journal)?;
        let newest = Newest::make(alloc, places.pairs())?;
        Ok(Fractions {
            places,
            periods,
            added,
            newest,
        })
    }

    // The line of a step's fault, from its first; what is read with it where there is none.
    fn judge(&mut self, step: &Step) -> Option<u64>
        ensures { spec.JudgesFractions self.old self.new (item_of step.now) result }
    {
        match step.act {
            None => {
                self.newest.forget();
                None
            }
            Some(act) => self.judge_act(&act),
        }
    }

    fn judge_act(&mut self, act: &Act) -> Option<u64>
        ensures { spec.JudgesFraction self.old self.new act.now result }
    {
        match act.check() {
            None => self.fault_of_share(act.share()),
            Some(check) => self.judge_check(check),
        }
    }

    fn fault_of_share(&self, share: Option<Added>) -> Option<u64>
        ensures { result ≡ spec.share_fault self.now (option_map added_of share) }
    {
        match share {
            None => None,
            Some(share) => {
                if self.has_pair(share.domain, share.context) {
                    None
                } else {
                    Some(0)
                }
            }
        }
    }

    fn has_pair(&self, domain: u32, context: u32) -> bool
        ensures { result ≡ spec.has_pair self.now domain context }
    {
        domain < self.places.domains && context < self.places.contexts
    }

    fn judge_check(&mut self, check: &CheckEntry) -> Option<u64>
        ensures { spec.JudgesCheck self.old self.new check.entry.now result }
    {
        match self.fault_of(check) {
            None => {
                self.see_check(check);
                None
            }
            Some(line) => Some(line),
        }
    }

    // The line of the first read at fault, from the check's first.
    fn fault_of(&self, check: &CheckEntry) -> Option<u64>
        ensures { spec.IsFault self.now check.entry.now result }
    {
        if !self.is_fraction(check.context, &check.global) {
            return Some(0);
        }
        match &check.cgroup {
            None => None,
            Some(read) => {
                if self.is_fraction(check.context, read) {
                    None
                } else {
                    Some(1)
                }
            }
        }
    }

    fn is_fraction(&self, context: u32, read: &DomainLine) -> bool
        ensures { spec.AreRising self.now → result ≡ spec.test self.now context read.now }
    {
        match self.places.pair(read.domain, context) {
            None => false,
            Some(place) => {
                self.is_part(place, read) && self.newest.allows(place, read.share.period)
            }
        }
    }

    fn is_part(&self, place: usize, read: &DomainLine) -> bool
        ensures { spec.AreRising self.now → result ≡ spec.is_part_at self.now place read.now }
    {
        read.share.den >= 1
            && read.share.num <= read.share.den
            && has_period(self.periods.row(read.domain as usize), read.share.period)
            && u128::from(read.share.num) <= self.added_at(place)
    }

    fn added_at(&self, place: usize) -> u128
        ensures { result ≡ get_or self.now.added.items place 0 }
    {
        self.added.as_slice().get(place).copied().unwrap_or(0)
    }

    // Sees what a check read, of which its last line tells first.
    fn see_check(&mut self, check: &CheckEntry)
        ensures { spec.Sees self.old self.new (periods_read check.entry.now.context (reads_of check.entry.now)) }
    {
        self.see_cgroup(check.context, &check.cgroup);
        self.see(check.context, &check.global);
    }

    fn see_cgroup(&mut self, context: u32, read: &Option<DomainLine>)
        ensures { spec.Sees self.old self.new (periods_read context (cgroup_reads read.now)) }
    {
        match read {
            None => {}
            Some(read) => self.see(context, read),
        }
    }

    fn see(&mut self, context: u32, read: &DomainLine)
        ensures { spec.Sees self.old self.new (periods_read context (read.now ∷ [])) }
    {
        match self.places.pair(read.domain, context) {
            None => {}
            Some(place) => self.newest.see(place, read.share.period),
        }
    }
}
