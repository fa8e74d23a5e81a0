//! The timer's lines: the limits of each domain at the opening, and each later line of a domain by the one before.

ghost use Rattle.std.specs.Prelude.{◌≡◌, ◌+◌, ◌≤◌, ◌^◌, Some, [], IfOk, length, nat_lt, nat_le, slice_get};
ghost use Rattle.wbt_trace.specs.Lawful.{IsLawful};
ghost use Rattle.wbt_journal.specs.Estimates.{opened_at as opening};
ghost use Rattle.wbt_journal.specs.Timer as law;
ghost use Rattle.wbt_journal.specs.Verdict as verdict;
ghost use Rattle.wbt_audit_reads.specs.Timing as spec;

use crate::estimates::opened_at;
use std::alloc::Global;
use wbt_audit_walk::places::Places;
use wbt_journal::{Journal, TimerEntry};
use wbt_limits::{Pair, thresholds};
use wbt_num::{Limits, NoMemory};
use wbt_rules::{TIMER_REST, avail_at};
use wbt_trace::{Cgroup, Trace};

/// The first line of the timer at fault. Where the opening lacks a line, that is the line that stands in its place.
pub fn timers_fault(
    alloc: Global,
    trace: &Trace,
    journal: &Journal,
) -> Result<Option<u64>, NoMemory>
    requires { IsLawful trace.now }
    ensures { IfOk result (λ found. found ≡ verdict.timers_fault trace.now journal.now) }
{
    let timer = journal.timer.as_slice();
    let mut lines = Lines::make(alloc, trace, timer);
    'entries: for (place, entry) in timer.iter().enumerate() {
        if !lines.allow(trace, entry)? {
            let line = line_of(place)?;
            return Ok(Some(line));
        }
    }
    if lines.are_opening() {
        let line = line_of(timer.len())?;
        return Ok(Some(line));
    }
    Ok(None)
}

// The line of a place among the timer's, of which the first is line 2.
fn line_of(place: usize) -> Result<u64, NoMemory>
    ensures { IfOk result (λ line. line ≡ 2 + place) }
{
    let place = place as u64;
    place.checked_add(2).ok_or(NoMemory)
}

// The last line of a domain: its moment and its hard limit.
#[derive(Clone, Copy)]
struct Line {
    now: u64,
    hard: u64,
}

// The last lines of the domains that have one; there are fewer than domains while the opening goes on.
#[derive(Drop)]
struct Lines {
    domains: usize,
    opened: u64,
    last: Vec<Line>,
}

impl Lines {
    fn make(alloc: Global, trace: &Trace, timer: &[TimerEntry]) -> Lines
        requires { IsLawful trace.now }
        ensures { spec.Keeps trace.now (opening timer.now) result [] }
    {
        let domains = Places::of(trace).domains as usize;
        Lines {
            domains,
            opened: opened_at(timer),
            last: Vec::new(alloc),
        }
    }

    fn are_opening(&self) -> bool
        ensures { result ≡ nat_lt (length self.now.last.items) self.now.domains }
    {
        self.last.len() < self.domains
    }

    // Whether an entry is none at fault, which is kept then.
    fn allow(&mut self, trace: &Trace, entry: &TimerEntry) -> Result<bool, NoMemory>
        requires { IsLawful trace.now }
        ensures { IfOk result (spec.Judges trace.now self.old self.new entry.entry.now) }
    {
        match *entry {
            TimerEntry::Limits {
                domain,
                now,
                limits,
            } => self.allow_limits(trace, domain, now, &limits),
            TimerEntry::Period { domain, .. } => {
                if self.are_opening() {
                    return Ok(false);
                }
                Ok((domain as usize) < self.domains)
            }
        }
    }

    fn allow_limits(
        &mut self,
        trace: &Trace,
        domain: u32,
        now: u64,
        limits: &Limits,
    ) -> Result<bool, NoMemory>
        requires { IsLawful trace.now }
        ensures { IfOk result (spec.JudgesLimits trace.now self.old self.new domain now limits.now) }
    {
        if self.are_opening() {
            self.open(trace, domain, now, limits)
        } else {
            Ok(self.go_on(trace, domain, now, limits))
        }
    }

    fn open(
        &mut self,
        trace: &Trace,
        domain: u32,
        now: u64,
        limits: &Limits,
    ) -> Result<bool, NoMemory>
        requires { IsLawful trace.now }
        ensures { IfOk result (spec.Opens trace.now self.old self.new domain now limits.now) }
    {
        if self.may_open(trace, domain, now, limits) {
            self.last.push(Line {
                now,
                hard: limits.hard,
            })?;
            return Ok(true);
        }
        Ok(false)
    }

    // The last line of a domain, where it has one.
    fn last_of(&self, domain: usize) -> Option<Line>
        ensures { result ≡ slice_get self.now.last.items domain }
    {
        self.last.as_slice().get(domain).copied()
    }

    fn may_open(&self, trace: &Trace, domain: u32, now: u64, limits: &Limits) -> bool
        requires { IsLawful trace.now }
        ensures { result ≡ law.opens trace.now self.now.opened (spec.lines_of self.now.last.items) domain now limits.now }
    {
        domain as usize == self.last.len()
            && now == self.opened
            && has_thresholds(trace, now, domain, limits)
            && limits.hard == limits.thresh
    }

    fn go_on(&mut self, trace: &Trace, domain: u32, now: u64, limits: &Limits) -> bool
        requires { IsLawful trace.now }
        ensures { spec.GoesOn trace.now self.old self.new domain now limits.now result }
    {
        let place = domain as usize;
        match self.last_of(place) {
            None => false,
            Some(before) => {
                if may_follow(trace, &before, domain, now, limits) {
                    self.last[place] = Line {
                        now,
                        hard: limits.hard,
                    };
                    true
                } else {
                    false
                }
            }
        }
    }
}

// Whether limits of a domain may follow its last line at a moment.
fn may_follow(trace: &Trace, before: &Line, domain: u32, now: u64, limits: &Limits) -> bool
    requires { IsLawful trace.now }
    ensures { result ≡ law.line_follows trace.now (Some (spec.line_of before.entry.now)) domain now limits.now }
{
    has_rested(before, now)
        && has_thresholds(trace, now, domain, limits)
        && hard_follows(before.hard, limits)
}

fn has_rested(before: &Line, now: u64) -> bool
    ensures { result ≡ nat_le (before.entry.now.now + TIMER_REST) now }
{
    now.saturating_sub(before.now) >= TIMER_REST
}

// Whether a hard limit follows another: one that was below the threshold is the threshold; any other falls by at most a 32nd of what it
// was above.
fn hard_follows(before: u64, limits: &Limits) -> bool
    ensures { result ≡ law.hard_follows before limits.now }
{
    if limits.thresh <= before {
        limits.hard <= before && before - limits.hard <= (before - limits.thresh) / 32
    } else {
        limits.hard == limits.thresh
    }
}

// Whether a domain may have these thresholds at a moment: the global one those of the available pages; a cgroup's between those of its
// file pages alone and with all its headroom.
fn has_thresholds(trace: &Trace, now: u64, domain: u32, limits: &Limits) -> bool
    requires { IsLawful trace.now }
    ensures { result ≡ law.has_thresholds trace.now now domain limits.now }
{
    let avail = avail_at(now, trace.avail.as_slice());
    if domain == 0 {
        return is_global(&thresholds(avail, &trace.settings, None), limits);
    }
    match trace.cgroups.as_slice().get(domain as usize - 1) {
        None => false,
        Some(cgroup) => is_cgroup(trace, avail, cgroup, limits),
    }
}

fn is_global(pair: &Pair, limits: &Limits) -> bool
    ensures { result ≡ law.is_global pair.now limits.now }
{
    limits.thresh == pair.thresh && limits.bg == pair.bg
}

fn is_cgroup(trace: &Trace, avail: u64, cgroup: &Cgroup, limits: &Limits) -> bool
    requires filepages { cgroup.now.filepages ≤ 2 ^ 40 }
    requires headroom { cgroup.now.headroom ≤ 2 ^ 40 }
    ensures { result ≡ spec.between trace.now avail cgroup.now limits.now }
{
    let low = thresholds(cgroup.filepages, &trace.settings, Some(avail));
    let high = thresholds(
        cgroup.filepages + cgroup.headroom,
        &trace.settings,
        Some(avail),
    );
    low.thresh <= limits.thresh && limits.thresh <= high.thresh && limits.bg <= limits.thresh
}
