//! The numbers of a journal are in the ranges of their fields. The functions here show it of a value; they change nothing.

ghost use Rattle.std.specs.Prelude.{◌≡◌, ◌<◌, ◌^◌, ◌&&◌, [], ◌∷◌, true, flat_map, nat_lt};
ghost use Rattle.wbt_journal.specs.Each.{Each};
ghost use Rattle.wbt_journal.specs.Forms.{HasForm, IsOf, signed};
ghost use Rattle.wbt_journal.specs.Line.{line, num};
ghost use Rattle.wbt_journal.specs.Lines as lines;
ghost use Rattle.wbt_journal.specs.Ranges.{HaveForms, TimedHasForm, EntryHasForm, CheckHasForm, EstimateHasForm, LeftHasForm, PartHasForm};
ghost use Rattle.wbt_journal.specs.Text as text;
ghost use Rattle.wbt_journal.specs.Text.{journal_lines, census_line};
ghost use Rattle.wbt_journal.specs.Told as told;
ghost use Rattle.wbt_journal.specs.Told.{IsWriteback, IsWaiting};
ghost use Rattle.wbt_journal.specs.declared.field.Field.TheVariants.{Int};
ghost use Rattle.wbt_journal.specs.declared.word.Word.TheVariants as word;

use crate::entry::{CheckEntry, CpuJournal, DomainLine, Entry, EstEntry};
use crate::journal::{Journal, Left};
use crate::timer::TimerEntry;
use crate::totals::{done_of, fresh_of};
use wbt_counter::{Counter, Fold};

/// Whether the sums at the end of the journal's text have at most 64 bits. All other numbers of it have, and so a journal without steps and
/// lines of strict devices then has its forms.
#[tactic(auto, using(crate::proofs::Ranging::journal_in_form))]
pub fn has_forms(journal: &Journal) -> bool
    ensures forms { result ≡ true → journal.now.steps ≡ [] → journal.now.strict ≡ [] → Each HasForm (journal_lines journal.now) }
    ensures told { result ≡ (nat_lt (text.fresh_of journal.now.cpus) (2 ^ 64) && nat_lt (text.done_of journal.now.cpus) (2 ^ 64)) }
{
    timer_has_forms(journal.timer.as_slice());
    parts_have_forms(journal.cpus.as_slice());
    left_has_forms(journal.left.as_slice());
    is_big(journal.cpus.as_slice().len() as u64);
    fresh_of(journal.cpus.as_slice()) < 1 << 64 && done_of(journal.cpus.as_slice()) < 1 << 64
}

#[tactic(auto, using(crate::proofs::Ranging::so_far_next, crate::proofs::Ranging::so_far_all))]
fn timer_has_forms(timer: &[TimerEntry])
    ensures { Each TimedHasForm timer.now }
{
    for entry in timer {
        timed_has_form(entry);
    }
}

fn timed_has_form(entry: &TimerEntry)
    ensures { TimedHasForm entry.entry.now }
{
    match *entry {
        TimerEntry::Limits {
            domain,
            now,
            limits,
        } => {
            is_small(domain);
            is_big(now);
            is_big(limits.thresh);
            is_big(limits.bg);
            is_big(limits.hard);
        }
        TimerEntry::Period { domain, k } => {
            is_small(domain);
            is_big(k);
        }
    }
}

#[tactic(auto, using(crate::proofs::Ranging::so_far_next, crate::proofs::Ranging::so_far_all))]
fn parts_have_forms(parts: &[CpuJournal])
    ensures { Each PartHasForm parts.now }
{
    for part in parts {
        part_has_forms(part);
    }
}

#[tactic(auto, using(crate::proofs::Ranging::part_in_form))]
fn part_has_forms(part: &CpuJournal)
    ensures { PartHasForm part.now }
{
    entries_have_forms(part.entries.as_slice());
    checks_have_forms(part.checks.as_slice());
    estimates_have_forms(part.estimates.as_slice());
}

#[tactic(auto, using(crate::proofs::Ranging::so_far_next, crate::proofs::Ranging::so_far_all))]
fn entries_have_forms(entries: &[Entry])
    ensures { Each EntryHasForm entries.now }
{
    for entry in entries {
        entry_has_forms(entry);
    }
}

fn entry_has_forms(entry: &Entry)
    ensures { EntryHasForm entry.entry.now }
{
    match *entry {
        Entry::Write { task, page, .. } => {
            is_small(task);
            is_small(page);
        }
        Entry::Folded(fold) => fold_has_form(&fold),
        Entry::Check(_) => {}
        Entry::Share { domain, context, n } => {
            is_small(domain);
            is_small(context);
            is_big(n);
        }
        Entry::Est(_) => {}
        Entry::Claimed { .. }
        | Entry::Batch { .. }
        | Entry::Done { .. }
        | Entry::Fault { .. }
        | Entry::Back { .. } => writeback_has_form(entry),
        Entry::Noticed { .. } | Entry::Aged { .. } | Entry::Taken { .. } => waiting_has_form(entry),
    }
}

fn writeback_has_form(entry: &Entry)
    requires writeback { IsWriteback entry.now }
    ensures { EntryHasForm entry.entry.now }
{
    match *entry {
        Entry::Claimed { flusher, page } => {
            is_small(flusher);
            is_small(page);
        }
        Entry::Batch {
            flusher,
            pages,
            now,
            until,
        } => {
            is_small(flusher);
            is_small(pages);
            is_big(now);
            is_big(until);
        }
        Entry::Done { flusher, page } => {
            is_small(flusher);
            is_small(page);
        }
        Entry::Fault { flusher, pages } => {
            is_small(flusher);
            is_small(pages);
        }
        Entry::Back { flusher, page, .. } => {
            is_small(flusher);
            is_small(page);
        }
        _ => unreachable!(),
    }
}

fn waiting_has_form(entry: &Entry)
    requires waiting { IsWaiting entry.now }
    ensures { EntryHasForm entry.entry.now }
{
    match *entry {
        Entry::Noticed {
            flusher,
            inode,
            since,
        } => {
            is_small(flusher);
            is_small(inode);
            is_big(since);
        }
        Entry::Aged {
            flusher,
            inode,
            due,
            now,
        } => {
            is_small(flusher);
            is_small(inode);
            is_big(due);
            is_big(now);
        }
        Entry::Taken { flusher, inode } => {
            is_small(flusher);
            is_small(inode);
        }
        _ => unreachable!(),
    }
}

fn fold_has_form(fold: &Fold)
    ensures { HasForm (line word.Fold (lines.counter_field fold.entry.now.counter ∷ num fold.entry.now.version ∷ Int fold.entry.now.delta ∷ [])) }
{
    match fold.counter {
        Counter::Domain(domain) => is_small(domain),
        Counter::Context(context) => is_small(context),
    }
    is_big(fold.version);
    is_signed(fold.delta);
}

#[tactic(auto, using(crate::proofs::Ranging::so_far_next, crate::proofs::Ranging::so_far_all))]
fn checks_have_forms(checks: &[CheckEntry])
    ensures { Each CheckHasForm checks.now }
{
    for check in checks {
        check_has_forms(check);
    }
}

#[tactic(auto, using(crate::proofs::Ranging::check_in_form))]
fn check_has_forms(check: &CheckEntry)
    ensures { CheckHasForm check.entry.now }
{
    read_has_form(&check.global);
    cgroup_has_form(&check.cgroup);
    count_has_form(check);
    decision_has_form(check);
}

fn cgroup_has_form(which: &Option<DomainLine>)
    ensures { HaveForms (lines.cgroup_lines which.entry.now) }
{
    match which {
        None => {}
        Some(read) => read_has_form(read),
    }
}

fn read_has_form(read: &DomainLine)
    ensures { HasForm (lines.read_line read.entry.now) }
{
    is_small(read.domain);
    is_big(read.triple);
    is_big(read.limits.thresh);
    is_big(read.limits.bg);
    is_big(read.limits.hard);
    is_big(read.count.version);
    is_signed(read.count.value);
    is_big(read.share.period);
    is_big(read.share.num);
    is_big(read.share.den);
}

fn count_has_form(check: &CheckEntry)
    ensures { HasForm (lines.count_line check.entry.now) }
{
    is_small(check.context);
    is_big(check.count.version);
    is_signed(check.count.value);
}

fn decision_has_form(check: &CheckEntry)
    ensures { HasForm (lines.decision_line check.entry.now) }
{
    is_small(check.task);
    is_small(check.context);
    is_big(check.now);
    is_big(check.estimate);
    is_big(check.decision.pause);
    is_big(check.decision.left);
    is_big(check.decision.task.nr_dirtied);
    is_big(check.decision.task.nr_dirtied_pause);
    is_big(check.decision.task.paused_when);
}

#[tactic(auto, using(crate::proofs::Ranging::so_far_next, crate::proofs::Ranging::so_far_all))]
fn estimates_have_forms(estimates: &[EstEntry])
    ensures { Each EstimateHasForm estimates.now }
{
    for estimate in estimates {
        estimate_has_form(estimate);
    }
}

fn estimate_has_form(estimate: &EstEntry)
    ensures { EstimateHasForm estimate.entry.now }
{
    is_small(estimate.context);
    is_big(estimate.estimate.version);
    is_big(estimate.estimate.bw);
    is_big(estimate.estimate.avg);
    is_big(estimate.estimate.ratelimit);
    is_big(estimate.estimate.balanced);
    is_big(estimate.estimate.written_stamp);
    is_big(estimate.estimate.dirtied_stamp);
    is_big(estimate.estimate.at);
}

#[tactic(auto, using(crate::proofs::Ranging::so_far_next, crate::proofs::Ranging::so_far_all))]
fn left_has_forms(left: &[Left])
    ensures forms { Each LeftHasForm left.now }
    ensures census { HasForm (census_line left.now) }
{
    for page in left {
        left_has_form(page);
    }
}

fn left_has_form(page: &Left)
    ensures { LeftHasForm page.entry.now }
{
    is_small(page.page);
}

fn is_small(n: u32)
    ensures { n < 2 ^ 32 }
{}

fn is_big(n: u64)
    ensures { n < 2 ^ 64 }
{}

fn is_signed(n: i64)
    ensures { IsOf signed (Int n) }
{}
