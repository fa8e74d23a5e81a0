//! What an entry of a CPU's part tells.

ghost use Rattle.std.specs.Prelude.{◌≡◌, [], length, option_copied, option_map};
ghost use Rattle.wbt_journal.specs.Effects.{effect};
ghost use Rattle.wbt_journal.specs.Lines.{told_lines, check_lines};
ghost use Rattle.wbt_journal.specs.Told.{IsWriteback, IsWaiting, told_entry, one_checked, one_estimated};
ghost use Rattle.wbt_audit_walk.specs.Acts.{told_of, told_by, added_of};

use wbt_counter::Fold;
use wbt_journal::{CheckEntry, Entry, EstEntry};

/// What an entry tells, with the check or the estimate that it names.
#[derive(Clone, Copy, Debug)]
pub enum Act<'a> {
    /// A task wrote a page, which was clean before where it is fresh.
    Write {
        task: u32,
        page: u32,
        fresh: bool,
    },
    /// The CPU's own number of a counter was folded into the shared count.
    Fold(Fold),
    /// A check was made.
    Check(&'a CheckEntry),
    /// A flusher claimed a page.
    Claim {
        flusher: u32,
        page: u32,
    },
    /// A flusher handed pages to its disk.
    Batch {
        flusher: u32,
        pages: u32,
        now: u64,
        until: u64,
    },
    /// A page's writeback ended.
    Done {
        flusher: u32,
        page: u32,
    },
    /// Pages were counted in for a context in a domain.
    Share {
        domain: u32,
        context: u32,
        n: u64,
    },
    /// An estimate was published.
    Est(&'a EstEntry),
    /// A disk failed to write pages of a flusher.
    Fault {
        flusher: u32,
        pages: u32,
    },
    /// A flusher gave a page back that its disk failed to write.
    Back {
        flusher: u32,
        page: u32,
        absorbed: bool,
    },
    /// A flusher noticed an inode.
    Notice {
        flusher: u32,
        inode: u32,
        since: u64,
    },
    /// A flusher took an inode for its age.
    Age {
        flusher: u32,
        inode: u32,
        due: u64,
        now: u64,
    },
    /// A flusher took the first inode of its waiting list, due or not.
    Take {
        flusher: u32,
        inode: u32,
    },
}

/// So many pages that were counted in for a context in a domain.
#[derive(Clone, Copy, Debug)]
pub struct Added {
    pub domain: u32,
    pub context: u32,
    pub n: u64,
}

impl<'a> Act<'a> {
    /// What the entry tells, and none where it names a check or an estimate that the part doesn't have.
    pub fn of(entry: &Entry, checks: &'a [CheckEntry], estimates: &'a [EstEntry]) -> Option<Act<'a>>
        ensures { told_by result ≡ told_entry checks.now estimates.now entry.now }
    {
        match *entry {
            Entry::Write { task, page, fresh } => Some(Act::Write { task, page, fresh }),
            Entry::Folded(fold) => Some(Act::Fold(fold)),
            Entry::Check(place) => named_check(checks.get(place as usize)),
            Entry::Share { domain, context, n } => Some(Act::Share { domain, context, n }),
            Entry::Est(place) => named_estimate(estimates.get(place as usize)),
            Entry::Claimed { .. }
            | Entry::Batch { .. }
            | Entry::Done { .. }
            | Entry::Fault { .. }
            | Entry::Back { .. } => writeback_act(entry),
            Entry::Noticed { .. } | Entry::Aged { .. } | Entry::Taken { .. } => {
                waiting_act(entry)
            }
        }
    }

    /// The fold that it tells, if it is one.
    pub fn fold(&self) -> Option<Fold>
        ensures { result ≡ (effect (told_of self.now)).fold }
    {
        match *self {
            Act::Fold(fold) => Some(fold),
            _ => None,
        }
    }

    /// The check.
    pub fn check(&self) -> Option<&'a CheckEntry>
        ensures { option_copied result ≡ (effect (told_of self.now)).check }
    {
        match *self {
            Act::Check(check) => Some(check),
            _ => None,
        }
    }

    /// The share that was added.
    pub fn share(&self) -> Option<Added>
        ensures { option_map added_of result ≡ (effect (told_of self.now)).share }
    {
        match *self {
            Act::Share { domain, context, n } => Some(Added { domain, context, n }),
            _ => None,
        }
    }

    /// The estimate.
    pub fn estimate(&self) -> Option<&'a EstEntry>
        ensures { option_copied result ≡ (effect (told_of self.now)).estimate }
    {
        match *self {
            Act::Est(est) => Some(est),
            _ => None,
        }
    }

    /// How many lines tell it.
    pub fn lines(&self) -> u64
        ensures { result ≡ length (told_lines (told_of self.now)) }
    {
        match self {
            Act::Check(check) => lines_of_check(check),
            _ => 1,
        }
    }
}

// What an entry of a flusher's writeback tells.
fn writeback_act<'a>(entry: &Entry) -> Option<Act<'a>>
    requires writeback { IsWriteback entry.now }
    ensures { told_by result ≡ told_entry [] [] entry.now }
{
    match *entry {
        Entry::Claimed { flusher, page } => Some(Act::Claim { flusher, page }),
        Entry::Batch {
            flusher,
            pages,
            now,
            until,
        } => Some(Act::Batch {
            flusher,
            pages,
            now,
            until,
        }),
        Entry::Done { flusher, page } => Some(Act::Done { flusher, page }),
        Entry::Fault { flusher, pages } => Some(Act::Fault { flusher, pages }),
        Entry::Back {
            flusher,
            page,
            absorbed,
        } => Some(Act::Back {
            flusher,
            page,
            absorbed,
        }),
        _ => unreachable!(),
    }
}

// What an entry of a flusher's waiting list tells.
fn waiting_act<'a>(entry: &Entry) -> Option<Act<'a>>
    requires waiting { IsWaiting entry.now }
    ensures { told_by result ≡ told_entry [] [] entry.now }
{
    match *entry {
        Entry::Noticed {
            flusher,
            inode,
            since,
        } => Some(Act::Notice {
            flusher,
            inode,
            since,
        }),
        Entry::Aged {
            flusher,
            inode,
            due,
            now,
        } => Some(Act::Age {
            flusher,
            inode,
            due,
            now,
        }),
        Entry::Taken { flusher, inode } => Some(Act::Take { flusher, inode }),
        _ => unreachable!(),
    }
}

fn named_check<'a>(check: Option<&'a CheckEntry>) -> Option<Act<'a>>
    ensures { told_by result ≡ one_checked (option_copied check.entry) }
{
    let check = check?;
    Some(Act::Check(check))
}

fn named_estimate<'a>(estimate: Option<&'a EstEntry>) -> Option<Act<'a>>
    ensures { told_by result ≡ one_estimated (option_copied estimate.entry) }
{
    let estimate = estimate?;
    Some(Act::Est(estimate))
}

// A check of a context in a cgroup has a line more.
fn lines_of_check(check: &CheckEntry) -> u64
    ensures { result ≡ length (check_lines check.entry.now) }
{
    match check.cgroup {
        None => 3,
        Some(_) => 4,
    }
}
