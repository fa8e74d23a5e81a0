//! What a CPU did.

use wbt_counter::{Count, Fold};
use wbt_estimate::Estimate;
use wbt_flex::Fraction;
use wbt_num::{Items, Limits};
use wbt_pause::Decision;

/// What a CPU did, in one step or turn.
#[derive(Clone, Copy, Debug, PartialEq, Eq)]
pub enum Entry {
    /// A task wrote a page, which was clean before where it is fresh.
    Write {
        task: u32,
        page: u32,
        fresh: bool,
    },
    /// The CPU's own number of a counter was folded into the shared count.
    Folded(Fold),
    /// The check of this place among the CPU's checks was made.
    Check(u64),
    /// A flusher claimed a page.
    Claimed {
        flusher: u32,
        page: u32,
    },
    /// A flusher handed so many pages to its disk, which has written them at the moment `until`.
    Batch {
        flusher: u32,
        pages: u32,
        now: u64,
        until: u64,
    },
    /// A page's writeback ended.
    Done {
        flusher: u32,
        page: u32,
    },
    /// So many pages were counted in for a context in a domain.
    Share {
        domain: u32,
        context: u32,
        n: u64,
    },
    /// The estimate of this place among the CPU's estimates was published.
    Est(u64),
    /// A disk failed to write so many pages of a flusher.
    Fault {
        flusher: u32,
        pages: u32,
    },
    /// A flusher gave a page back that its disk failed to write. It was absorbed where a write had dirtied it again meanwhile; else
    /// it is dirty as it was before its claim.
    Back {
        flusher: u32,
        page: u32,
        absorbed: bool,
    },
    /// A flusher of an ageing device took an inode from its device's queue at the moment `since`, in ticks. From then on it waits in the
    /// flusher's list.
    Noticed {
        flusher: u32,
        inode: u32,
        since: u64,
    },
    /// A flusher took the first inode of its waiting list to write it for its age. It was due from the moment `due` on, and the turn that
    /// took it was at the moment `now`, both in ticks.
    Aged {
        flusher: u32,
        inode: u32,
        due: u64,
        now: u64,
    },
    /// A flusher took the first inode of its waiting list, due or not: background writeback started, or it was in the drain.
    Taken {
        flusher: u32,
        inode: u32,
    },
}

/// What a check read of a domain.
#[derive(Clone, Copy, Debug, PartialEq, Eq)]
pub struct DomainLine {
    /// The domain; 0 is the global one.
    pub domain: u32,
    /// The version of the limits: 0 for the first ones of the domain, and one more with each publication.
    pub triple: u64,
    /// The limits that it loaded.
    pub limits: Limits,
    /// The shared count that it loaded.
    pub count: Count,
    /// The context's fraction of the domain's completed writes.
    pub share: Fraction,
}

/// A check: what it read, and what it decided.
#[derive(Clone, Copy, Debug, PartialEq, Eq)]
pub struct CheckEntry {
    /// The task that was checked.
    pub task: u32,
    /// The context whose pages it writes.
    pub context: u32,
    /// The moment, in ticks.
    pub now: u64,
    /// What was read of the global domain.
    pub global: DomainLine,
    /// What was read of the context's cgroup, where it has one.
    pub cgroup: Option<DomainLine>,
    /// The shared count of the context.
    pub count: Count,
    /// The version of the estimate that was read.
    pub estimate: u64,
    /// The decision.
    pub decision: Decision,
}

/// An estimate that was published for a context.
#[derive(Clone, Copy, Debug, PartialEq, Eq)]
pub struct EstEntry {
    /// The context.
    pub context: u32,
    /// Its new estimate.
    pub estimate: Estimate,
}

/// One CPU's part of a journal.
#[derive(Drop)]
pub struct CpuJournal {
    /// What it did, in order.
    pub entries: Items<Entry>,
    /// The checks that the entries name, in order.
    pub checks: Items<CheckEntry>,
    /// The estimates that the entries name, in order.
    pub estimates: Items<EstEntry>,
}
