//! What is counted of each thing while an interval goes on.

/// So many steps, entries or checks are counted in at once at most, and so many in all: 2^50.
pub const MOST_TOLD: u64 = 1125899906842624;

/// The exact count of a domain, and the greatest one after a step of the interval, in pages.
#[derive(Clone, Copy, Debug, PartialEq, Eq)]
pub struct DomainTally {
    pub count: i64,
    pub most: u64,
}

/// The fresh writes and the completions of a context's pages in the interval.
#[derive(Clone, Copy, Debug, PartialEq, Eq)]
pub struct ContextTally {
    pub dirtied: u64,
    pub written: u64,
}

/// A task's pages, checks and pauses in the interval, and the ticks of these pauses together and of the longest one.
#[derive(Clone, Copy, Debug, PartialEq, Eq)]
pub struct TaskTally {
    pub pages: u64,
    pub checks: u64,
    pub pauses: u64,
    pub ticks: u128,
    pub longest: u64,
}
