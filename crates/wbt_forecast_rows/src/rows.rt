//! The rows of an interval.

use wbt_num::Items;

/// What a forecast tells of a domain in an interval, in pages.
#[derive(Clone, Copy, Debug, PartialEq, Eq)]
pub struct DomainRow {
    /// The domain; 0 is the global one.
    pub domain: u32,
    /// Its exact count, of dirty pages and pages under writeback, after the interval's last step.
    pub count: u64,
    /// Its greatest exact count after any step of the interval.
    pub most: u64,
    /// The hard limit that was published last.
    pub hard: u64,
    /// Its bound after the interval's last step.
    pub bound: u64,
}

/// What a forecast tells of a context in an interval.
#[derive(Clone, Copy, Debug, PartialEq, Eq)]
pub struct ContextRow {
    /// The context.
    pub context: u32,
    /// Writes that found their page clean.
    pub dirtied: u64,
    /// Pages whose writeback ended.
    pub written: u64,
    /// The bandwidth of the newest estimate, in pages a second, as the two rates after it.
    pub bandwidth: u64,
    /// The average of that bandwidth.
    pub average: u64,
    /// How fast the context's writers may go.
    pub ratelimit: u64,
}

/// What a forecast tells of a task in an interval.
#[derive(Clone, Copy, Debug, PartialEq, Eq)]
pub struct TaskRow {
    /// The task.
    pub task: u32,
    /// Pages that it wrote, fresh or not.
    pub pages: u64,
    /// Its checks.
    pub checks: u64,
    /// Its pauses above 0 that began.
    pub pauses: u64,
    /// The ticks of these pauses together.
    pub ticks: u128,
    /// The ticks of the longest one.
    pub longest: u64,
}

/// What a forecast tells of an interval.
#[derive(Drop)]
pub struct IntervalRow {
    /// The interval's number: it has the moments from so many times its length on.
    pub number: u64,
    /// The domains, by number.
    pub domains: Items<DomainRow>,
    /// The contexts, by number.
    pub contexts: Items<ContextRow>,
    /// Those tasks that wrote, were checked or began a pause in it, by number.
    pub tasks: Items<TaskRow>,
}
