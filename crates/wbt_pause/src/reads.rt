//! What a check reads, and a writer's own numbers.

use wbt_position::DomainRead;

/// What a check reads.
#[derive(Clone, Copy, Debug, PartialEq, Eq)]
pub struct Reads {
    /// The global domain.
    pub global: DomainRead,
    /// The domain of the context's cgroup, if it has one.
    pub cgroup: Option<DomainRead>,
    /// The context's dirty pages, those under writeback among them; below 2^33.
    pub wb_dirty: u64,
    /// How many CPUs there are, 1 to `MOST_CPUS`.
    pub cpus: u32,
    /// The most pages that are left to a writer, at least 1.
    pub cap: u32,
}

/// A writer's own numbers.
#[derive(Clone, Copy, Debug, PartialEq, Eq)]
pub struct Task {
    /// Pages that it dirtied since its last pause, below 2^52.
    pub nr_dirtied: u64,
    /// Its allowance: pages that it may dirty before its next check, below 2^52.
    pub nr_dirtied_pause: u64,
    /// The moment at which its last pause ended, in ticks; 0 where it had none.
    pub paused_when: u64,
}
