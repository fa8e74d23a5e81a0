//! What of a throttle never changes.

use wbt_num::{Items, Limits};

/// Where the pages of an inode lie.
#[derive(Clone, Copy, Debug, PartialEq, Eq)]
pub struct Place {
    /// The context of its pages.
    pub context: u32,
    /// Its first page.
    pub first: u32,
    /// How many pages it has.
    pub pages: u32,
}

/// A writer: a task on its CPU, in a context.
#[derive(Clone, Copy, Debug, PartialEq, Eq)]
pub struct Writer {
    /// The CPU that makes its steps.
    pub cpu: u32,
    /// The context whose pages it dirties.
    pub context: u32,
}

/// What a throttle is made for.
#[derive(Drop)]
pub struct Layout {
    /// CPUs, numbered from 0. The timer is the number after the last one.
    pub cpus: u32,
    /// How many pages a writer may have left at most.
    pub cap: u32,
    /// The first limits of each domain; domain 0 is the global one. They are published from the start, and are the first peaks.
    pub firsts: Items<Limits>,
    /// The domain of each context's cgroup, 0 for a context in the global domain alone.
    pub contexts: Items<u32>,
    /// The inodes, which lie one after the other from page 0.
    pub inodes: Items<Place>,
    /// The writers.
    pub writers: Items<Writer>,
    /// How many page steps a CPU may make: pages dirtied, completed or given back.
    pub page_steps: u64,
}
