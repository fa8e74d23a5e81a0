//! A trace as a value: a machine, its settings, its things by number, and what its tasks do.
//!
//! Things of one sort are numbered from 0 in the order of their lines, but cgroups from 1, since domain 0 is the global
//! one.

use wbt_num::{Items, Settings};

/// From a tick on, so many pages are available.
#[derive(Clone, Copy, Debug, PartialEq, Eq)]
pub struct Avail {
    /// The tick, at most 10^12: 0 at the first, and above the one before at each other.
    pub from: u64,
    /// Available pages, at most 2^40.
    pub pages: u64,
}

/// A device that pages are written to.
#[derive(Clone, Copy, Debug, PartialEq, Eq)]
pub struct Device {
    /// Pages a second, 1 to 2^20.
    pub rate: u64,
    /// The device's least share of a threshold, in percent; all of them together are at most 100.
    pub min: u32,
    /// The device's greatest share of a threshold, in percent, from `min` to 100.
    pub max: u32,
    /// Whether each context of the device is held to its own part of the threshold, even where the domain has room.
    pub strict: bool,
    /// With so many pages in its batch a scan for the device ends at the latest, 1 to 2^21; None where no line says it.
    pub chunk: Option<u32>,
    /// Whether a scan for the device begins where the last one of the same flusher and inode ended, and goes round.
    pub cyclic: bool,
}

/// A memory cgroup, which is a domain of its own.
#[derive(Clone, Copy, Debug, PartialEq, Eq)]
pub struct Cgroup {
    /// File pages, at most 2^40.
    pub filepages: u64,
    /// Pages that may still be charged, at most 2^40.
    pub headroom: u64,
}

/// What a line says of a context's estimate at the opening, in pages a second, each 1 to 2^40.
#[derive(Clone, Copy, Debug, PartialEq, Eq)]
pub struct FirstEstimate {
    /// What the device writes of the context.
    pub bandwidth: u64,
    /// The average of that.
    pub average: u64,
    /// How fast the context's writers may go.
    pub ratelimit: u64,
}

/// A writeback context: the pages of one domain on one device.
#[derive(Clone, Copy, Debug, PartialEq, Eq)]
pub struct Context {
    /// The number of its device.
    pub device: u32,
    /// 0 for the global domain alone, or the number of its cgroup.
    pub domain: u32,
    /// After how long an inode of the context is due, in hundredths of a second; None where no line says it.
    pub expire: Option<u32>,
    /// Its estimate at the opening; None where no line says it.
    pub estimate: Option<FirstEstimate>,
}

/// An inode, whose pages lie one after another.
#[derive(Clone, Copy, Debug, PartialEq, Eq)]
pub struct Inode {
    /// The number of its context.
    pub context: u32,
    /// Its first page, which is the sum of the pages of the inodes before it.
    pub first: u32,
    /// How many pages it has, 1 to 2097152.
    pub pages: u32,
}

/// A task that dirties pages.
#[derive(Clone, Copy, Debug, PartialEq, Eq)]
pub struct TaskLine {
    /// The CPU that it runs on.
    pub cpu: u32,
    /// When it rests between its pages; None where no line says it.
    pub pace: Option<Pace>,
}

/// When a task rests between its pages.
#[derive(Clone, Copy, Debug, PartialEq, Eq)]
pub struct Pace {
    /// After so many of its pages, 1 to 2^21, where a further one follows.
    pub pages: u32,
    /// For so many ticks, 1 to 10^12.
    pub ticks: u64,
}

/// A flusher, which writes dirty pages back to its device.
#[derive(Clone, Copy, Debug, PartialEq, Eq)]
pub struct FlusherLine {
    /// The number of its device.
    pub device: u32,
    /// The CPU that it runs on.
    pub cpu: u32,
}

/// What a task does next.
#[derive(Clone, Copy, Debug, PartialEq, Eq)]
pub enum Action {
    /// It dirties the pages from `from` on, `pages` of them, in order. They are counted from the inode's first page.
    Write {
        task: u32,
        inode: u32,
        from: u32,
        pages: u32,
    },
    /// It rests for so many ticks.
    Rest {
        task: u32,
        ticks: u64,
    },
}

/// A line that forces the order of steps.
#[derive(Clone, Copy, Debug, PartialEq, Eq)]
pub enum Order {
    /// A CPU takes so many steps.
    Steps { cpu: u32, steps: u64 },
    /// The timer takes so many steps.
    Timer { steps: u64 },
    /// The clock moves by so many ticks.
    Tick { ticks: u64 },
}

/// A whole trace. Each list is in the order of its numbers, or of its lines.
#[derive(Drop)]
pub struct Trace {
    /// How many CPUs there are, 1 to 64.
    pub cpus: u32,
    /// The most pages left to a writer, 1 to 1024.
    pub cap: u32,
    /// The settings for dirty pages.
    pub settings: Settings,
    /// When how many pages are available.
    pub avail: Items<Avail>,
    /// The devices.
    pub devices: Items<Device>,
    /// The cgroups; the first is domain 1.
    pub cgroups: Items<Cgroup>,
    /// The contexts.
    pub contexts: Items<Context>,
    /// The inodes.
    pub inodes: Items<Inode>,
    /// The tasks.
    pub tasks: Items<TaskLine>,
    /// The flushers.
    pub flushers: Items<FlusherLine>,
    /// What the tasks do, each task in this order.
    pub actions: Items<Action>,
    /// The order that is forced on a replay.
    pub order: Items<Order>,
    /// The number of steps after which each CPU of a replay stops.
    pub halt: Option<u64>,
}
