//! A trace while its lines are read.

ghost use Rattle.std.specs.Prelude.{◌≡◌, ◌≤◌, ◌<◌, ℕ, length};
ghost use Rattle.wbt_num.specs.declared.most.TheConstants.{MOST_CGROUPS, MOST_CONTEXTS, MOST_DEVICES, MOST_INODES, MOST_PAGES, MOST_TASKS, MOST_WRITERS};
ghost use Rattle.wbt_trace.specs.Sofar.{last_from as last_from_of, least_shares, pages_in, inode_at};
ghost use Rattle.wbt_trace.specs.declared.ranges.TheConstants.{MOST_PERCENT};

use wbt_trace::{
    Action, Avail, Cgroup, Context, Device, FlusherLine, Inode, Order, TaskLine, Writers,
};

/// The trace so far. Beside what it says, it keeps what would cost a walk at each line.
#[derive(Drop)]
pub struct Builder {
    pub cpus: Option<u32>,
    pub cap: Option<u32>,
    pub ratio: Option<u32>,
    pub bg_ratio: Option<u32>,
    pub bytes: Option<u64>,
    pub bg_bytes: Option<u64>,
    pub avail: Vec<Avail>,
    pub devices: Vec<Device>,
    pub cgroups: Vec<Cgroup>,
    pub contexts: Vec<Context>,
    pub inodes: Vec<Inode>,
    pub tasks: Vec<TaskLine>,
    pub flushers: Vec<FlusherLine>,
    pub actions: Vec<Action>,
    pub writers: Writers,
    pub order: Vec<Order>,
    pub halt: Option<u64>,
    /// The tick of the last line of available pages.
    pub last_from: Option<u64>,
    /// The devices' least shares together, in percent.
    pub least: u64,
    /// The inodes' pages together.
    pub pages: u64,
    ghost last: { last_from ≡ last_from_of avail.items },
    ghost shares: { least ≡ least_shares devices.items },
    ghost shares_within: { least ≤ MOST_PERCENT },
    ghost total: { pages ≡ pages_in inodes.items },
    ghost total_within: { pages ≤ MOST_PAGES },
    ghost few_devices: { length devices.items ≤ MOST_DEVICES },
    ghost few_cgroups: { length cgroups.items ≤ MOST_CGROUPS },
    ghost few_contexts: { length contexts.items ≤ MOST_CONTEXTS },
    ghost few_inodes: { length inodes.items ≤ MOST_INODES },
    ghost few_tasks: { length tasks.items ≤ MOST_TASKS },
    ghost few_writers: { length writers ≤ MOST_WRITERS },
    ghost known_contexts: { (i : ℕ) → (inode_at i inodes.items).context < MOST_CONTEXTS },
}
