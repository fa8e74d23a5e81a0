//! What a flusher knows of its trace.

ghost use Rattle.std.specs.Prelude.{◌≡◌, ◌+◌, ◌<◌, ◌≤◌, ◌^◌, ◌↔◌, IsTrue, length};
ghost use Rattle.wbt_expiry.specs.Kept.{reach};
ghost use Rattle.wbt_flusher.specs.Plans as spec;
ghost use Rattle.wbt_flusher.specs.Plans.{IsPlan, IsInode};

use wbt_num::Items;
use wbt_rules::{expire_of, greatest_share};
use wbt_trace::{Context, Device, Inode};

/// A flusher's place in its trace, and the things that it works on.
#[derive(Drop)]
pub struct FlusherPlan {
    /// Its number.
    pub flusher: u32,
    /// The CPU that it runs on.
    pub cpu: u32,
    /// The number of its device.
    pub device: u32,
    /// Whether it is the device's first flusher, which updates the estimates.
    pub leads: bool,
    /// Whether its device's inodes are written for their age.
    pub ages: bool,
    /// How many domains there are.
    pub domains: u32,
    /// How many pages there are.
    pub pages: u32,
    /// The inodes of all devices.
    pub inodes: Items<Inode>,
    /// The contexts of all devices.
    pub contexts: Items<Context>,
    /// What the trace says of its device: its rate and shares, whether it is strict, with how many pages a scan ends, and whether it goes
    /// on where the last one ended.
    pub shares: Device,
    /// The least shares of all devices together, in percent.
    pub least_shares: u32,
}

impl FlusherPlan {
    /// Whether the number is that of an inode of the flusher's device.
    pub fn has(&self, inode: u32) -> bool
        requires plan { IsPlan self.now }
        ensures { IsTrue result ↔ IsInode self.now inode }
    {
        let number = inode as usize;
        if number >= self.inodes.as_slice().len() {
            return false;
        }
        let context = self.inodes.as_slice()[number].context;
        self.contexts.as_slice()[context as usize].device == self.device
    }

    /// The context of an inode that there is.
    pub fn context_of(&self, inode: u32) -> u32
        requires there { inode < length self.now.inodes }
        ensures { result ≡ spec.context_of self.now inode }
    {
        self.inodes.as_slice()[inode as usize].context
    }

    /// The first page of an inode that there is.
    pub fn first_of(&self, inode: u32) -> u32
        requires there { inode < length self.now.inodes }
        ensures { result ≡ (spec.inode_at self.now inode).first }
    {
        self.inodes.as_slice()[inode as usize].first
    }

    /// How many pages an inode has that there is.
    pub fn pages_of(&self, inode: u32) -> u32
        requires there { inode < length self.now.inodes }
        ensures { result ≡ (spec.inode_at self.now inode).pages }
    {
        self.inodes.as_slice()[inode as usize].pages
    }

    /// The moment at which an inode is due that is noticed at one, in ticks.
    pub fn due_of(&self, inode: u32, since: u64) -> u64
        requires plan { IsPlan self.now }
        requires there { inode < length self.now.inodes }
        requires since { since < 2 ^ 62 }
        ensures value { result ≡ spec.due_of self.now inode since }
        ensures soon { result ≤ since + reach }
    {
        let context = self.context_of(inode);
        since + expire_of(&self.contexts.as_slice()[context as usize])
    }

    /// The greatest share of the flusher's device, in 1024ths.
    pub fn max_share(&self) -> u64
        requires plan { IsPlan self.now }
        ensures value { result ≡ spec.max_share self.now }
        ensures share { result ≤ 1024 }
    {
        greatest_share(&self.shares)
    }

    /// Whether the flusher's device is strict: each of its contexts is held to its own part of a threshold.
    pub fn is_strict(&self) -> bool
        ensures { result ≡ spec.is_strict self.now }
    {
        self.shares.strict
    }

    /// The domain of a context's cgroup, 0 where it has none.
    pub fn group_of(&self, context: u32) -> u32
        requires there { context < length self.now.contexts }
        ensures { result ≡ spec.group_of self.now context }
    {
        self.contexts.as_slice()[context as usize].domain
    }
}
