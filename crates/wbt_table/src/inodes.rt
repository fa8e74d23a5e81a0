//! The marks of inodes.

ghost use Rattle.std.specs.Prelude.{◌≡◌, ◌<◌, ◌==◌, true, length};
ghost use Rattle.wbt_grant.specs.Kinds.{mark, unmark};
ghost use Rattle.wbt_table.specs.Layout.{setting};
ghost use Rattle.wbt_table.specs.Rule.{Has};
ghost use Rattle.wbt_table.specs.Seat.{IsAt, Makes};
ghost use Rattle.wbt_table.specs.Calls.{HoldsAll, OwesInodeNothing, HasNoDirtyPage};

use crate::seat::{CpuSeat, Throttle};
use crate::state::{state_of, step};
use std::marker::Brand;
use wbt_book::is_marked;

impl Throttle {
    /// Marks an inode (the step `mark`), which pays the CPU's owed mark and its owed rescans of the inode's pages. Whether the
    /// mark was clear before. Where it was, and a seat that holds all owed the inode nothing, no page of the inode is dirty.
    ///
    /// Requires: a seat of this throttle that holds the CPU. The inode exists.
    pub fn mark_inode(&self, seat: &mut CpuSeat, cpu: u32, inode: u32) -> bool
        requires seat { IsAt self.now seat.old }
        requires there { inode < length self.now.layout.inodes }
        requires held { (r : _) × Has seat.old.cpus cpu r }
        ensures marks { (n : _) × (result ≡ (n == 0)) × Makes (setting self.now.layout) (mark cpu inode) n seat.old seat.new }
        ensures clean { HoldsAll seat.old → OwesInodeNothing (setting self.now.layout) inode seat.old → result ≡ true → HasNoDirtyPage (setting self.now.layout) inode seat.old }
    {
        let grants = state_of(&seat.cpus, cpu).grants;
        let found = self
            .words
            .mark::<Brand>(&mut seat.place, grants, cpu, inode);
        step(&mut seat.cpus, cpu);
        !is_marked(found)
    }

    /// Clears the mark of an inode (the step `unmark`). From then on the CPU owes a rescan of each page of the inode.
    ///
    /// Requires: a seat of this throttle that holds the CPU. The inode exists.
    pub fn clear_inode(&self, seat: &mut CpuSeat, cpu: u32, inode: u32)
        requires seat { IsAt self.now seat.old }
        requires there { inode < length self.now.layout.inodes }
        requires held { (r : _) × Has seat.old.cpus cpu r }
        ensures { (n : _) × Makes (setting self.now.layout) (unmark cpu inode) n seat.old seat.new }
    {
        let grants = state_of(&seat.cpus, cpu).grants;
        self.words
            .unmark::<Brand>(&mut seat.place, grants, cpu, inode);
        step(&mut seat.cpus, cpu);
    }
}
