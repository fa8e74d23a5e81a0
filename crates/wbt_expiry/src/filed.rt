//! Pairs filed in the slots of the wheel, from a base.
//!
//! The first pair is in the late list where this isn't empty, else in the first slot that isn't: of the lowest level, in
//! the order of moments from the base on. For of two pairs of one level the one of the earlier slot is due earlier, and each
//! pair of a level is due before each of a higher one. Where that slot is of a higher level, its pairs are filed anew in lower
//! levels, until the first slot is one of the lowest level: a slot of one tick.

ghost use Rattle.std.specs.Prelude.{◌≡◌, ◌≢◌, ◌<◌, ◌≤◌, ◌+◌, ◌*◌, ◌/◌, ◌^◌, ℕ, length, set, ltb, MatchOption};
ghost use Rattle.wbt_expiry.specs.Lists.{home, no_list, due_of, IsUpTo};
ghost use Rattle.wbt_expiry.specs.Slots.{slot, start_of};
ghost use Rattle.wbt_expiry.specs.Filed.{AreFiled, IsNoneDue, SameWait, FirstTaken, IsTaken, IsFirstSlot, IsFirstBelow, IsLowered, IsIdle, IsFrom};

use crate::due::Due;
use crate::lists::Lists;
use crate::moves::{loosen_all, move_list};
use crate::slots::{LATE, LEVELS, LOOSE, SLOTS, Slot, slot_list, slot_of, span_of};

/// The pairs of the inodes that wait.
#[derive(Drop)]
pub struct Filed {
    /// The moment that the pairs are filed from, in ticks.
    pub base: u64,
    /// When each inode that waits is due, in ticks.
    pub dues: Vec<u64>,
    /// The inodes that wait, by slots.
    pub lists: Lists,
}

impl Filed {
    /// Whether a moment is so far from the base that no slot is for it.
    pub fn is_far(&self, due: u64) -> bool
        ensures { result ≡ ltb (self.now.base / 262144 + 64) (due / 262144) }
    {
        self.base / 262144 + SLOTS < due / 262144
    }

    /// Files a pair.
    pub fn put(&mut self, inode: u32, due: u64)
        requires filed { AreFiled self.old.base self.old.dues.items self.old.lists }
        requires inode { inode < length self.old.dues.items }
        requires out { no_list ≤ home self.old.lists inode }
        requires near { due / 262144 ≤ self.old.base / 262144 + 64 }
        requires due_early { due < 2 ^ 63 }
        ensures filed { AreFiled self.new.base self.new.dues.items self.new.lists }
        ensures dues { self.new.dues.items ≡ set self.old.dues.items inode due }
        ensures lists { self.new.lists ≡ set self.old.lists inode (slot self.old.base due) }
    {
        self.dues[inode as usize] = due;
        self.lists.push(slot_of(self.base, due), inode);
    }

    /// Files all pairs anew from a base.
    pub fn file_all(&mut self, base: u64)
        requires filed { AreFiled self.old.base self.old.dues.items self.old.lists }
        requires base { base < 2 ^ 63 }
        requires near { (inode : ℕ) → home self.old.lists inode < no_list → due_of self.old.dues.items inode / 262144 ≤ base / 262144 + 64 }
        ensures filed { AreFiled base self.new.dues.items self.new.lists }
        ensures base { self.new.base ≡ base }
        ensures dues { self.new.dues.items ≡ self.old.dues.items }
        ensures same { SameWait self.old.lists self.new.lists }
    {
        loosen_all(&mut self.lists, &self.dues);
        move_list(&mut self.lists, &self.dues, LOOSE, Some(base));
        self.base = base;
    }

    /// Takes the first pair where it is due by a moment.
    pub fn take(&mut self, to: u64) -> Option<Due>
        requires filed { AreFiled self.old.base self.old.dues.items self.old.lists }
        ensures filed { AreFiled self.new.base self.new.dues.items self.new.lists }
        ensures dues { self.new.dues.items ≡ self.old.dues.items }
        ensures none { MatchOption result (IsNoneDue to self.old.dues.items self.old.lists × SameWait self.old.lists self.new.lists) (FirstTaken to self.old.dues.items self.old.lists self.new.lists) }
    {
        if let Some(inode) = self.lists.least(LATE, &self.dues) {
            return self.take_inode(inode, to);
        }
        let mut levels = LEVELS;
        'levels: while let Some(slot) = self.first_below(levels) {
            if to < slot.place * span_of(slot.level) {
                return None;
            }
            if slot.level == 0 {
                return self.take_lowest(slot.place, to);
            }
            self.file_lower(slot.level, slot.place);
            levels = slot.level;
        }
        None
    }

    // The first slot that isn't empty, of the levels below one.
    fn first_below(&self, levels: u32) -> Option<Slot>
        requires filed { AreFiled self.now.base self.now.dues.items self.now.lists }
        requires levels { levels ≤ 4 }
        requires from { IsFrom 0 self.now.lists }
        ensures { MatchOption result (IsFrom levels self.now.lists) (λ slot. IsFirstBelow levels self.now.dues.items self.now.lists slot.level slot.place) }
    {
        'levels: for level in 0..levels {
            if let Some(place) = self.first_slot(level) {
                return Some(Slot { level, place });
            }
        }
        None
    }

    // The first slot of a level that isn't empty.
    fn first_slot(&self, level: u32) -> Option<u64>
        requires filed { AreFiled self.now.base self.now.dues.items self.now.lists }
        requires level { level < 4 }
        ensures { MatchOption result (IsIdle level self.now.lists) (IsFirstSlot level self.now.dues.items self.now.lists) }
    {
        self.lists.first_filled(level, self.start_of(level))
    }

    // Files the pairs of the first slot anew from its first moment. So they come into lower levels.
    fn file_lower(&mut self, level: u32, place: u64)
        requires filed { AreFiled self.old.base self.old.dues.items self.old.lists }
        requires level { level < 4 }
        requires some { 0 < level }
        requires from { IsFrom level self.old.lists }
        requires first { IsFirstSlot level self.old.dues.items self.old.lists place }
        ensures filed { AreFiled self.new.base self.new.dues.items self.new.lists }
        ensures dues { self.new.dues.items ≡ self.old.dues.items }
        ensures lowered { IsLowered level self.old.lists self.new.lists }
    {
        let base = place * span_of(level);
        let list = slot_list(level, place);
        move_list(&mut self.lists, &self.dues, list, Some(base));
        self.base = base;
    }

    // Takes the first pair, which is in a slot of the lowest level, where it is due by a moment.
    fn take_lowest(&mut self, place: u64, to: u64) -> Option<Due>
        requires filed { AreFiled self.old.base self.old.dues.items self.old.lists }
        requires from { IsFrom 0 self.old.lists }
        requires first { IsFirstSlot 0 self.old.dues.items self.old.lists place }
        ensures filed { AreFiled self.new.base self.new.dues.items self.new.lists }
        ensures dues { self.new.dues.items ≡ self.old.dues.items }
        ensures none { MatchOption result (IsNoneDue to self.old.dues.items self.old.lists × SameWait self.old.lists self.new.lists) (FirstTaken to self.old.dues.items self.old.lists self.new.lists) }
    {
        match self.lists.least(slot_list(0, place), &self.dues) {
            None => None,
            Some(inode) => self.take_inode(inode, to),
        }
    }

    // Takes the pair of an inode, which is the first, where it is due by a moment.
    fn take_inode(&mut self, inode: u32, to: u64) -> Option<Due>
        requires filed { AreFiled self.old.base self.old.dues.items self.old.lists }
        requires waits { home self.old.lists inode < no_list }
        requires first { (other : ℕ) → home self.old.lists other < no_list → IsUpTo self.old.dues.items inode other }
        ensures filed { AreFiled self.new.base self.new.dues.items self.new.lists }
        ensures base { self.new.base ≡ self.old.base }
        ensures dues { self.new.dues.items ≡ self.old.dues.items }
        ensures none { MatchOption result (IsNoneDue to self.old.dues.items self.old.lists × (self.new.lists ≡ self.old.lists)) (λ pair. FirstTaken to self.old.dues.items self.old.lists self.new.lists pair × (self.new.lists ≡ set self.old.lists inode no_list)) }
    {
        let due = self.dues[inode as usize];
        if due > to {
            return None;
        }
        self.lists.remove(inode);
        Some(Due { due, inode })
    }

    // The first slot of a level that can hold a pair: the base's own at the lowest level, else the one after it.
    fn start_of(&self, level: u32) -> u64
        requires base { self.now.base < 2 ^ 63 }
        requires level { level < 4 }
        ensures { result ≡ start_of level self.now.base }
    {
        if level == 0 {
            return self.base;
        }
        self.base / span_of(level) + 1
    }
}
