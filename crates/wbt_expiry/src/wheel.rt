//! The wheel: a waiting list by moments.

ghost use Rattle.std.specs.Prelude.{◌≡◌, ◌<◌, ◌≤◌, ◌+◌, ◌^◌, [], ◌∷◌, max, not, IfOk, IfSome, MatchOption};
ghost use Rattle.std.specs.Bool.{OnTrue, OnFalse};
ghost use Rattle.wbt_expiry.specs.Waiting.{with_pair, has_inode, AreInOrder};
ghost use Rattle.wbt_expiry.specs.Kept.{reach, TakesFirst};

use crate::due::Due;
use crate::filed::Filed;
use crate::lists::Lists;
use std::alloc::Global;
use std::marker::Model;
use wbt_num::NoMemory;

/// How far after the greatest moment that a wheel was told an inode may be due, in ticks: `2^24 - 1`, four hours and a half.
pub const REACH: u64 = 16777215;

/// The list of the inodes that wait, each with the moment at which it is due, and the greatest moment that the wheel was
/// told. Contracts see the pairs in order, that moment, and the number that the inodes are below.
#[derive(Drop)]
pub struct Wheel {
    // The greatest moment that it was told, in ticks.
    told: u64,
    // The pairs, filed from a base that may be behind that moment: all are filed anew where one comes too far after the base.
    filed: Filed,
}

impl Model for Wheel {
    ghost use Rattle.std.specs.Prelude.{length};
    ghost use Rattle.wbt_expiry.specs.Waiting.{Waiting};
    ghost use Rattle.wbt_expiry.specs.Kept.{IsKept, pairs_of};

    ghost Value = { Waiting };

    ghost view = { λ wheel. record { pairs = pairs_of wheel.filed.dues.items wheel.filed.lists; told = wheel.told; inodes = length wheel.filed.dues.items } };

    ghost invariant = { λ wheel. IsKept wheel.told wheel.filed.base wheel.filed.dues.items wheel.filed.lists };
}

impl Wheel {
    /// A wheel for the inodes below a number, that was told one moment, in ticks. No inode waits. No other call of a wheel is
    /// handed an allocator.
    pub fn make(alloc: Global, inodes: u32, now: u64) -> Result<Wheel, NoMemory>
        requires { now < 2 ^ 62 }
        ensures pairs { IfOk result (λ wheel. wheel.pairs ≡ []) }
        ensures told { IfOk result (λ wheel. wheel.told ≡ now) }
        ensures inodes { IfOk result (λ wheel. wheel.inodes ≡ inodes) }
    {
        let lists = Lists::make(alloc, inodes)?;
        let dues = vec![in alloc; 0u64; inodes as usize]?;
        Ok(Wheel {
            told: now,
            filed: Filed {
                base: now,
                dues,
                lists,
            },
        })
    }

    /// Tells a moment, in ticks.
    pub fn move_to(&mut self, now: u64)
        requires { now < 2 ^ 62 }
        ensures pairs { self.new.pairs ≡ self.old.pairs }
        ensures told { self.new.told ≡ max self.old.told now }
        ensures inodes { self.new.inodes ≡ self.old.inodes }
    {
        self.told = self.told.max(now);
    }

    /// The last moment at which an inode that is put now may be due, in ticks.
    pub fn horizon(&self) -> u64
        ensures { result ≡ self.now.told + reach }
    {
        self.told + REACH
    }

    /// Puts an inode that is due at a moment. It answers false exactly where the inode waits already, and changes nothing
    /// then.
    pub fn put(&mut self, inode: u32, due: u64) -> bool
        requires inode { inode < self.old.inodes }
        requires due { due ≤ self.old.told + reach }
        ensures accepted { result ≡ not (has_inode inode self.old.pairs) }
        ensures put { OnTrue result (self.new.pairs ≡ with_pair (record { due = due; inode = inode }) self.old.pairs) }
        ensures refused { OnFalse result (self.new.pairs ≡ self.old.pairs) }
        ensures told { self.new.told ≡ self.old.told }
        ensures inodes { self.new.inodes ≡ self.old.inodes }
        ensures order { AreInOrder self.new.pairs }
    {
        if self.filed.lists.has(inode) {
            return false;
        }
        if self.filed.is_far(due) {
            self.filed.file_all(self.told);
        }
        self.filed.put(inode, due);
        true
    }

    /// Tells a moment, in ticks, and takes the list's first pair where it is due by this moment.
    pub fn next(&mut self, to: u64) -> Option<Due>
        requires { to < 2 ^ 62 }
        ensures taken { TakesFirst to self.old.pairs self.new.pairs result }
        ensures inode { IfSome result (λ pair. pair.inode < self.old.inodes) }
        ensures told { self.new.told ≡ max self.old.told to }
        ensures inodes { self.new.inodes ≡ self.old.inodes }
        ensures order { AreInOrder self.new.pairs }
    {
        self.told = self.told.max(to);
        self.filed.take(to)
    }

    /// Takes the list's first pair, whenever it is due.
    pub fn first(&mut self) -> Option<Due>
        ensures taken { MatchOption result ((self.old.pairs ≡ []) × (self.new.pairs ≡ [])) (λ pair. self.old.pairs ≡ pair ∷ self.new.pairs) }
        ensures inode { IfSome result (λ pair. pair.inode < self.old.inodes) }
        ensures told { self.new.told ≡ self.old.told }
        ensures inodes { self.new.inodes ≡ self.old.inodes }
        ensures order { AreInOrder self.new.pairs }
    {
        let taken = self.filed.take(u64::MAX);
        if taken.is_none() {
            // A pair that was taken early left the base in its slot, and what is due before that would be late.
            self.filed.base = self.told;
        }
        taken
    }
}
