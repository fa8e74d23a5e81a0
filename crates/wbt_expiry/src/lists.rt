//! Lists of numbers, each number in one list at most.
//!
//! The lists are kept by index: for each list its first number, for each number the one that stands after it and the list
//! that it is in. So a number goes in at the front, and the front goes out, without memory and at a cost that doesn't grow
//! with the lists. A mark for each list tells whether it is empty. A list has no order that callers know.

ghost use Rattle.std.specs.Prelude.{◌≡◌, ◌<◌, ◌≤◌, ◌^◌, length, replicate, set, IfOk, MatchOption, ltb, ℕ};
ghost use Rattle.wbt_expiry.specs.Lists.{home, no_list, IsEmpty, IsLeast};
ghost use Rattle.wbt_expiry.specs.Marks.{AreEmpty, IsFirstFilled};

use crate::marks::Marks;
use crate::walks::{least_on, number_before};
use std::alloc::{AllocError, Global};
use std::marker::Model;

/// The lists: four levels of 64 slots, the late list and the loose one.
pub const LISTS: u32 = 258;

/// `LISTS` lists of the numbers below a count. Contracts see the home of each number: the list that it is in, or `LISTS`.
#[derive(Drop)]
pub struct Lists {
    // The first number of each list; as many as there are numbers stands for none, here and in `nexts`.
    firsts: Vec<u32>,
    // The number that stands after each in its list.
    nexts: Vec<u32>,
    // The list that each number is in, or `LISTS` where it is in none.
    homes: Vec<u32>,
    // Which lists aren't empty.
    marks: Marks,
}

impl Model for Lists {
    ghost use Rattle.std.specs.Prelude.{List, ℕ};
    ghost use Rattle.wbt_expiry.specs.Marks.{AreMarked};

    ghost Value = { List ℕ };

    ghost view = { λ lists. lists.homes.items };

    ghost invariant = { λ lists. AreMarked lists.firsts.items lists.nexts.items lists.homes.items lists.marks };
}

impl Lists {
    /// Lists without numbers, for so many numbers.
    pub fn make(alloc: Global, numbers: u32) -> Result<Lists, AllocError>
        ensures { IfOk result (λ lists. lists ≡ replicate numbers no_list) }
    {
        let firsts = vec![in alloc; numbers; LISTS as usize]?;
        let nexts = vec![in alloc; numbers; numbers as usize]?;
        let homes = vec![in alloc; LISTS; numbers as usize]?;
        Ok(Lists {
            firsts,
            nexts,
            homes,
            marks: Marks::none(),
        })
    }

    /// Whether the number is in a list.
    pub fn has(&self, number: u32) -> bool
        requires { number < length self.now }
        ensures { result ≡ ltb (home self.now number) no_list }
    {
        self.homes[number as usize] < LISTS
    }

    /// The first place from a start on whose list in a level isn't empty; there is none exactly where all lists of the level
    /// are empty.
    pub fn first_filled(&self, level: u32, start: u64) -> Option<u64>
        requires level { level < 4 }
        requires start { start < 2 ^ 63 }
        ensures { MatchOption result (AreEmpty self.now level) (IsFirstFilled self.now level start) }
    {
        self.marks.first_from(level, start)
    }

    /// The number of the list that is due first, and of those that are due at once the least; there is none exactly where
    /// the list is empty. It walks over the list.
    pub fn least(&self, list: u32, dues: &[u64]) -> Option<u32>
        requires list { list < no_list }
        requires dues { length dues.now ≡ length self.now }
        ensures { MatchOption result (IsEmpty self.now list) (IsLeast dues.now self.now list) }
    {
        let first = self.firsts[list as usize];
        if first as usize == self.nexts.len() {
            return None;
        }
        Some(least_on(&self.nexts, dues, first))
    }

    /// Puts a number that is in no list into one.
    pub fn push(&mut self, list: u32, number: u32)
        requires list { list < no_list }
        requires number { number < length self.old }
        requires out { no_list ≤ home self.old number }
        ensures { self.new ≡ set self.old number list }
    {
        self.nexts[number as usize] = self.firsts[list as usize];
        self.firsts[list as usize] = number;
        self.homes[number as usize] = list;
        self.marks.put(list, true);
    }

    /// Takes a number of the list out of it; there is none exactly where the list is empty.
    pub fn pop(&mut self, list: u32) -> Option<u32>
        requires { list < no_list }
        ensures { MatchOption result (IsEmpty self.old list × (self.new ≡ self.old)) (λ number. (home self.old number ≡ list) × (self.new ≡ set self.old number no_list)) }
    {
        let number = self.firsts[list as usize];
        if number as usize == self.nexts.len() {
            return None;
        }
        let next = self.nexts[number as usize];
        self.firsts[list as usize] = next;
        self.homes[number as usize] = LISTS;
        self.marks.put(list, next as usize != self.nexts.len());
        Some(number)
    }

    /// Takes a number out of the list that it is in. It walks over the list.
    pub fn remove(&mut self, number: u32)
        requires { home self.old number < no_list }
        ensures { self.new ≡ set self.old number no_list }
    {
        let list = self.homes[number as usize];
        let first = self.firsts[list as usize];
        let next = self.nexts[number as usize];
        self.homes[number as usize] = LISTS;
        if first == number {
            self.firsts[list as usize] = next;
            self.marks.put(list, next as usize != self.nexts.len());
            return;
        }
        let before = number_before(&self.nexts, first, number);
        self.nexts[before as usize] = next;
    }
}
