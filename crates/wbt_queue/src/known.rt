//! What a pass knows of one device's queue. These types stand in contracts alone: no value of them is made.

use std::collections::LinkedList;

/// What was put and taken through one pass, the oldest first.
pub struct Part {
    /// The inode numbers that were put.
    pub puts: LinkedList<u32>,
    /// The inode numbers that were taken.
    pub takes: LinkedList<u32>,
}

/// What a pass knows of one device's queue.
pub struct Known {
    /// No other pass was ever made of this queue.
    pub alone: bool,
    /// Another pass took this one in. No pass that a caller holds says so.
    pub gone: bool,
    /// Its part of 2^32: who has them all knows each put and each take.
    pub stakes: u64,
    /// What this pass put and took itself.
    pub own: Part,
    /// What came by joins, each pass's part apart.
    pub joined: LinkedList<Part>,
}
