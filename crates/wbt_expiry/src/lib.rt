//! Which inode is written next for its age: a waiting list of inodes, each with the moment from which on it is due.
//!
//! A wheel holds for each waiting inode the moment, in ticks, at which it is due. It hands them out in order of that moment,
//! and those that are due at once in order of their numbers. The pairs are kept as lists by index in a timing wheel of four
//! levels with 64 slots: a slot of the lowest level is one tick long, one of each higher level as long as 64 of the level
//! below it, so that four levels reach `2^24` ticks far, which is four hours and a half.
//!
//! A put costs the same however many inodes wait. A take finds the first slot that isn't empty by a bit for each slot, without
//! a walk over the slots. Where that slot is of a higher level, its pairs are filed anew in lower ones first, which befalls a
//! pair three times at most. Pairs that are due at one moment are walked over at each take. Two things cost more. Where
//! moments come so late that a put is too far from the base that the pairs are filed from, all pairs are filed anew. And
//! `first` can leave the base after the greatest moment told: what is put then and due before the base is late, and late pairs
//! are walked over at each take. That ends when time comes there, or where `first` finds that no inode waits.
//!
//! A caller keeps one wheel for each flusher, and uses what it stands for: the list of waiting pairs, and the greatest moment
//! that it was told.
//!
//! ```
//! use wbt_expiry::{Due, Wheel};
//!
//! let mut wheel = Wheel::make(rt.alloc(), 3, 0)?;
//! assert_eq!(rt; wheel.put(2, 70), true);
//! assert_eq!(rt; wheel.put(1, 70), true);
//! // An inode that waits already is not put again.
//! assert_eq!(rt; wheel.put(1, 80), false);
//! // No inode is due one tick earlier; of two that are due at once the one of the smaller number comes first.
//! assert_eq!(rt; wheel.next(69), None);
//! assert_eq!(rt; wheel.next(70), Some(Due { due: 70, inode: 1 }));
//! ```
#![tactic(auto)]

mod due;
mod filed;
mod lists;
mod marks;
mod moves;
mod slots;
mod walks;
mod wheel;

pub use due::Due;
pub use wheel::{REACH, Wheel};
