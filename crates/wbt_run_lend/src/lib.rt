//! The workers of a run before their first turn, and what they leave.
//!
//! ```text
//! lend      the CPUs' sides before any turn: writers, flushers with a disk each, an empty log; and the disks given back
//! workers   each side with its CPU's part of the seats; and what the sides leave: logs and disks
//! ```
//!
//! ```
//! use wbt_io::ModelRack;
//! use wbt_run_lend::{give_all, make_sides};
//!
//! // A lawful trace, opened at 1; `first` are the first limits of its global domain. Each side has writers, and a disk for each flusher.
//! let mut rack = ModelRack::make();
//! let sides = make_sides(alloc, &trace, 1, &first, &mut rack)?;
//! give_all(sides, &mut rack);
//! assert_eq!(rt; rack.pages, 0);
//! ```
#![tactic(auto)]

mod lend;
mod workers;

pub use lend::{give_all, give_posts, make_sides};
pub use workers::{make_workers, take_logs};
