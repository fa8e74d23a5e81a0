//! The writers of a CPU: what each task writes next, what the CPU counts for its writers, whose turn it is, and the turn.
//!
//! ```text
//! WriterCpu    make: the writers before any turn
//!              turn: a check that is due, a rest, or a write of a task's next page
//! Tasks        the tasks as the CPU sees them: whose turn it is, what it is, and what it leaves
//! ```
//!
//! A turn is one step of one task, over the words that all threads share:
//!
//! ```text
//! put          inodes that found their device's queue full are put again
//! choose       after the task of the last turn, the first that hasn't ended and doesn't rest; else until when all rest
//! check        the limits and counts of the writer's domains and context are loaded, then its fractions and its estimate are
//!              read; it decides by these alone, in a context of a strict device by the strict rule, its entry names them, and
//!              the writer gets the pages that it may dirty
//! rest         the task rests from the moment that its turn began, as its action says, or before its next page as its pace says
//! write        the task's next page is dirtied; was it clean, then its counters are settled, each fold is told, and at last its
//!              inode is marked, and put into its device's queue where it had no mark
//! ```
//!
//! The gate is asked before each step; where it says no the turn ends there, and what was told stands. A turn takes its memory
//! first: where there is none, nothing is done. Once every task has ended a turn only puts the inodes that wait: it takes no memory,
//! and asks no clock. The kinds of its steps are a word of a turn as `wbt_turns` has it, or a first part of one where the gate said no.
//!
//! After each entry the tasks and counts are the side that a journal shows there (`side_of`). A task that has no page left to write
//! and no check due ends there, unless it rests last: then it ends with that rest.
//!
//! ```
//! use wbt_kit::Turn;
//! use wbt_writer::WriterCpu;
//!
//! // The writers of CPU 0, where a task has two pages to write. `first` are the first limits of the global domain, and `hands` has the
//! // kit, the clock and the gate; `seats` are the CPU's own, and `log` is its log.
//! let mut writers = WriterCpu::make(alloc, &trace, 0, &first)?;
//! match writers.turn(&hands, &mut seats, &mut log) {
//!     Turn::Stepped => println!(rt; "{} entries", log.entries.as_slice().len())?,
//!     Turn::Resting { now, until } => println!(rt; "{} ticks of rest", until - now)?,
//!     _ => println!(rt; "no further turn, or no memory")?,
//! }
//! ```
#![tactic(auto)]

mod check;
mod choose;
mod cpu;
mod lines;
mod loads;
mod opening;
mod put;
mod reads;
mod task;
mod tasks;
mod turn;
mod work;
mod write;

pub use choose::Chosen;
pub use cpu::WriterCpu;
pub use task::{Next, TaskPlace};
pub use tasks::{TaskJob, Tasks};
