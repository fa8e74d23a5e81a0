//! The end of a run over threads: the seats of all CPUs were brought together, and their flushers clean what is left.
//!
//! ```text
//! ending     how the sides of all CPUs ended
//! drain      flushers take turns in the drain, until each is done or turned no more
//! sweep      each inode is looked at once more: where its mark is clear it has no dirty page
//! laws       what all workers told, showed and noted when their seats are together again, and that their journal is lawful then
//! ```
//!
//! Writers do nothing here. A turn of a flusher is one of its CPU, whose record the seats have, so a log goes on to tell just what became of
//! its CPU's record. Of all workers it is said, when their seats are together:
//!
//! ```text
//! each CPU      its log tells just what its record and its notes got since its first turn
//! the timer     its log begins with the opening, and tells just what its record and its notes got
//! notes         those of all are together, and complete
//! the ending    done, halted, spent or faulted, with its cause
//! ```
//!
//! The layer above runs the workers, and states of them that they have worked so; with the closed throttle the law follows.
//!
//! ```
//! use wbt_run_drain::{drain::drain, ending::{all_ended, ending_of}, sweep::sweep};
//!
//! // All tasks ended: `sides` are those of all CPUs, in order, and `seats` hold all. The flushers clean what is left; where each was done,
//! // each inode is looked at once more.
//! drain(&hands, &trace, &mut seats, &mut sides);
//! if all_ended(&sides) {
//!     sweep(&hands, &trace, &mut seats, &mut sides);
//! }
//! // Done, halted, spent or faulted; an error where memory was refused.
//! println!(rt; "{:?}", ending_of(&sides)?)?;
//! ```
#![tactic(auto)]

pub mod drain;
pub mod ending;
pub mod laws;
pub mod sweep;
