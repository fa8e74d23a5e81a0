//! A walk over the lines of a journal, for those who judge it: what an entry did, in which line, and on which CPU; and what they count in.
//!
//! The layers above each judge by some points, and share no state but this.
//!
//! ```
//! use wbt_audit_walk::walk::Walk;
//!
//! // The folds of a journal, each with its line and its CPU. A step whose `act` is None begins the part of a CPU.
//! let mut walk = Walk::start(&journal)?;
//! while let Some(step) = walk.next()? {
//!     if let Some(fold) = step.act.and_then(|act| act.fold()) {
//!         println!(rt; "line {}: CPU {} folds {} pages", step.line, step.cpu, fold.delta)?;
//!     }
//! }
//! ```
#![tactic(auto)]

pub mod act;
pub mod gather;
pub mod lines;
pub mod lists;
pub mod newest;
pub mod places;
pub mod table;
pub mod things;
pub mod walk;
