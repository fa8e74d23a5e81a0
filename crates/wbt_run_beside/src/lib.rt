//! Workers beside each other: the timer's and those of all CPUs, each in a thread of its own as far as the machine gives threads.
//!
//! ```
//! use wbt_run_beside::work_beside;
//!
//! // `workers` has one for each CPU, with its part of the seats, and `seats` the timer's. All take their turns until the sides of all have
//! // ended. It returns only if they do.
//! work_beside(&hands, &condition, &mut seats, &mut timer, &mut workers);
//! for worker in &workers {
//!     println!(rt; "{:?}", worker.side.end)?;
//! }
//! ```
#![tactic(auto)]

mod beside;

pub use beside::work_beside;
