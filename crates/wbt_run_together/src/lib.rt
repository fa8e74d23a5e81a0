//! The workers of a run beside each other, and their seats together again.
//!
//! ```text
//! together   workers beside each other, and their seats together again
//! gather     the workers in parts: their sides, and their seats, which come together
//! notes      the timer's notes take in those of the CPUs
//! ```
//!
//! No fact spans two seats before they are joined. After the join one record says where the sides of all CPUs stand, `AreStanding` of
//! `wbt_run_drain`. The drain and the sweep come between the two calls.
//!
//! ```
//! use wbt_run_together::{gather_notes, work_together};
//!
//! // A worker for each CPU of the trace, and the timer's, none of which took a turn. `sides` has room for those of all CPUs.
//! let apart = work_together(&hands, &trace, now, &condition, &mut seats, &mut timer, workers, &mut sides);
//! println!(rt; "{} sides ended", sides.len())?;
//! // The seats have then what all noted.
//! gather_notes(&rt, &trace, &kit, &mut seats, apart);
//! ```
#![tactic(auto)]

mod gather;
mod notes;
mod together;

pub use notes::gather_notes;
pub use together::work_together;
