//! The crew of a run: the seats of a kit in parts, one for each CPU, and what they tell when they are together again.
//!
//! `split_each` moves each CPU to seats of its own, for a thread each; what is left has the timer. `join_each` takes such seats in,
//! one after another: the records, notes, stakes, rooms and rights of all are then in one place. What each CPU and the timer noted
//! is there as if it had been noted there, and a turn on seats that were taken in may be taken as one of its CPU; so the notes tell
//! of a run what its journal is judged by. `left_in` reads what is left out of a closed throttle. The laws say what a kit of a
//! trace has at the opening.
//!
//! ```text
//! make  ->  split_each  ->  turns on each part   ->  join_each  ->  turns on what came together  ->  close, left_in
//!           what is left    turns of the timer   ->  join
//! ```
//!
//! ```
//! use wbt_run_seats::{join_each, split_each};
//!
//! // `trace` has one CPU; `kit` and `seats` are those of `Kit::make`. A thread takes each part, and what is left has the timer.
//! let parts = split_each(&rt, alloc, &kit, &mut seats, 1)?;
//! assert_eq!(rt; (parts.len(), seats.cpu.holds(0)), (1, false));
//! join_each(&rt, &kit, &mut seats, parts);
//! assert_eq!(rt; seats.cpu.holds(0), true);
//! ```
#![tactic(auto)]

mod apart;
mod join;
pub mod laws;
mod left;
mod rights;
mod split;

pub use apart::{Apart, take_notes, take_records};
pub use join::join_each;
pub use left::left_in;
pub use rights::publishes_all;
pub use split::split_each;
