//! The words of a throttle, which threads change by single atomic steps, under one rule: between any two steps of any threads
//! words and records are a state of the step relation that meets its rule.
//!
//! `Throttle` has the words. A `CpuSeat` has the records of the CPUs that it holds: what they did, owe, hold and have
//! loaded, as `wbt_grant` says. `make` gives one seat that holds all; `split` moves one CPU, or the timer, into a seat of its
//! own, which another thread may take; `join` brings seats together, and `close` tells with a seat that holds all how the words
//! stand. A call makes the steps that its documentation names, and no call but `make` and `split` is handed an allocator. None waits.
//!
//! ```
//! use wbt_io::FreeGate;
//! use wbt_table::{Counter, Dirtied, Throttle};
//!
//! // A layout of two CPUs, with writer 0 on CPU 0. CPU 1 gets a seat of its own, for another thread.
//! let (throttle, mut seat) = Throttle::make(alloc, layout)?;
//! let other = throttle.split(alloc, &mut seat, 1)?;
//! // Writer 0 dirties page 7. Its CPU owes an event to each counter of the page, and settles it.
//! assert_eq!(rt; throttle.dirty(&mut seat, 0, 7), Ok(Dirtied::Fresh));
//! assert!(rt; throttle.settle(&mut seat, 0, &FreeGate).all);
//! throttle.join(&mut seat, other);
//! let census = throttle.close(seat);
//! assert_eq!(rt; census.local(0, Counter::Domain(0)), 1);
//! ```
#![tactic(auto)]

mod answer;
mod census;
mod held;
mod inodes;
mod layout;
mod life;
mod limits;
mod pages;
mod rule;
mod seat;
mod settle;
mod state;
mod steps;
mod words;

pub use answer::{Back, Claim, Dirtied, Loaded, Put, Settled, Spent, Triple};
pub use census::{Census, Owed};
pub use layout::{Layout, Place, Writer};
pub use seat::{CpuSeat, Throttle};
pub use wbt_counter::{Count, Counter, Fold};
pub use wbt_grant::Who;
