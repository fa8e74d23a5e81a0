//! A throttle in use, for tests of it: calls with what they need looked at before them, and throttles on which each call may be made at
//! any time. The crates of tests of a throttle stand on this.
//!
//! ```text
//! calls    page steps and payments, and seats split and joined
//! inodes   marks
//! counts   what a closed throttle tells
//! seats    seats of single CPUs and of the timer, and limits loaded and published
//! lone     a throttle that one CPU uses
//! pair     a throttle that two CPUs use, each by a seat of its own
//! timed    a throttle that a CPU and the timer use, each by a seat of its own
//! stage    two threads that take turns
//! waiting  how a thread waits for others
//! ```
//!
//! ```
//! use throttle_in_use::pair::Pair;
//! use wbt_table::{Claim, Dirtied};
//!
//! // A throttle of one page that two CPUs use. CPU 0 dirties the page, and pays all that it then owes.
//! let mut pair = Pair::open(alloc, 1)?;
//! assert_eq!(rt; pair.one_writes(), Some((Dirtied::Fresh, true)));
//! // CPU 1 claims and completes it; CPU 0, which holds no page, may ask too.
//! assert_eq!(rt; pair.two_claims(), Claim::Mine);
//! assert_eq!(rt; (pair.one_completes(), pair.two_completes()), (false, true));
//! ```
#![tactic(auto)]

pub mod calls;
pub mod counts;
pub mod inodes;
pub mod lone;
pub mod pair;
pub mod seats;
pub mod stage;
pub mod timed;
pub mod unready;
pub mod waiting;
