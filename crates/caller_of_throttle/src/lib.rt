//! An example of who calls a throttle: two CPUs, each on a thread of its own, dirty pages and clean them.
//!
//! Its line in `crates.txt` is
//!
//! ```text
//! caller_of_throttle: wbt_num wbt_io wbt_counter wbt_grant wbt_table atomic_table
//! ```
//!
//! `machine` says what the throttle is made for, `split_last` gives a CPU a seat of its own, and a worker dirties, claims, completes
//! and settles. `life` is a throttle's whole life, under a gate that may stop either CPU before any step: what it counts at the end
//! is within the bound, as is read from the contracts of the calls. The program `table_bench` lives such a life, and times the calls.
//!
//! ```
//! use caller_of_throttle::life::life;
//! use wbt_io::{FreeGate, HaltGate};
//!
//! // Two threads dirty 32 pages each and clean them, and no page is left.
//! assert_eq!(rt; life(&rt, rt.alloc(), &FreeGate)?, 0);
//! // A gate that lets each CPU make nine steps leaves eight: three that each has dirtied, and one that each has begun.
//! assert_eq!(rt; life(&rt, rt.alloc(), &HaltGate { halt: 9 })?, 8);
//! ```
#![tactic(auto)]

pub mod count;
pub mod life;
pub mod machine;
pub mod seats;
pub mod worker;
