//! A run of a trace over threads, and its journal.
//!
//! ```text
//! running   a run: a kit for the trace, the work, and the journal with what is left in the closed throttle
//! working   the work: workers together, then the drain and the sweep, then the notes of all
//! meeting   a gate that tests hold threads with
//! ```
//!
//! The crates below have what it is made of:
//!
//! ```text
//! wbt_run_lend       each CPU's side before any turn, with its part of the seats; and what the sides leave: logs and disks
//! wbt_run_beside     the threads: a worker for each CPU, and the timer's
//! wbt_run_together   workers beside each other, their seats together again, and the notes of all
//! wbt_run_drain      the drain and the sweep
//! wbt_run_close      the journal of what all told and of what is left in the closed throttle: lawful for the trace
//! ```
//!
//! No fact spans two seats before they are joined. What each worker did is told by its log; after the join one record says where the sides
//! of all CPUs stand, the drain and the sweep keep it, and from it the journal is lawful.
//!
//! ```
//! use wbt_io::{FreeGate, ModelRack, RealClock};
//! use wbt_run::{RunEnd, run};
//!
//! // A lawful trace, a clock, a gate that stops nobody, and a rack of disks. Where it returns, the journal is lawful for the trace.
//! let mut rack = ModelRack::make();
//! match run(&rt, alloc, &trace, &clock, &FreeGate, &mut rack) {
//!     RunEnd::Finished(journal) => println!(rt; "{:?}, {} pages written", journal.ending, rack.pages)?,
//!     RunEnd::Faulted(_) | RunEnd::Spent(_) => println!(rt; "a disk or a CPU came to its end")?,
//!     RunEnd::NoMemory => println!(rt; "no memory")?,
//! }
//! ```
#![tactic(auto)]

mod meeting;
mod running;
mod working;

pub use meeting::MeetingGate;
pub use running::{RunEnd, run};
pub use working::work;
