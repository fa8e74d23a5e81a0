//! A CPU's side of a run over threads: its writers and flushers take turns in rotation, and its worker goes on until all tasks have ended
//! or it is cut off; and the timer's worker.
//!
//! ```
//! use wbt_run_worker::{Condition, Worker};
//!
//! // What the workers of two CPUs share, of which each has a voice: this one's is for CPU 0.
//! let (condition, mut first) = Condition::make(alloc, 2)?;
//! let voice = condition.signals.split(&mut first);
//! // `seats` are the CPU's own, `side` has its writers, its flushers and its log. It returns when its side has ended, and tells how.
//! let mut worker = Worker { seats, side, voice, writes: true, in_turn: false };
//! worker.work(&hands, &condition);
//! println!(rt; "{:?}", worker.side.end)?;
//! ```
#![tactic(auto)]

mod condition;
mod round;
mod side;
mod ticking;
mod worker;

pub use condition::Condition;
pub use round::{JobOutcome, MOST_REST, Round, job_of};
pub use side::{CpuSide, End, Job, Post, Stand};
pub use ticking::TimerWorker;
pub use worker::Worker;
