//! Traces: what a machine has, and what its tasks do.
//!
//! The layers above find in `Trace` what one says. `wbt_trace_text` reads traces and writes them. Each trace that is read is lawful,
//! `IsLawful` of `specs/Lawful.antt`, which is what they ask of a trace.
//!
//! ```
//! use wbt_trace::{LEAST_BULK_PAGES, generate};
//!
//! // The trace of the least bulk run: four CPUs, two disks, and four tasks that each write all pages of an inode of their own.
//! let trace = generate(alloc, LEAST_BULK_PAGES)?;
//! assert_eq!(rt; (trace.cpus, trace.inodes.as_slice().len()), (4, 4));
//! ```
#![tactic(auto)]

mod bulk;
mod ranges;
mod trace;
mod writers;

pub use bulk::{BULK_AVAIL, LEAST_BULK_PAGES, generate};
pub use ranges::{
    DEFAULT_BACKGROUND_RATIO, DEFAULT_RATIO, MOST_AVAIL_PAGES, MOST_COUNT, MOST_DEVICE_RATE,
    MOST_EXPIRE, MOST_FIRST_RATE, MOST_PERCENT, MOST_SETTING_BYTES,
};
pub use trace::{
    Action, Avail, Cgroup, Context, Device, FirstEstimate, FlusherLine, Inode, Order, Pace,
    TaskLine, Trace,
};
pub use writers::{Writer, Writers};
