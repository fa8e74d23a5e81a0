//! The texts of traces, line by line: reading and writing them.
//!
//! The layers above read a trace from its text with `read_trace`, and write it with `write_trace`. Each trace that is read is lawful,
//! `IsLawful` of `specs/Lawful.antt` of `wbt_trace`, which is what they ask of a trace.
//!
//! ```
//! use wbt_trace::DEFAULT_RATIO;
//! use wbt_trace_text::{TraceFault, read_trace};
//!
//! // A machine of two CPUs with 1000 available pages. What isn't said has its default.
//! match read_trace(alloc, b"cpus 2\navail 0 1000\n") {
//!     Ok(trace) => assert_eq!(rt; (trace.cpus, trace.settings.ratio), (2, DEFAULT_RATIO)),
//!     Err(fault) => println!(rt; "{fault:?}")?,
//! }
//! // There are at most 64 CPUs.
//! let fault = TraceFault::OutOfRange { line: 1 };
//! assert_eq!(rt; read_trace(alloc, b"cpus 65\n").err(), Some(fault));
//! ```
#![tactic(auto)]

mod accept;
mod builder;
mod fault;
mod happens;
mod kind;
mod line;
mod once;
mod read;
mod things;
mod whole;
mod write;

pub use fault::{Missing, TraceFault};
pub use read::{read_trace, text_has_one_answer};
pub use write::{write_trace, written_is_read};
