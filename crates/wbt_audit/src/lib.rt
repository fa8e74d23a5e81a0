//! Whether the journal of a run is lawful for a trace; where it isn't, by which point and which line.
//!
//! ```
//! use wbt_audit::{Verdict, audit};
//! use wbt_journal_reader::read_journal;
//!
//! // `trace` is one that `wbt_trace_text::read_trace` answered, of a machine of one CPU whose tasks write nothing.
//! let text = b"timer\nlimits 0 1 19995 9985 19995\ncpu 0\ncensus 0 0\ntotals 0 0\nend done\n";
//! let Ok(journal) = read_journal(alloc, text) else { return Ok(()); };
//! match audit(alloc, &trace, &journal) {
//!     Ok(verdict) => assert_eq!(rt; verdict, Verdict::Lawful),
//!     Err(_) => println!(rt; "no memory")?,
//! }
//! // `Broken { clause: 14, line: 4 }` would say which point it breaks first, and the line of the journal that shows it.
//! ```
#![tactic(auto)]

pub mod laws;
mod unsettled;
mod verdict;

pub use verdict::{AuditEnd, Verdict, audit};
