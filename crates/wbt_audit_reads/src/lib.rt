//! Whether what the entries of a journal tell as read is what was there: folds and counts, limits, fractions, estimates, and the timer's lines.
//!
//! Each `X_fault` is the first line at fault by one point.
//!
//! ```
//! use wbt_audit_reads::{counts::counts_fault, folds::folds_fault};
//!
//! // `trace` is one that `wbt_trace_text::read_trace` answered, `journal` one that `wbt_journal_reader::read_journal` did.
//! assert_eq!(rt; folds_fault(alloc, &trace, &journal)?, None);
//! // Where a check tells a count that isn't the sum of the folds up to its version, the answer is the line that tells it.
//! if let Some(line) = counts_fault(alloc, &trace, &journal)? {
//!     println!(rt; "line {line}")?;
//! }
//! ```
#![tactic(auto)]

pub mod counts;
pub mod estimates;
pub mod folds;
pub mod follows;
pub mod fractions;
pub mod periods;
pub mod shares;
pub mod sums;
pub mod timer;
pub mod triples;
