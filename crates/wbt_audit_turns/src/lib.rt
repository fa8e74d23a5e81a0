//! Whether turns did what they may do: checks where they are due and as the law decides, writes in order, waiting lists, flights, the
//! ledger of each page, what is left, and the ending.
//!
//! Each `X_fault` is the first line at fault by one point.
//!
//! ```
//! use wbt_audit_turns::{ending::ending_fault, flights::flights_fault};
//!
//! // `trace` is one that `wbt_trace_text::read_trace` answered, `journal` one that `wbt_journal_reader::read_journal` did.
//! assert_eq!(rt; flights_fault(alloc, &trace, &journal)?, None);
//! // Where the run didn't end as the journal says, the answer is the number of its line `end`.
//! if let Some(line) = ending_fault(alloc, &trace, &journal)? {
//!     println!(rt; "line {line}")?;
//! }
//! ```
#![tactic(auto)]

pub mod asked;
pub mod bound;
pub mod checks;
pub mod ending;
pub mod flights;
pub mod flusher;
pub mod ledger;
pub mod machine;
pub mod marks;
pub mod named;
pub mod numbers;
pub mod pages;
pub mod plan;
pub mod side;
pub mod waits;
