//! Reading a journal from its text, line by line.
//!
//! A line's bytes are fields, its fields are a row, and a row is taken after those before it, or refused. The layers above read a
//! journal with `read_journal`, where its text has no steps.
//!
//! ```
//! use wbt_journal::Ending;
//! use wbt_journal_reader::{JournalFault, read_journal};
//!
//! // The journal of a run in which the timer published limits, and nothing else was done.
//! let text = b"timer\nlimits 0 1 19995 9985 19995\ncensus 0 0\ntotals 0 0\nend done\n";
//! match read_journal(alloc, text) {
//!     Ok(journal) => assert_eq!(rt; journal.ending, Ending::Done),
//!     Err(fault) => println!(rt; "{fault:?}")?,
//! }
//! // A text that ends too early lacks the line after its last.
//! let fault = JournalFault::BadLine { line: 2 };
//! assert_eq!(rt; read_journal(alloc, b"timer\n").err(), Some(fault));
//! ```
#![tactic(auto)]

mod accept;
mod builder;
mod field;
mod number;
mod read;
mod row;
mod values;
mod word;

pub use read::{JournalFault, read_journal};
