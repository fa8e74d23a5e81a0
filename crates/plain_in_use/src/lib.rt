//! Calls of the program over memory that start no thread, for tests of it: each makes one call, and says by no clause what comes of it.
//!
//! ```text
//! words    the words of a call
//! outcome  what came of a call
//! plain    the calls
//! lines    lines of a text, word by word
//! ```
#![tactic(auto)]

mod lines;
mod outcome;
mod plain;
mod words;

pub use lines::{count_of, number, positive_of, sum_of};
pub use outcome::Outcome;
pub use plain::{run, run_on, run_whole, serve};
pub use words::words_of;
