//! Turns that the first CPU of a trace takes, for tests of them: of its writers and of its first flusher, in an order that the test gives.
//! The crates of tests of turns stand on this.
//!
//! ```text
//! moves    turns to take: whose, and after how many ticks
//! turning  one turn after another, as long as one may follow
//! taken    what came of the turns of a trace's text, and the log
//! ```
#![tactic(auto)]

pub mod moves;
pub mod taken;
mod turning;
