//! What a turn is: its steps are a word over their kinds. Definitions for the ordered run and for the threads, and laws of turns that
//! follow one another.
//!
//! ```text
//! IsTurn        the word of a turn of a CPU: a check, a write, a test, or some work of a flusher on its inode
//! IsTimerTurn   that of a turn of the timer, which publishes the limits of all domains
//! IsWhole       words of whole turns, one after another: what a loop over turns keeps
//! IsCutOff      the same, where the last turn may be cut off: what is left in the end
//! ```
#![tactic(auto)]

pub mod laws;
