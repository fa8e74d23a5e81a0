//! Three words by which several workers tell each other when to end: a bell, which any of them may ring, a count of those that still write, and
//! one of those that are still there. Each worker has a voice of its own, and its leave to write, and to be there, is taken back once. All
//! operations of all voices stand in one history. A voice notes each of its own with its answer and its place there, after all that had been
//! made by anyone. When all voices are together again their notes are that history, and each answer in it is what stood then: who didn't hear the
//! bell looked before it was rung, and nobody wrote exactly if each worker had said so before.
//!
//! ```text
//! let (signals, mut voice) = Signals::make(alloc, 1)?;
//! let mut other = signals.split(&mut voice);
//! signals.has_written(&mut other);
//! signals.leave(&mut other);
//! signals.ring(&mut other);                    // by one thread
//! let stops = signals.is_rung(&mut voice);     // by another
//! signals.join(&mut voice, other);
//! signals.learn(&mut voice);                   // each answer was true
//! ```
#![tactic(auto)]

mod rule;
mod signals;
mod words;

pub use rule::{Act, Note};
pub use signals::{Signals, Voice};
