//! The ordered run in memory that doesn't grow: a machine that forgets the steps and entries that it has told goes on as the one that
//! keeps them all.
//!
//! ```text
//! ghost use Rattle.wbt_replay_cut.specs.Laws.{AdvanceIsCut};
//!
//! // What a run does next doesn't depend on what was cut of its lists. The call does nothing: its contract is the law.
//! fn cited()
//!     ensures { AdvanceIsCut }
//! {
//!     wbt_replay_cut::laws::advance_is_cut();
//! }
//! ```
#![tactic(auto)]

pub mod laws;
