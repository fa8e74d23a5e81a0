//! The ordered run as a list of changes: what each move does, with the things that it is about, and the state after as a function of the changes.
//!
//! ```text
//! ghost use Rattle.wbt_replay_changes.specs.Laws.{MovesAreChanges};
//!
//! // Each move of a turn makes of a state what its changes make of it. The call does nothing: its contract is the law.
//! fn cited()
//!     ensures { MovesAreChanges }
//! {
//!     wbt_replay_changes::laws::moves_are_changes();
//! }
//! ```
#![tactic(auto)]

pub mod laws;
