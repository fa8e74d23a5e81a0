//! Laws of the ordered run: it ends by itself, and a run that isn't cut off has written and cleaned every page.
//!
//! ```text
//! ghost use Rattle.wbt_replay_ends.specs.Laws.{RunsComplete};
//!
//! // RunsComplete = (trace : Trace) → IsLawful trace → StaysInRange trace → CompletesAll trace
//! // So a run that isn't cut off leaves no page. The call does nothing: its contract is the law.
//! fn cited()
//!     ensures { RunsComplete }
//! {
//!     wbt_replay_ends::laws::runs_complete();
//! }
//! ```
#![tactic(auto)]

pub mod laws;
