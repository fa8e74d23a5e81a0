//! Laws of the ordered run: what its journal tells, point by point, where its states are in range and its moves follow the step relation.
//!
//! ```text
//! ghost use Rattle.wbt_replay_points.specs.Laws.{JournalsAreLegal};
//!
//! // JournalsAreLegal = (trace : Trace) → IsLawful trace → RunsWell trace → law.IsLegal trace (journal_of trace)
//! // So each run's journal is legal. The call does nothing: its contract is the law.
//! fn cited()
//!     ensures { JournalsAreLegal }
//! {
//!     wbt_replay_points::laws::journals_are_legal();
//! }
//! ```
#![tactic(auto)]

pub mod laws;
