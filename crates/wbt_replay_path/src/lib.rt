//! Laws of the ordered run: its moves are steps and grants of the step relation, whose states are the run's.
//!
//! ```text
//! ghost use Rattle.wbt_replay_path.specs.Laws.{RunsFollowTheRelation};
//!
//! // RunsFollowTheRelation = (trace : Trace) → IsLawful trace → StaysInRange trace → HasEnded trace → IsFollowed trace
//! // So a run's moves are steps and grants of the relation. The call does nothing: its contract is the law.
//! fn cited()
//!     ensures { RunsFollowTheRelation }
//! {
//!     wbt_replay_path::laws::runs_follow_the_relation();
//! }
//! ```
#![tactic(auto)]

pub mod laws;
