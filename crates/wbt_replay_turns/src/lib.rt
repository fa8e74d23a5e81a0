//! Laws of the ordered run: when its clock moves, that order lines are obeyed, whose turn comes without them, and which steps a turn makes.
//!
//! ```text
//! ghost use Rattle.wbt_replay_turns.specs.Laws.{RunsKeepTime};
//!
//! // RunsKeepTime = (trace : Trace) → IsLawful trace → StaysInRange trace → HasEnded trace → ClockIsRight trace
//! // So the clock of a run moves by tick lines and where nobody can do anything. The call does nothing: its contract is the law.
//! fn cited()
//!     ensures { RunsKeepTime }
//! {
//!     wbt_replay_turns::laws::runs_keep_time();
//! }
//! ```
#![tactic(auto)]

pub mod laws;
