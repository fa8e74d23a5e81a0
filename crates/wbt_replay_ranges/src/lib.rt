//! Laws of the ordered run: each state of a lawful trace's run is in range, so each number fits its type and each name is there.
//!
//! ```text
//! ghost use Rattle.wbt_replay_ranges.specs.Laws.{RunsStayInRange};
//!
//! // RunsStayInRange = (trace : Trace) → IsLawful trace → StaysInRange trace
//! // So each state of every lawful trace's run is in range. The call does nothing: its contract is the law.
//! fn cited()
//!     ensures { RunsStayInRange }
//! {
//!     wbt_replay_ranges::laws::runs_stay_in_range();
//! }
//! ```
#![tactic(auto)]

pub mod laws;
