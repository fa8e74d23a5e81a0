//! The ordered run of a trace, as a definition: how it opens, who makes the next move, when it ends, and the journal that it leaves;
//! what is claimed of it; and what every move keeps.
//!
//! No run is made here: `wbt_replay` makes it. The layers between prove the claims, each from what is shown here of one move.
//!
//! ```text
//! ghost use Rattle.wbt_replay_order.specs.Definition.Run.{journal_of};
//! ghost use Rattle.std.specs.Prelude.{◌≡◌, IfOk};
//! ghost use Rattle.wbt_trace.specs.Lawful.{IsLawful};
//!
//! // The one journal of a lawful trace, as a caller of `wbt_replay::replay` names it in a clause.
//! fn journal_of_run(alloc: Global, trace: &Trace) -> Result<Journal, NoMemory>
//!     requires { IsLawful trace.now }
//!     ensures { IfOk result (λ journal. journal ≡ journal_of trace.now) }
//! {
//!     replay(alloc, trace)
//! }
//! ```
#![tactic(auto)]

mod chance;
mod tally;

pub use chance::{Ahead, Chance, Found};
pub use tally::Tally;
