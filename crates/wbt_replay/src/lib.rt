//! The ordered run of a trace: its own order of steps, one after another, and the journal that tells them.
//!
//! The layer above calls `replay` for the journal of a trace, whose text `wbt_journal::print` writes. Who needs the run move by move has
//! its machine by `machine_of`, its rotation by `round_of`, and makes its moves by `advance`. What the run is stands in `wbt_replay_order`;
//! its laws are shown of that definition, in the layers between, and `replay` hands them on. `wbt_replay_worked` has runs worked out byte
//! for byte.
//!
//! ```
//! use wbt_replay::replay;
//! use wbt_journal::Ending;
//!
//! // A trace as `wbt_trace_text::read_trace` answers it: one task that writes two pages.
//! let journal = replay(alloc, &trace)?;
//! assert_eq!(rt; journal.ending, Ending::Done);
//! // The run made 23 steps, each with its count and the bound, and left no page.
//! assert_eq!(rt; (journal.steps.as_slice().len(), journal.left.as_slice().len()), (23, 0));
//! ```
#![tactic(auto)]

mod clock;
mod cpus;
mod opening;
mod order;
mod ordered;
mod ready;
mod round;
mod strict;
mod turns;

pub use opening::machine_of;
pub use order::{advance, is_ended};
pub use ordered::{bases_of, ending_of, replay};
pub use round::round_of;
