//! A flusher's turns over the words that all threads share.
//!
//! ```text
//! Flusher    a flusher between two turns, with its disk: `make`, `turn`, `into_disk`
//! FlusherPlan  its place in its trace, and the things that it works on
//! FlusherWork  where it stands: idle, scanning, flying a batch, or giving one back; and what it keeps
//! ```
//!
//! A turn is one of an idle flusher (`turn`, `background`, `estimates`, `weigh`, `take`, `age`, `idle`), of one that scans (`scan`, `close`, `hand`), of one
//! whose batch flies (`flight`, `landing`, `shares`), or of one that gives a batch back, as its disk failed to write it (`back`). The
//! layer above turns a flusher again and again, with seats that hold its CPU, and lets time go by where it rests.
//!
//! ```
//! use wbt_flusher::Flusher;
//! use wbt_kit::Turn;
//!
//! // Flusher 0 of the trace, with its disk, from moment 1 on. `first` are the first limits of the global domain, `hands` has the kit, the
//! // clock and the gate; `seats` are those of its CPU, and `log` is the CPU's log. Where memory is refused the disk comes back.
//! let Ok(mut flusher) = Flusher::make(alloc, &trace, 0, disk, &first, 1) else { return Ok(()); };
//! // One turn, which isn't in the drain: its answer is as a writer's, or `Turn::Faulted` where the disk failed as often as it may.
//! let turn = flusher.turn(&hands, &mut seats, false, &mut log);
//! assert_eq!(rt; turn, Turn::Stepped);
//! let disk = flusher.into_disk();
//! ```
#![tactic(auto)]

mod age;
mod back;
mod background;
mod close;
mod estimates;
mod flight;
mod flusher;
mod hand;
mod idle;
mod landing;
mod opening;
mod plan;
mod queue;
mod scan;
mod shares;
mod take;
mod tally;
mod turn;
mod weigh;
mod work;

pub use flusher::Flusher;
pub use plan::FlusherPlan;
pub use tally::{Tallies, Tally};
pub use work::{Flight, FlusherWork, Phase, Return};
