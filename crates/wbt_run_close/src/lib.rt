//! The journal of a run: what its workers told, and what is left in the closed throttle.
//!
//! ```
//! use wbt_journal::Ending;
//! use wbt_num::Items;
//! use wbt_run_close::{Worked, close};
//!
//! // All workers of the trace have told `logs` and `lines`, and all is done. The journal is lawful for the trace.
//! let worked = Worked { cpus: Items::from_vec(logs), timer: Items::from_vec(lines), ending: Ending::Done };
//! let journal = close(alloc, &trace, kit, now, seats, worked)?;
//! println!(rt; "{} pages are left", journal.left.as_slice().len())?;
//! ```
#![tactic(auto)]

mod closing;

pub use closing::{Worked, close};
