//! The pauses of writers, and the decision of a check.
//!
//! Each call is its law as an exact formula, refuses nothing and takes no memory. The layers above make `Reads` of what
//! they loaded, and do what `decide` says: let the writer go on with so many pages, or make it pause. What holds of every
//! decision is in `laws`. `finish` is the part of it that other laws share: the decision by a `Rule`, whatever made the rule.
//! A tick is a millisecond.
//!
//! ```
//! use wbt_pause::{DomainRead, Kind, Limits, Reads, Task, decide, first_estimate};
//!
//! // A domain has 17000 dirty pages, more than the 14990 up to which writers run free. A writer that dirtied 1000 is checked.
//! let limits = Limits { thresh: 19995, bg: 9985, hard: 19995 };
//! let global = DomainRead { limits, dirty: 17000, wb_thresh: 19995 };
//! let reads = Reads { global, cgroup: None, wb_dirty: 17000, cpus: 4, cap: 1024 };
//! let task = Task { nr_dirtied: 1000, nr_dirtied_pause: 1000, paused_when: 0 };
//! let decision = decide(&reads, &first_estimate(1), task, 1000);
//! // It pauses for 38 ticks, and goes on with 250 pages.
//! assert_eq!(rt; (decision.kind, decision.pause, decision.left), (Kind::Go, 38, 250));
//! ```
#![tactic(auto)]

mod check;
mod decision;
mod go;
pub mod laws;
mod pauses;
mod reads;
mod rule;

pub use check::decide;
pub use decision::{Decision, Kind};
pub use pauses::{MinPause, max_pause, min_pause, poll_interval};
pub use reads::{Reads, Task};
pub use rule::{Rule, finish};

// What a caller of `decide` makes its arguments of.
pub use wbt_estimate::{Estimate, first_estimate};
pub use wbt_num::Limits;
pub use wbt_position::DomainRead;
