//! Strict devices: their contexts are held to their own part of a domain's threshold, even where the domain has room.
//!
//! A slow or untrusted device, as one over USB or FUSE, shall not fill memory that others need. `strict_position` is the position
//! ratio of a context of such a device: by the context's own pages, below and above the middle of its background threshold and its
//! threshold, and never above what the domain's pages allow. `strict_decide` is a check of such a context, and `decide_for` a check of any.
//! `strict_bound` is how many pages such a context has at most, and `laws` proves it over every list of steps and grants of
//! `wbt_grant`'s relation in which writers of the context are granted pages after small readings of it alone. Whoever `strict_decide`
//! doesn't let wait has such a reading.
//!
//! ```
//! use wbt_pause::{DomainRead, Kind, Limits, Reads, Task, decide, first_estimate};
//! use wbt_strict::strict_decide;
//!
//! // A domain has 5000 dirty pages, fewer than the 14990 up to which writers run free. A context with a threshold of 1000 has 1001.
//! let limits = Limits { thresh: 19995, bg: 9985, hard: 19995 };
//! let global = DomainRead { limits, dirty: 5000, wb_thresh: 1000 };
//! let reads = Reads { global, cgroup: None, wb_dirty: 1001, cpus: 4, cap: 1024 };
//! let task = Task { nr_dirtied: 32, nr_dirtied_pause: 32, paused_when: 0 };
//! // Its writers are free, but wait where its device is strict.
//! assert!(rt; decide(&reads, &first_estimate(1), task, 1000).kind == Kind::Free);
//! assert!(rt; strict_decide(&reads, &first_estimate(1), task, 1000).kind == Kind::Wait);
//! ```
#![tactic(auto)]

mod bound;
mod decision;
pub mod laws;
mod position;

pub use bound::strict_bound;
pub use decision::{decide_for, strict_decide};
pub use position::{FEW_PAGES, strict_position};
