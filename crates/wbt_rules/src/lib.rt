//! What a turn looks up and decides, once for the ordered run and for the threads: things of a trace by their numbers, the
//! thresholds of a domain at a moment, what is read of a domain for a context, whether a context is one of a strict device, a
//! flusher's chunk, and the ticks between turns.
//!
//! The layers above call these wherever a turn needs them, and their definitions cite those that stand here. No call takes
//! memory, and none keeps anything for the next.
//!
//! ```
//! use wbt_limits::Pair;
//! use wbt_rules::{chunk_of, limits_after};
//!
//! // A device writes 25600 pages a second, and the hard limit is 19995: a flusher claims at most 3072 pages before it hands them over.
//! assert_eq!(rt; chunk_of(25600, 19995), 3072);
//! // Memory went: the threshold is 9997, the hard limit was 19995, and 9000 pages are dirty. It comes down by a 32nd of the way.
//! let limits = limits_after(Pair { thresh: 9997, bg: 4992 }, 19995, 9000);
//! assert_eq!(rt; (limits.thresh, limits.hard), (9997, 19683));
//! ```
#![tactic(auto)]

mod age;
mod first;
mod flusher;
pub mod laws;
mod limits;
mod moments;
mod pace;
mod read;
mod scan;
mod strict;
mod things;

pub use age::{DEFAULT_EXPIRE, EXPIRE_TICKS, MOST_NOTICED, due_after, expire_of, is_ageing};
pub use first::{first_by, first_estimate};
pub use flusher::{chunk_at, chunk_of, has_landed, is_or_was_over, is_within_chunk, quota_of};
pub use limits::{avail_at, first_limits, limits_after, thresholds_at};
pub use moments::{
    ESTIMATE_AGE, FLUSHER_REST, MOST_FAULTS, PERIOD_TICKS, RETRY_REST, TIMER_REST, next_period,
    periods_by,
};
pub use pace::{pause_of, since_after};
pub use read::part_read;
pub use scan::{Scan, page_at, place_after};
pub use strict::{is_over_own, is_strict};
pub use things::{
    context_device, context_of, device_at, device_of, domains_of, end_of, first_of, flusher_device,
    greatest_share, group_of, inode_at, leads, least_shares, max_share, rate_of,
};
