//! Thresholds: how many dirty pages a domain, a cgroup and a writeback context may have.
//!
//! Each call is its law as an exact formula, and takes no memory. The layers above use the thresholds that the timer
//! publishes, the limit that follows them, the part of a context, and the two words that hold the limits of a domain.
//! That thresholds don't fall where more pages are available, and what becomes of the hard limit, is in `laws`.
//!
//! ```
//! use wbt_limits::{follow_limit, freerun, thresholds};
//! use wbt_num::{Limits, Settings};
//!
//! // Of 100000 available pages a fifth is the threshold, and a tenth that of background writeback.
//! let settings = Settings { ratio: 20, bg_ratio: 10, bytes: 0, bg_bytes: 0 };
//! let pair = thresholds(100000, &settings, None);
//! // The hard limit stood at 25000, and comes down to the threshold by a 32nd of the way.
//! let hard = follow_limit(25000, pair.thresh, 0);
//! let limits = Limits { thresh: pair.thresh, bg: pair.bg, hard };
//! assert_eq!(rt; limits, Limits { thresh: 19995, bg: 9985, hard: 24844 });
//! assert_eq!(rt; freerun(&limits), 14990);
//! ```
#![tactic(auto)]

mod cgroup;
mod context;
mod domain;
pub mod laws;
mod limits;
mod words;

pub use cgroup::cgroup_avail;
pub use context::{wb_bg, wb_thresh};
pub use domain::{
    MIN_RATELIMIT_PAGES, PAGE_BYTES, Pair, RATIO_ONE, follow_limit, ratelimit_pages, thresholds,
};
pub use limits::{freerun, over_background};
pub use words::{join_limits, pack_hard, pack_thresh, sequence_of};
