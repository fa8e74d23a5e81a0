//! The laws for callers in C: what `include/wbt.h` declares.
//!
//! Each export `wbt_X` hands on the call `X` of `wbt_calls`, with its contract: numbers in structs that C has too, a status that is `OK` exactly
//! where the numbers are taken, and nothing written where it isn't. So it has no `requires`. What remains for C to keep to is what a `&` and
//! a `&mut` say: each pointer is that of one whole struct or number, aligned, and what is written through one is read through no other.
//!
//! ```text
//! struct wbt_settings settings = { .ratio = 20, .bg_ratio = 10 };
//! struct wbt_thresholds pair;
//! uint64_t bound;
//!
//! /* The thresholds of 100000 available pages: 19995 and 9985. A status that isn't WBT_OK says what was out of range. */
//! if (wbt_global_thresholds(100000, &settings, &pair) != WBT_OK)
//!     return 1;
//! /* The bound on one CPU, with one writer that has at most 1024 pages left, and one context: 21067 pages. */
//! if (wbt_bound(pair.thresh, 1, 1, 1024, 1, &bound) != WBT_OK)
//!     return 1;
//! ```
#![tactic(auto)]

mod allowance;
mod bounds;
mod check;
mod estimate;
mod limits;
mod parts;
mod pauses;
mod ratios;

pub use allowance::{wbt_end_writer, wbt_first_writer, wbt_page_done, wbt_ratelimit_pages};
pub use bounds::{wbt_bound, wbt_error, wbt_strict_context_bound};
pub use check::{wbt_decide, wbt_strict_decide};
pub use estimate::{wbt_first_estimate, wbt_update_estimate};
pub use limits::{
    wbt_cgroup_thresholds, wbt_followed_limit, wbt_freerun, wbt_global_thresholds, wbt_setpoint,
};
pub use parts::{wbt_cgroup_available, wbt_context_background, wbt_context_threshold};
pub use pauses::{wbt_least_pause, wbt_longest_pause, wbt_poll_interval};
pub use ratios::{wbt_ratio, wbt_strict_ratio};
