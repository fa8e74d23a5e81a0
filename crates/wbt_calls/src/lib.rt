//! The laws for callers that aren't written in Rattle: what the exports of `wbt_c` and `wbt_page` hand on.
//!
//! Each call is one call of a crate below, with plain numbers in structs that C has too. It takes no memory and keeps nothing. What the call
//! below requires it tests: it answers a status, that of the first test that fails. It is `OK` exactly where all that is required holds
//! (`taken`); then the result is written, by the same definition as that of the call below. Where it isn't `OK` nothing is written.
//!
//! ```
//! use wbt_calls::{BAD_CPUS, OK, bound};
//!
//! let mut pages = 0;
//! assert!(rt; bound(19995, 4, 1, 1024, 1, &mut pages) == OK);
//! assert!(rt; pages == 21339);
//! assert!(rt; bound(19995, 0, 1, 1024, 1, &mut pages) == BAD_CPUS);
//! assert!(rt; pages == 21339);
//! ```
#![tactic(auto)]

mod allowance;
mod bounds;
mod check;
mod estimate;
mod limits;
mod parts;
mod pauses;
mod ranges;
mod ratios;
mod status;
mod types;

pub use allowance::{end_writer, first_writer, page_done, ratelimit_pages};
pub use bounds::{bound, error, strict_context_bound};
pub use check::{decide, strict_decide};
pub use estimate::{first_estimate, update_estimate};
pub use limits::{cgroup_thresholds, followed_limit, freerun, global_thresholds, setpoint};
pub use parts::{cgroup_available, context_background, context_threshold};
pub use pauses::{least_pause, longest_pause, poll_interval};
pub use ratios::{ratio, strict_ratio};
pub use status::{
    BAD_CAP, BAD_CGROUP, BAD_CONTEXT, BAD_CONTEXTS, BAD_CPUS, BAD_DOMAIN, BAD_ESTIMATE, BAD_FLAG,
    BAD_FRACTION, BAD_LIMIT, BAD_NOW, BAD_PAGES, BAD_PART, BAD_SAMPLE, BAD_SETTINGS, BAD_SHARES,
    BAD_WRITER, BAD_WRITERS, OK, TOO_EARLY,
};
pub use types::{
    Check, Counts, Decided, Domain, Knobs, Least, Measured, Rates, Share, Thresholds, Writer,
};
