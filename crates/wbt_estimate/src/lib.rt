//! Estimates of a device's bandwidth and of its writers' rate limit, from samples at least 200 ticks apart.
//!
//! Each call is its law as an exact formula, and takes no memory. The layers above use the four rates of an `Estimate`:
//! checks pause writers by its average bandwidth and rate limit. That an estimate is a fold over its samples, and that no
//! rate passes what it follows, is in `laws`. A tick is a millisecond.
//!
//! ```
//! use wbt_estimate::{Sample, first_estimate, update};
//!
//! // Before any sample a device is held to write 25600 pages a second. In 200 ticks it writes 2000 pages, and its writers dirty as many.
//! let first = first_estimate(1);
//! let sample = Sample { now: 201, written: 2000, dirtied: 2000, ratio: 1024, below_setpoint: false };
//! // The bandwidth comes down towards 10000 pages a second, a little at a sample; its average and the rate limit don't move yet.
//! if let Some(second) = update(first, &sample) {
//!     assert_eq!(rt; (second.bw, second.avg, second.ratelimit), (24838, 25600, 25600));
//! }
//! // A sample that comes within 200 ticks is no update.
//! assert_eq!(rt; update(first, &Sample { now: 200, ..sample }), None);
//! ```
#![tactic(auto)]

mod bandwidth;
mod estimate;
pub mod laws;
mod ratelimit;

pub use estimate::{ESTIMATE_AGE, Estimate, Sample, first_estimate, update};
