//! The thresholds of a domain, and the limit that follows them.
//!
//! A setting is a percentage of the available pages or, where it is set, a number of bytes. The percentage is turned into
//! 4096ths, rounded down, and the threshold is that part of the available pages. In the global domain bytes are turned
//! into whole pages, rounded up; in a cgroup's domain they stand for their part of all available pages. A threshold is
//! cut at `MAX_LIMIT`, and a background threshold that is not below it becomes half of it.

ghost use Rattle.std.specs.Prelude.{◌≡◌, ◌+◌, ◌-◌, ◌/◌, ◌^◌, ◌<◌, ◌≤◌};
ghost use Rattle.wbt_num.specs.Limits.{IsLawful};
ghost use Rattle.wbt_limits.specs.Thresholds.{ratio_of, global_threshold, cgroup_ratio, threshold, thresholds_of, followed_limit, ratelimit_pages_of};

use wbt_num::{MAX_LIMIT, Settings, ceil_div, mul_div};

/// The bytes of a page.
pub const PAGE_BYTES: u64 = 4096;

/// The ratio that is the whole: ratios are numbers of 4096ths.
pub const RATIO_ONE: u64 = 4096;

/// The least number of fresh pages of one CPU after which a check is due.
pub const MIN_RATELIMIT_PAGES: u64 = 16;

/// The two thresholds of a domain, in pages.
#[derive(Clone, Copy, Debug, PartialEq, Eq)]
pub struct Pair {
    /// Writers are throttled towards this many pages.
    pub thresh: u64,
    /// Background writeback starts above this many pages.
    pub bg: u64,
}

/// The thresholds of a domain with so many available pages. `global_avail` is the number of available pages of the
/// global domain, given for a cgroup's domain.
#[tactic(auto, unfolding(crate::specs::Thresholds::thresholds_of, crate::specs::Thresholds::background_below))]
pub fn thresholds(avail: u64, settings: &Settings, global_avail: Option<u64>) -> Pair
    ensures value { result ≡ thresholds_of avail settings.now global_avail }
    ensures bg_below_thresh { 0 < result.thresh → result.bg < result.thresh }
    ensures in_range { result.thresh ≤ MAX_LIMIT }
    ensures lawful { IsLawful (record { thresh = result.thresh; bg = result.bg; hard = result.thresh }) }
{
    let thresh = threshold_from(settings.ratio, settings.bytes, avail, global_avail);
    let bg = threshold_from(settings.bg_ratio, settings.bg_bytes, avail, global_avail);
    Pair {
        thresh,
        bg: if bg >= thresh { thresh / 2 } else { bg },
    }
}

/// The hard limit after `limit`: up to the threshold at once, and down to it, or to the dirty pages where these are more,
/// by a 32nd of the way.
pub fn follow_limit(limit: u64, thresh: u64, dirty: u64) -> u64
    ensures value { result ≡ followed_limit limit thresh dirty }
    ensures at_least_thresh { thresh ≤ result }
    ensures in_range { thresh ≤ MAX_LIMIT → limit ≤ MAX_LIMIT → result ≤ MAX_LIMIT }
    ensures never_rises_above { thresh ≤ limit → result ≤ limit }
    ensures falls_by_a_32nd { thresh ≤ limit → limit ≤ result + (limit - thresh) / 2 ^ 5 }
{
    let target = thresh.max(dirty);
    if limit < thresh {
        thresh
    } else if limit > target {
        limit - ((limit - target) >> 5)
    } else {
        limit
    }
}

/// After so many fresh pages of one CPU a check is due, whichever of its writers made them: `max(16, thresh / (32 * cpus))`
/// of the global domain's first threshold.
pub fn ratelimit_pages(thresh: u64, cpus: u32) -> u64
    requires { 1 ≤ cpus }
    ensures value { result ≡ ratelimit_pages_of thresh cpus }
    ensures at_least { MIN_RATELIMIT_PAGES ≤ result }
{
    MIN_RATELIMIT_PAGES.max(thresh / (32 * cpus as u64))
}

// The threshold that a percentage and a number of bytes ask for, cut at the greatest limit.
#[tactic(auto, unfolding(crate::specs::Thresholds::threshold))]
fn threshold_from(percent: u32, bytes: u64, avail: u64, global_avail: Option<u64>) -> u64
    ensures value { result ≡ threshold percent bytes avail global_avail }
    ensures in_range { result ≤ MAX_LIMIT }
{
    let uncut = match global_avail {
        None => global_threshold_from(percent, bytes, avail),
        Some(global_avail) => {
            let ratio = cgroup_ratio_from(percent, bytes, global_avail);
            mul_div(ratio, avail, RATIO_ONE)
        }
    };
    if uncut < MAX_LIMIT as u128 {
        uncut as u64
    } else {
        MAX_LIMIT
    }
}

// The global domain's threshold before the cut, in pages.
#[tactic(auto, unfolding(crate::specs::Thresholds::global_threshold))]
fn global_threshold_from(percent: u32, bytes: u64, avail: u64) -> u128
    ensures { result ≡ global_threshold percent bytes avail }
{
    if bytes == 0 {
        mul_div(ratio_from(percent), avail, RATIO_ONE)
    } else {
        ceil_div(bytes, PAGE_BYTES) as u128
    }
}

// The ratio for a cgroup's domain.
fn cgroup_ratio_from(percent: u32, bytes: u64, global_avail: u64) -> u64
    ensures { result ≡ cgroup_ratio percent bytes global_avail }
{
    if bytes == 0 {
        ratio_from(percent)
    } else if global_avail == 0 {
        RATIO_ONE
    } else {
        ceil_div(bytes, global_avail).min(RATIO_ONE)
    }
}

// A percentage in 4096ths, rounded down.
fn ratio_from(percent: u32) -> u64
    ensures { result ≡ ratio_of percent }
{
    percent as u64 * RATIO_ONE / 100
}
