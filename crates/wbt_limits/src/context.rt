//! A writeback context's part of its domain's thresholds.
//!
//! Each device may have a least and a greatest share of a threshold, in percent. What the least shares of all devices
//! leave is shared by the fraction of completed writes.

ghost use Rattle.std.specs.Prelude.{◌≡◌, ◌*◌, ◌/◌, ◌^◌, ◌<◌, ◌≤◌};
ghost use Rattle.wbt_num.specs.declared.limits.TheConstants.{MAX_LIMIT};
ghost use Rattle.wbt_limits.specs.Context.{context_threshold, context_background};

use wbt_num::mul_div;

/// The part of a context in the threshold of its domain, in pages. `num / den` is the fraction of completed writes,
/// `sum_min` the sum of all devices' least shares, `min` and `max` the device's own shares.
pub fn wb_thresh(thresh: u64, num: u64, den: u64, sum_min: u32, min: u32, max: u32) -> u64
    requires thresh { thresh ≤ MAX_LIMIT }
    requires fraction { num ≤ den }
    requires den { 1 ≤ den }
    requires den_in_range { den < 2 ^ 41 }
    requires sum_min { sum_min ≤ 100 }
    requires min { min ≤ max }
    requires max { max ≤ 100 }
    ensures value { result ≡ context_threshold thresh num den sum_min min max }
    ensures at_most_thresh { result ≤ thresh }
    ensures at_least_share { thresh * min / 100 ≤ result }
{
    let shared = thresh * (100 - sum_min as u64) / 100;
    let by_fraction = mul_div(shared, num, den) as u64;
    let least = thresh * min as u64 / 100;
    let greatest = thresh * max as u64 / 100;
    (by_fraction + least).min(greatest)
}

/// The part of a context in the background threshold `bg` of its domain, in the proportion of its part `wb_thresh` in the
/// threshold `thresh`; 0 where that is 0.
pub fn wb_bg(wb_thresh: u64, bg: u64, thresh: u64) -> u64
    requires wb_thresh { wb_thresh ≤ MAX_LIMIT }
    requires bg { bg ≤ MAX_LIMIT }
    ensures value { result ≡ context_background wb_thresh bg thresh }
    ensures at_most_part { bg ≤ thresh → result ≤ wb_thresh }
{
    if thresh == 0 {
        0
    } else {
        wb_thresh * bg / thresh
    }
}
