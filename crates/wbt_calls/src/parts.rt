//! What a cgroup and a context have of the machine: a cgroup's available pages, and a context's part of its domain's thresholds.

ghost use Rattle.std.specs.Prelude.{◌≡◌, ◌≢◌, ◌≤◌, ◌↔◌, false};
ghost use Rattle.wbt_limits.specs.Cgroup.{available_to_cgroup};
ghost use Rattle.wbt_limits.specs.Context.{context_background as background_of, context_threshold as threshold_of};
ghost use Rattle.wbt_calls.specs.Parts as spec;

use crate::limits::MOST_PERCENT;
use crate::ranges::is_out;
use crate::status::{BAD_FRACTION, BAD_LIMIT, BAD_PAGES, BAD_SHARES, OK};
use crate::types::Share;
use wbt_limits::{cgroup_avail, wb_bg, wb_thresh};
use wbt_num::MAX_LIMIT;

/// The most file pages, and the most pages of headroom: 2^40.
pub const MOST_FILE_PAGES: u64 = 1099511627776;

/// The greatest denominator of a fraction: 2^41 - 1.
pub const MOST_DEN: u64 = 2199023255551;

/// The available pages of a cgroup with so many file pages, `dirty` of them dirty, and so many pages of headroom, where the machine has
/// `global_avail` available pages, `global_dirty` of them dirty.
pub fn cgroup_available(
    filepages: u64,
    headroom: u64,
    dirty: u64,
    global_avail: u64,
    global_dirty: u64,
    out: &mut u64,
) -> u32
    ensures status { result ≡ spec.status_of_cgroup filepages headroom }
    ensures taken { result ≡ OK ↔ spec.IsCgroupTaken filepages headroom }
    ensures value { result ≡ OK → out.new ≡ available_to_cgroup filepages headroom dirty global_avail global_dirty }
    ensures refused { result ≢ OK → out.new ≡ out.old }
{
    if filepages > MOST_FILE_PAGES || headroom > MOST_FILE_PAGES {
        return BAD_PAGES;
    }
    *out = cgroup_avail(filepages, headroom, dirty, global_avail, global_dirty);
    OK
}

/// The part of a context in the threshold of its domain.
pub fn context_threshold(thresh: u64, share: &Share, out: &mut u64) -> u32
    ensures status { result ≡ spec.status_of_threshold thresh share.now }
    ensures taken { result ≡ OK ↔ spec.IsThresholdTaken thresh share.now }
    ensures value { result ≡ OK → out.new ≡ threshold_of thresh share.now.num share.now.den share.now.sum_min share.now.min share.now.max }
    ensures refused { result ≢ OK → out.new ≡ out.old }
{
    if thresh > MAX_LIMIT {
        return BAD_LIMIT;
    }
    if is_no_fraction(share) {
        return BAD_FRACTION;
    }
    if are_bad(share) {
        return BAD_SHARES;
    }
    *out = wb_thresh(
        thresh,
        share.num,
        share.den,
        share.sum_min as u32,
        share.min as u32,
        share.max as u32,
    );
    OK
}

/// The part of a context in the background threshold `bg` of its domain, in the proportion of its part `context_thresh` in the threshold
/// `thresh`; 0 where that is 0.
pub fn context_background(context_thresh: u64, bg: u64, thresh: u64, out: &mut u64) -> u32
    ensures status { result ≡ spec.status_of_background context_thresh bg }
    ensures taken { result ≡ OK ↔ spec.IsBackgroundTaken context_thresh bg }
    ensures value { result ≡ OK → out.new ≡ background_of context_thresh bg thresh }
    ensures refused { result ≢ OK → out.new ≡ out.old }
{
    if context_thresh > MAX_LIMIT || bg > MAX_LIMIT {
        return BAD_LIMIT;
    }
    *out = wb_bg(context_thresh, bg, thresh);
    OK
}

fn is_no_fraction(share: &Share) -> bool
    ensures value { result ≡ spec.is_no_fraction share.now }
    ensures taken { result ≡ false ↔ spec.IsFraction share.now }
{
    is_out(share.den, MOST_DEN) || share.num > share.den
}

fn are_bad(share: &Share) -> bool
    ensures value { result ≡ spec.are_bad_shares share.now }
    ensures taken { result ≡ false ↔ spec.AreShares share.now }
{
    share.sum_min > MOST_PERCENT || share.min > share.max || share.max > MOST_PERCENT
}
