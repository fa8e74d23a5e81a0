//! The limits of a domain.

ghost use Rattle.std.specs.Prelude.{◌≡◌, ◌≢◌, ◌≤◌, ◌↔◌, None, Some, false};
ghost use Rattle.wbt_limits.specs.Limits.{freerun as freerun_of, setpoint as setpoint_of};
ghost use Rattle.wbt_limits.specs.Thresholds.{followed_limit, thresholds_of};
ghost use Rattle.wbt_calls.specs.Crossing as crossing;
ghost use Rattle.wbt_calls.specs.Settings as spec;

use crate::check::read_of;
use crate::status::{BAD_SETTINGS, OK};
use crate::types::{Domain, Knobs, Thresholds};
use wbt_limits::{Pair, follow_limit, thresholds};
use wbt_num::Settings;

/// The greatest percentage.
pub const MOST_PERCENT: u64 = 100;

/// The most bytes of a setting: 2^48.
pub const MOST_BYTES: u64 = 281474976710656;

/// The thresholds of the global domain, with so many available pages.
pub fn global_thresholds(avail: u64, knobs: &Knobs, out: &mut Thresholds) -> u32
    ensures status { result ≡ spec.status_of_settings knobs.now }
    ensures taken { result ≡ OK ↔ spec.AreTaken knobs.now }
    ensures value { result ≡ OK → out.new ≡ crossing.thresholds_in (thresholds_of avail (crossing.settings_of knobs.now) None) }
    ensures refused { result ≢ OK → out.new ≡ out.old }
{
    if are_bad(knobs) {
        return BAD_SETTINGS;
    }
    *out = thresholds_in(thresholds(avail, &settings_of(knobs), None));
    OK
}

/// The thresholds of a cgroup's domain, with so many available pages, where the whole machine has `global_avail`.
pub fn cgroup_thresholds(avail: u64, global_avail: u64, knobs: &Knobs, out: &mut Thresholds) -> u32
    ensures status { result ≡ spec.status_of_settings knobs.now }
    ensures taken { result ≡ OK ↔ spec.AreTaken knobs.now }
    ensures value { result ≡ OK → out.new ≡ crossing.thresholds_in (thresholds_of avail (crossing.settings_of knobs.now) (Some global_avail)) }
    ensures refused { result ≢ OK → out.new ≡ out.old }
{
    if are_bad(knobs) {
        return BAD_SETTINGS;
    }
    *out = thresholds_in(thresholds(avail, &settings_of(knobs), Some(global_avail)));
    OK
}

/// The limit that follows a threshold, after `limit`.
pub fn followed_limit(limit: u64, thresh: u64, dirty: u64) -> u64
    ensures { result ≡ followed_limit limit thresh dirty }
{
    follow_limit(limit, thresh, dirty)
}

/// Up to this many pages of the domain writers run free.
pub fn freerun(domain: &Domain) -> u64
    ensures { result ≡ freerun_of (crossing.limits_in domain.now) }
{
    wbt_limits::freerun(&read_of(domain).limits)
}

/// Where the control holds the domain, in pages.
pub fn setpoint(domain: &Domain) -> u64
    ensures { result ≡ setpoint_of (crossing.limits_in domain.now) }
{
    wbt_position::setpoint(&read_of(domain).limits)
}

fn are_bad(knobs: &Knobs) -> bool
    ensures value { result ≡ spec.are_bad knobs.now }
    ensures taken { result ≡ false ↔ spec.AreTaken knobs.now }
{
    knobs.ratio > MOST_PERCENT
        || knobs.bg_ratio > MOST_PERCENT
        || knobs.bytes > MOST_BYTES
        || knobs.bg_bytes > MOST_BYTES
}

fn settings_of(knobs: &Knobs) -> Settings
    requires ratio { knobs.now.ratio ≤ MOST_PERCENT }
    requires bg_ratio { knobs.now.bg_ratio ≤ MOST_PERCENT }
    ensures { result ≡ crossing.settings_of knobs.now }
{
    Settings {
        ratio: knobs.ratio as u32,
        bg_ratio: knobs.bg_ratio as u32,
        bytes: knobs.bytes,
        bg_bytes: knobs.bg_bytes,
    }
}

fn thresholds_in(pair: Pair) -> Thresholds
    ensures { result ≡ crossing.thresholds_in pair }
{
    Thresholds {
        thresh: pair.thresh,
        bg: pair.bg,
    }
}
