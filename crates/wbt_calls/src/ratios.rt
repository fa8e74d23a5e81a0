//! Position ratios.

ghost use Rattle.std.specs.Prelude.{◌≡◌, ◌≢◌, ◌↔◌};
ghost use Rattle.wbt_position.specs.Position.{position_ratio};
ghost use Rattle.wbt_strict.specs.Position.{strict_ratio};
ghost use Rattle.wbt_calls.specs.Crossing as crossing;
ghost use Rattle.wbt_calls.specs.Ratios as spec;

use crate::check::read_of;
use crate::ranges::{MOST_RATE, is_unlawful};
use crate::status::{BAD_DOMAIN, BAD_ESTIMATE, BAD_PART, OK};
use crate::types::Domain;
use wbt_position::position;
use wbt_strict::strict_position;

/// How fast a context's writers may go, in 1024ths of its rate limit.
pub fn ratio(domain: &Domain, wb_dirty: u64, avg: u64, out: &mut u64) -> u32
    ensures status { result ≡ spec.status_of_ratio domain.now avg }
    ensures taken { result ≡ OK ↔ spec.IsRatioTaken domain.now avg }
    ensures value { result ≡ OK → out.new ≡ position_ratio (crossing.read_of domain.now) wb_dirty avg }
    ensures refused { result ≢ OK → out.new ≡ out.old }
{
    if is_unlawful(domain) {
        return BAD_DOMAIN;
    }
    if avg > MOST_RATE {
        return BAD_ESTIMATE;
    }
    *out = position(&read_of(domain), wb_dirty, avg);
    OK
}

/// The same in a context of a strict device.
pub fn strict_ratio(domain: &Domain, wb_dirty: u64, out: &mut u64) -> u32
    ensures status { result ≡ spec.status_of_strict domain.now }
    ensures taken { result ≡ OK ↔ spec.IsStrictRatioTaken domain.now }
    ensures value { result ≡ OK → out.new ≡ strict_ratio (crossing.read_of domain.now) wb_dirty }
    ensures refused { result ≢ OK → out.new ≡ out.old }
{
    if is_unlawful(domain) {
        return BAD_DOMAIN;
    }
    if domain.wb_thresh > domain.thresh {
        return BAD_PART;
    }
    *out = strict_position(&read_of(domain), wb_dirty);
    OK
}
