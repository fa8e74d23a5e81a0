//! Estimates.

ghost use Rattle.std.specs.Prelude.{◌≡◌, ◌≢◌, ◌^◌, ◌<◌, ◌↔◌, false};
ghost use Rattle.wbt_estimate.specs.Estimate.{IsSound, first_at, updated};
ghost use Rattle.wbt_calls.specs.Crossing as crossing;
ghost use Rattle.wbt_calls.specs.Sampling as spec;

use crate::ranges::{MOST_MOMENT, MOST_RATE, is_out};
use crate::status::{BAD_ESTIMATE, BAD_NOW, BAD_SAMPLE, OK, TOO_EARLY};
use crate::types::{Measured, Rates};
use wbt_estimate::{Estimate, Sample, update};

/// The most pages in all: 2^40 - 1.
pub const MOST_TOTAL: u64 = 1099511627775;

/// The greatest position ratio: 2^32 - 1.
pub const MOST_RATIO: u64 = 4294967295;

/// How far a version may be ahead of the moment: 2^32.
pub const MOST_AHEAD: u64 = 4294967296;

/// The estimate before the first sample.
pub fn first_estimate(now: u64, out: &mut Rates) -> u32
    ensures status { result ≡ spec.status_of_first now }
    ensures taken { result ≡ OK ↔ now < 2 ^ 62 }
    ensures value { result ≡ OK → out.new ≡ crossing.rates_in (first_at now) }
    ensures refused { result ≢ OK → out.new ≡ out.old }
{
    if now > MOST_MOMENT {
        return BAD_NOW;
    }
    *out = rates_in(&wbt_estimate::first_estimate(now));
    OK
}

/// Updates an estimate by a sample; where that comes too early or isn't taken, the estimate stays.
#[tactic(auto, unfolding(wbt_estimate::specs::Estimate::update_of))]
pub fn update_estimate(rates: &mut Rates, measured: &Measured) -> u32
    ensures status { result ≡ spec.status_of_update rates.old measured.now }
    ensures taken { result ≡ OK ↔ spec.IsUpdateTaken rates.old measured.now }
    ensures value { result ≡ OK → rates.new ≡ crossing.rates_in (updated (crossing.estimate_of rates.old) (crossing.sample_of measured.now)) }
    ensures refused { result ≢ OK → rates.new ≡ rates.old }
{
    if is_unsound(rates) {
        return BAD_ESTIMATE;
    }
    if is_bad(measured) {
        return BAD_SAMPLE;
    }
    match update(estimate_of(rates), &sample_of(measured)) {
        None => TOO_EARLY,
        Some(next) => {
            *rates = rates_in(&next);
            OK
        }
    }
}

fn is_unsound(rates: &Rates) -> bool
    ensures value { result ≡ spec.is_unsound rates.now }
    ensures sound { result ≡ false ↔ IsSound (crossing.estimate_of rates.now) }
{
    rates.bw > MOST_RATE
        || is_out(rates.avg, MOST_RATE)
        || is_out(rates.ratelimit, MOST_RATE)
        || rates.balanced > MOST_RATE
        || rates.at > MOST_MOMENT
        || rates.version > rates.at + MOST_AHEAD
}

fn is_bad(measured: &Measured) -> bool
    ensures value { result ≡ spec.is_bad measured.now }
    ensures taken { result ≡ false ↔ spec.IsSampleTaken measured.now }
{
    measured.written > MOST_TOTAL
        || measured.dirtied > MOST_TOTAL
        || measured.ratio > MOST_RATIO
        || measured.moment > MOST_MOMENT
        || measured.below_setpoint > 1
}

fn estimate_of(rates: &Rates) -> Estimate
    ensures { result ≡ crossing.estimate_of rates.now }
{
    Estimate {
        version: rates.version,
        bw: rates.bw,
        avg: rates.avg,
        ratelimit: rates.ratelimit,
        balanced: rates.balanced,
        written_stamp: rates.written_stamp,
        dirtied_stamp: rates.dirtied_stamp,
        at: rates.at,
    }
}

fn rates_in(estimate: &Estimate) -> Rates
    ensures { result ≡ crossing.rates_in estimate.now }
{
    Rates {
        version: estimate.version,
        bw: estimate.bw,
        avg: estimate.avg,
        ratelimit: estimate.ratelimit,
        balanced: estimate.balanced,
        written_stamp: estimate.written_stamp,
        dirtied_stamp: estimate.dirtied_stamp,
        at: estimate.at,
    }
}

fn sample_of(measured: &Measured) -> Sample
    ensures { result ≡ crossing.sample_of measured.now }
{
    Sample {
        now: measured.moment,
        written: measured.written,
        dirtied: measured.dirtied,
        ratio: measured.ratio,
        below_setpoint: measured.below_setpoint == 1,
    }
}
