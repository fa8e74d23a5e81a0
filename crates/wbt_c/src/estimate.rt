//! Estimates.

ghost use Rattle.std.specs.Prelude.{◌≡◌, ◌≢◌, ◌^◌, ◌<◌, ◌↔◌};
ghost use Rattle.wbt_estimate.specs.Estimate.{first_at, updated};
ghost use Rattle.wbt_calls.specs.Crossing as crossing;
ghost use Rattle.wbt_calls.specs.Sampling as spec;
ghost use Rattle.wbt_calls.specs.declared.status.TheConstants.{OK};

use wbt_calls::{Measured, Rates};

/// The estimate before the first sample.
#[unsafe(no_mangle)]
pub extern "C" fn wbt_first_estimate(now: u64, out: &mut Rates) -> u32
    ensures status { result ≡ spec.status_of_first now }
    ensures taken { result ≡ OK ↔ now < 2 ^ 62 }
    ensures value { result ≡ OK → out.new ≡ crossing.rates_in (first_at now) }
    ensures refused { result ≢ OK → out.new ≡ out.old }
{
    wbt_calls::first_estimate(now, out)
}

/// Updates an estimate by a sample; where that comes too early or isn't taken, the estimate stays.
#[unsafe(no_mangle)]
pub extern "C" fn wbt_update_estimate(rates: &mut Rates, measured: &Measured) -> u32
    ensures status { result ≡ spec.status_of_update rates.old measured.now }
    ensures taken { result ≡ OK ↔ spec.IsUpdateTaken rates.old measured.now }
    ensures value { result ≡ OK → rates.new ≡ crossing.rates_in (updated (crossing.estimate_of rates.old) (crossing.sample_of measured.now)) }
    ensures refused { result ≢ OK → rates.new ≡ rates.old }
{
    wbt_calls::update_estimate(rates, measured)
}
