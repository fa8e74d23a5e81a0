//! Position ratios.

ghost use Rattle.std.specs.Prelude.{◌≡◌, ◌≢◌, ◌↔◌};
ghost use Rattle.wbt_position.specs.Position.{position_ratio};
ghost use Rattle.wbt_strict.specs.Position.{strict_ratio};
ghost use Rattle.wbt_calls.specs.Crossing as crossing;
ghost use Rattle.wbt_calls.specs.Ratios as spec;
ghost use Rattle.wbt_calls.specs.declared.status.TheConstants.{OK};

use wbt_calls::Domain;

/// How fast a context's writers may go, in 1024ths of its rate limit.
#[unsafe(no_mangle)]
pub extern "C" fn wbt_ratio(domain: &Domain, wb_dirty: u64, avg: u64, out: &mut u64) -> u32
    ensures status { result ≡ spec.status_of_ratio domain.now avg }
    ensures taken { result ≡ OK ↔ spec.IsRatioTaken domain.now avg }
    ensures value { result ≡ OK → out.new ≡ position_ratio (crossing.read_of domain.now) wb_dirty avg }
    ensures refused { result ≢ OK → out.new ≡ out.old }
{
    wbt_calls::ratio(domain, wb_dirty, avg, out)
}

/// The same in a context of a strict device.
#[unsafe(no_mangle)]
pub extern "C" fn wbt_strict_ratio(domain: &Domain, wb_dirty: u64, out: &mut u64) -> u32
    ensures status { result ≡ spec.status_of_strict domain.now }
    ensures taken { result ≡ OK ↔ spec.IsStrictRatioTaken domain.now }
    ensures value { result ≡ OK → out.new ≡ strict_ratio (crossing.read_of domain.now) wb_dirty }
    ensures refused { result ≢ OK → out.new ≡ out.old }
{
    wbt_calls::strict_ratio(domain, wb_dirty, out)
}
