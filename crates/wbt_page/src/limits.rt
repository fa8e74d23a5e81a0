//! The limits of a domain.

ghost use Rattle.std.specs.Prelude.{◌≡◌, ◌≢◌, ◌↔◌, None, Some};
ghost use Rattle.wbt_limits.specs.Limits.{freerun as freerun_of, setpoint as setpoint_of};
ghost use Rattle.wbt_limits.specs.Thresholds.{thresholds_of};
ghost use Rattle.wbt_calls.specs.Crossing as crossing;
ghost use Rattle.wbt_calls.specs.Settings as spec;
ghost use Rattle.wbt_calls.specs.declared.status.TheConstants.{OK};

use wbt_calls::{Domain, Knobs, Thresholds};

/// The thresholds of the global domain, with so many available pages.
#[unsafe(no_mangle)]
pub extern "C" fn wbt_global_thresholds(avail: u64, knobs: &Knobs, out: &mut Thresholds) -> u32
    ensures status { result ≡ spec.status_of_settings knobs.now }
    ensures taken { result ≡ OK ↔ spec.AreTaken knobs.now }
    ensures value { result ≡ OK → out.new ≡ crossing.thresholds_in (thresholds_of avail (crossing.settings_of knobs.now) None) }
    ensures refused { result ≢ OK → out.new ≡ out.old }
{
    wbt_calls::global_thresholds(avail, knobs, out)
}

/// The thresholds of a cgroup's domain, with so many available pages, where the whole machine has `global_avail`.
#[unsafe(no_mangle)]
pub extern "C" fn wbt_cgroup_thresholds(
    avail: u64,
    global_avail: u64,
    knobs: &Knobs,
    out: &mut Thresholds,
) -> u32
    ensures status { result ≡ spec.status_of_settings knobs.now }
    ensures taken { result ≡ OK ↔ spec.AreTaken knobs.now }
    ensures value { result ≡ OK → out.new ≡ crossing.thresholds_in (thresholds_of avail (crossing.settings_of knobs.now) (Some global_avail)) }
    ensures refused { result ≢ OK → out.new ≡ out.old }
{
    wbt_calls::cgroup_thresholds(avail, global_avail, knobs, out)
}

/// Up to this many pages of the domain writers run free.
#[unsafe(no_mangle)]
pub extern "C" fn wbt_freerun(domain: &Domain) -> u64
    ensures { result ≡ freerun_of (crossing.limits_in domain.now) }
{
    wbt_calls::freerun(domain)
}

/// Where the control holds the domain, in pages.
#[unsafe(no_mangle)]
pub extern "C" fn wbt_setpoint(domain: &Domain) -> u64
    ensures { result ≡ setpoint_of (crossing.limits_in domain.now) }
{
    wbt_calls::setpoint(domain)
}
