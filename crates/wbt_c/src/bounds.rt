//! The error of a counter, and the bounds.

ghost use Rattle.std.specs.Prelude.{◌≡◌, ◌≢◌, ◌+◌, ◌↔◌};
ghost use Rattle.wbt_counter.specs.Batch.{stat_error as error_of};
ghost use Rattle.wbt_grant.specs.Formula.{fixed_bound as fixed_part};
ghost use Rattle.wbt_strict.specs.Bound.{strict_bound as strict_part};
ghost use Rattle.wbt_calls.specs.Bounds as spec;
ghost use Rattle.wbt_calls.specs.declared.status.TheConstants.{OK};

/// How far a reading of a context may be from its count.
#[unsafe(no_mangle)]
pub extern "C" fn wbt_error(cpus: u32, out: &mut u64) -> u32
    ensures status { result ≡ spec.status_of_cpus cpus }
    ensures taken { result ≡ OK ↔ spec.AreCpusTaken cpus }
    ensures value { result ≡ OK → out.new ≡ error_of cpus }
    ensures refused { result ≢ OK → out.new ≡ out.old }
{
    wbt_calls::error(cpus, out)
}

/// The bound of a domain whose greatest hard limit is `hard`.
#[unsafe(no_mangle)]
pub extern "C" fn wbt_bound(
    hard: u64,
    cpus: u32,
    writers: u64,
    cap: u64,
    contexts: u64,
    out: &mut u64,
) -> u32
    ensures status { result ≡ spec.status_of_bound hard cpus writers cap contexts }
    ensures taken { result ≡ OK ↔ spec.IsBoundTaken hard cpus writers cap contexts }
    ensures value { result ≡ OK → out.new ≡ hard + fixed_part cpus writers cap contexts }
    ensures refused { result ≢ OK → out.new ≡ out.old }
{
    wbt_calls::bound(hard, cpus, writers, cap, contexts, out)
}

/// The bound of a context of a strict device, where `most` is the greatest of its thresholds that its checks use.
#[unsafe(no_mangle)]
pub extern "C" fn wbt_strict_context_bound(
    most: u64,
    cpus: u32,
    writers: u64,
    cap: u64,
    out: &mut u64,
) -> u32
    ensures status { result ≡ spec.status_of_bound most cpus writers cap 0 }
    ensures taken { result ≡ OK ↔ spec.IsBoundTaken most cpus writers cap 0 }
    ensures value { result ≡ OK → out.new ≡ strict_part most cpus writers cap }
    ensures refused { result ≢ OK → out.new ≡ out.old }
{
    wbt_calls::strict_context_bound(most, cpus, writers, cap, out)
}
