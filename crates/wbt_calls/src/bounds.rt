//! The error of a counter, and the bounds.

ghost use Rattle.std.specs.Prelude.{◌≡◌, ◌≢◌, ◌+◌, ◌↔◌};
ghost use Rattle.wbt_counter.specs.Batch.{stat_error as error_of};
ghost use Rattle.wbt_grant.specs.Formula.{fixed_bound as fixed_part};
ghost use Rattle.wbt_strict.specs.Bound.{strict_bound as strict_part};
ghost use Rattle.wbt_calls.specs.Bounds as spec;

use crate::ranges::{MOST_LEFT, is_out};
use crate::status::{BAD_CAP, BAD_CONTEXTS, BAD_CPUS, BAD_LIMIT, BAD_WRITERS, OK};
use wbt_counter::stat_error;
use wbt_grant::fixed_bound;
use wbt_num::{MAX_LIMIT, MOST_CONTEXTS, MOST_CPUS, MOST_WRITERS};
use wbt_strict::strict_bound;

/// How far a reading of a context may be from its count.
pub fn error(cpus: u32, out: &mut u64) -> u32
    ensures status { result ≡ spec.status_of_cpus cpus }
    ensures taken { result ≡ OK ↔ spec.AreCpusTaken cpus }
    ensures value { result ≡ OK → out.new ≡ error_of cpus }
    ensures refused { result ≢ OK → out.new ≡ out.old }
{
    if is_out(cpus as u64, MOST_CPUS as u64) {
        return BAD_CPUS;
    }
    *out = stat_error(cpus);
    OK
}

/// The bound of a domain whose greatest hard limit is `hard`.
pub fn bound(hard: u64, cpus: u32, writers: u64, cap: u64, contexts: u64, out: &mut u64) -> u32
    ensures status { result ≡ spec.status_of_bound hard cpus writers cap contexts }
    ensures taken { result ≡ OK ↔ spec.IsBoundTaken hard cpus writers cap contexts }
    ensures value { result ≡ OK → out.new ≡ hard + fixed_part cpus writers cap contexts }
    ensures refused { result ≢ OK → out.new ≡ out.old }
{
    if hard > MAX_LIMIT {
        return BAD_LIMIT;
    }
    if is_out(cpus as u64, MOST_CPUS as u64) {
        return BAD_CPUS;
    }
    if writers > MOST_WRITERS as u64 {
        return BAD_WRITERS;
    }
    if is_out(cap, MOST_LEFT) {
        return BAD_CAP;
    }
    if contexts > MOST_CONTEXTS as u64 {
        return BAD_CONTEXTS;
    }
    *out = hard + fixed_bound(cpus, writers, cap, contexts);
    OK
}

/// The bound of a context of a strict device, where `most` is the greatest of its thresholds that its checks use.
pub fn strict_context_bound(most: u64, cpus: u32, writers: u64, cap: u64, out: &mut u64) -> u32
    ensures status { result ≡ spec.status_of_bound most cpus writers cap 0 }
    ensures taken { result ≡ OK ↔ spec.IsBoundTaken most cpus writers cap 0 }
    ensures value { result ≡ OK → out.new ≡ strict_part most cpus writers cap }
    ensures refused { result ≢ OK → out.new ≡ out.old }
{
    if most > MAX_LIMIT {
        return BAD_LIMIT;
    }
    if is_out(cpus as u64, MOST_CPUS as u64) {
        return BAD_CPUS;
    }
    if writers > MOST_WRITERS as u64 {
        return BAD_WRITERS;
    }
    if is_out(cap, MOST_LEFT) {
        return BAD_CAP;
    }
    *out = strict_bound(most, cpus, writers, cap);
    OK
}
