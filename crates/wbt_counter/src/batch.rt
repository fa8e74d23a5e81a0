//! The batches of counters and the statistical error. All are in pages.

ghost use Rattle.std.specs.Prelude.{◌≡◌, ◌+◌, ◌*◌, ◌≤◌, max};
ghost use Rattle.wbt_num.specs.Arithmetic.{log2};
ghost use Rattle.wbt_num.specs.declared.most.TheConstants.{MOST_CPUS};
ghost use Rattle.wbt_counter.specs.Batch as spec;

use wbt_num::ilog2;

/// The batch of a domain's counter: `max(32, 2 * cpus)`.
#[tactic(auto, unfolding(crate::specs::Batch::domain_batch))]
pub fn domain_batch(cpus: u32) -> u64
    requires some { 1 ≤ cpus }
    requires not_too_many { cpus ≤ MOST_CPUS }
    ensures value { result ≡ spec.domain_batch cpus }
    ensures formula { result ≡ max 32 (2 * cpus) }
    ensures small { result ≤ 128 }
{
    let twice = 2 * cpus as u64;
    if twice < 32 { 32 } else { twice }
}

/// The batch of a context's counter: `8 * (1 + ilog2(cpus))`.
#[tactic(auto, unfolding(crate::specs::Batch::context_batch))]
pub fn context_batch(cpus: u32) -> u64
    requires some { 1 ≤ cpus }
    requires not_too_many { cpus ≤ MOST_CPUS }
    ensures value { result ≡ spec.context_batch cpus }
    ensures formula { result ≡ 8 * (1 + log2 cpus) }
    ensures small { result ≤ 512 }
{
    8 * (1 + ilog2(cpus as u64) as u64)
}

/// The statistical error of a context's counter, `cpus * 8 * (1 + ilog2(cpus))`: how far its reading may be from its count.
#[tactic(auto, unfolding(crate::specs::Batch::context_batch))]
pub fn stat_error(cpus: u32) -> u64
    requires some { 1 ≤ cpus }
    requires not_too_many { cpus ≤ MOST_CPUS }
    ensures value { result ≡ spec.stat_error cpus }
    ensures formula { result ≡ cpus * (8 * (1 + log2 cpus)) }
    ensures small { result ≤ 32768 }
{
    cpus as u64 * context_batch(cpus)
}
