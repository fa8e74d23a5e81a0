//! How many pages a context of a strict device has at most.

ghost use Rattle.std.specs.Prelude.{◌≡◌, ◌+◌, ◌*◌, ◌^◌, ◌<◌, ◌≤◌, max};
ghost use Rattle.wbt_num.specs.Arithmetic.{log2};
ghost use Rattle.wbt_num.specs.declared.most.TheConstants.{MOST_CPUS, MOST_WRITERS, MOST_CAP};
ghost use Rattle.wbt_strict.specs.Bound as spec;

use crate::position::FEW_PAGES;
use wbt_counter::stat_error;

/// The bound of such a context, in pages, where `most` is the greatest of its thresholds that its checks use: the greatest of that, of 8 and
/// of the statistical error; the error once more; and `cap` for each of its writers.
pub fn strict_bound(most: u64, cpus: u32, writers: u64, cap: u64) -> u64
    requires most_in_range { most < 2 ^ 32 }
    requires some { 1 ≤ cpus }
    requires not_too_many { cpus ≤ MOST_CPUS }
    requires few_writers { writers ≤ MOST_WRITERS }
    requires small_cap { cap ≤ MOST_CAP }
    ensures value { result ≡ spec.strict_bound most cpus writers cap }
    ensures formula { result ≡ max (max most 8) (cpus * (8 * (1 + log2 cpus))) + cpus * (8 * (1 + log2 cpus)) + writers * cap }
    ensures small { result < 2 ^ 33 }
{
    let error = stat_error(cpus);
    most.max(FEW_PAGES).max(error) + error + writers * cap
}
