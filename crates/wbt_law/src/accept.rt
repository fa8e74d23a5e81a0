//! What the numbers of a line say, and whether they are in range.

ghost use Rattle.std.specs.Prelude.{◌≡◌};
ghost use Rattle.wbt_law.specs.Accept as spec;

use crate::input::{Draft, LawInput, rates};
use crate::place::{Place, next};
use wbt_num::{Limits, MAX_LIMIT, MOST_CAP, MOST_CPUS};
use wbt_pause::{Reads, Task};
use wbt_position::DomainRead;

/// Why a line is refused.
#[derive(Clone, Copy, Debug, PartialEq, Eq)]
pub enum Refusal {
    /// It hasn't the numbers of a line at its place.
    BadLine,
    /// A number is out of its range.
    OutOfRange,
}

/// The greatest moment of a law text, in ticks: 10^15.
pub const MOST_MOMENT: u64 = 1000000000000000;

/// The most pages that a writer's numbers say: 2^34.
pub const MOST_DIRTIED: u64 = 17179869184;

/// The greatest rate, in pages a second: 2^40.
pub const MOST_RATE: u64 = 1099511627776;

/// The most dirty pages of a context or a domain: 2^23.
pub const MOST_DIRTY: u64 = 8388608;

fn with_cpus(law: LawInput, numbers: &[u64]) -> Result<LawInput, Refusal>
    ensures { result ≡ spec.with_cpus numbers.now law }
{
    match numbers {
        [cpus] => {
            if *cpus == 0 || *cpus > MOST_CPUS as u64 {
                return Err(Refusal::OutOfRange);
            }
            let reads = Reads {
                cpus: *cpus as u32,
                ..law.reads
            };
            Ok(LawInput { reads, ..law })
        }
        _ => Err(Refusal::BadLine),
    }
}

fn with_cap(law: LawInput, numbers: &[u64]) -> Result<LawInput, Refusal>
    ensures { result ≡ spec.with_cap numbers.now law }
{
    match numbers {
        [cap] => {
            if *cap == 0 || *cap > MOST_CAP as u64 {
                return Err(Refusal::OutOfRange);
            }
            let reads = Reads {
                cap: *cap as u32,
                ..law.reads
            };
            Ok(LawInput { reads, ..law })
        }
        _ => Err(Refusal::BadLine),
    }
}

fn with_now(law: LawInput, numbers: &[u64]) -> Result<LawInput, Refusal>
    ensures { result ≡ spec.with_now numbers.now law }
{
    match numbers {
        [now] => {
            if *now > MOST_MOMENT {
                return Err(Refusal::OutOfRange);
            }
            Ok(LawInput { now: *now, ..law })
        }
        _ => Err(Refusal::BadLine),
    }
}

fn with_task(law: LawInput, numbers: &[u64]) -> Result<LawInput, Refusal>
    ensures { result ≡ spec.with_task numbers.now law }
{
    match numbers {
        [dirtied, allowance, when] => {
            if *dirtied > MOST_DIRTIED || *allowance > MOST_DIRTIED || *when > MOST_MOMENT {
                return Err(Refusal::OutOfRange);
            }
            let task = Task {
                nr_dirtied: *dirtied,
                nr_dirtied_pause: *allowance,
                paused_when: *when,
            };
            Ok(LawInput { task, ..law })
        }
        _ => Err(Refusal::BadLine),
    }
}

fn with_estimate(law: LawInput, numbers: &[u64]) -> Result<LawInput, Refusal>
    ensures { result ≡ spec.with_estimate numbers.now law }
{
    match numbers {
        [avg, ratelimit] => {
            if *avg == 0 || *avg > MOST_RATE || *ratelimit == 0 || *ratelimit > MOST_RATE {
                return Err(Refusal::OutOfRange);
            }
            let estimate = rates(*avg, *ratelimit);
            Ok(LawInput { estimate, ..law })
        }
        _ => Err(Refusal::BadLine),
    }
}

fn with_context(law: LawInput, numbers: &[u64]) -> Result<LawInput, Refusal>
    ensures { result ≡ spec.with_context numbers.now law }
{
    match numbers {
        [pages] => {
            if *pages > MOST_DIRTY {
                return Err(Refusal::OutOfRange);
            }
            let reads = Reads {
                wb_dirty: *pages,
                ..law.reads
            };
            Ok(LawInput { reads, ..law })
        }
        _ => Err(Refusal::BadLine),
    }
}

fn is_out_of_range(domain: &DomainRead) -> bool
    ensures { result ≡ spec.is_out_of_range domain.now }
{
    let limits = domain.limits;
    limits.bg > limits.thresh
        || limits.thresh > limits.hard
        || limits.hard > MAX_LIMIT
        || domain.dirty > MOST_DIRTY
        || domain.wb_thresh > MAX_LIMIT
}

fn domain_from(numbers: &[u64]) -> Result<DomainRead, Refusal>
    ensures { result ≡ spec.domain_from numbers.now }
{
    match numbers {
        [thresh, bg, hard, dirty, wb_thresh] => {
            let domain = DomainRead {
                limits: Limits {
                    thresh: *thresh,
                    bg: *bg,
                    hard: *hard,
                },
                dirty: *dirty,
                wb_thresh: *wb_thresh,
            };
            if is_out_of_range(&domain) {
                return Err(Refusal::OutOfRange);
            }
            Ok(domain)
        }
        _ => Err(Refusal::BadLine),
    }
}

fn with_global(law: LawInput, numbers: &[u64]) -> Result<LawInput, Refusal>
    ensures { result ≡ spec.with_global numbers.now law }
{
    match domain_from(numbers) {
        Err(refusal) => Err(refusal),
        Ok(global) => {
            let reads = Reads {
                global,
                ..law.reads
            };
            Ok(LawInput { reads, ..law })
        }
    }
}

fn with_cgroup(law: LawInput, numbers: &[u64]) -> Result<LawInput, Refusal>
    ensures { result ≡ spec.with_cgroup numbers.now law }
{
    match domain_from(numbers) {
        Err(refusal) => Err(refusal),
        Ok(domain) => {
            let reads = Reads {
                cgroup: Some(domain),
                ..law.reads
            };
            Ok(LawInput { reads, ..law })
        }
    }
}

fn law_with(place: Place, law: LawInput, numbers: &[u64]) -> Result<LawInput, Refusal>
    ensures { result ≡ spec.law_with place numbers.now law }
{
    match place {
        Place::Cpus => with_cpus(law, numbers),
        Place::Cap => with_cap(law, numbers),
        Place::Now => with_now(law, numbers),
        Place::Task => with_task(law, numbers),
        Place::Estimate => with_estimate(law, numbers),
        Place::Context => with_context(law, numbers),
        Place::Global => with_global(law, numbers),
        Place::Cgroup => with_cgroup(law, numbers),
        Place::Over => Err(Refusal::BadLine),
    }
}

/// The draft with what a line of these numbers says at the draft's place.
pub fn accept(draft: Draft, numbers: &[u64]) -> Result<Draft, Refusal>
    ensures { result ≡ spec.accept numbers.now draft }
{
    match law_with(draft.place, draft.law, numbers) {
        Err(refusal) => Err(refusal),
        Ok(law) => Ok(Draft {
            place: next(draft.place),
            law,
        }),
    }
}
