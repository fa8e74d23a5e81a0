//! What a seat keeps of limits at run time.

ghost use Rattle.std.specs.Prelude.{◌≡◌, ◌<◌, ◌*◌, ◌%◌, ◌≤◌, ◌^◌, IfOk, get_or, length, slice_set};
ghost use Rattle.wbt_num.specs.Limits.{IsLawful};
ghost use Rattle.wbt_table.specs.Held.{first_triple, no_triple, triple_number};
ghost use Rattle.wbt_table.specs.Layout.{no_limits};

use crate::answer::Triple;
use std::alloc::{AllocError, Global};
use wbt_num::Limits;

/// What a seat keeps of limits.
#[derive(Drop)]
pub struct HeldLimits {
    // One for each CPU and domain: the number k is that of the CPU k / domains and of the domain k % domains. What stands for a CPU
    // that the seat doesn't hold says nothing.
    pub(crate) triples: Vec<Triple>,
    // By domain, the sequence. It says nothing where the seat doesn't hold the timer.
    pub(crate) sequences: Vec<u64>,
}

// The first limits of each domain, held by each of `count / domains` CPUs.
pub(crate) fn first_triples(
    alloc: Global,
    firsts: &[Limits],
    count: usize,
) -> Result<Vec<Triple>, AllocError>
    requires some { 0 < length firsts.now }
    ensures long { IfOk result (λ v. length v.items ≡ count) }
    ensures first { IfOk result (λ v. (k : _) → k < count → get_or v.items k no_triple ≡ first_triple (get_or firsts.now (k % length firsts.now) no_limits)) }
{
    let mut triples = Vec::new(alloc);
    for k in 0..count {
        let triple = Triple {
            version: 0,
            limits: firsts[k % firsts.len()],
        };
        triples.push(triple)?;
    }
    Ok(triples)
}
