//! Disks that fail their first writes.

ghost use Rattle.std.specs.Prelude.{◌≡◌, IfOk};
ghost use Rattle.failing_disks.specs.Failing.{first_writes};

use std::alloc::Global;
use wbt_io::{FaultyRack, NoMemory};

/// A rack each of whose disks fails its first writes, so many, and no other.
pub fn failing_rack(alloc: Global, fails: u64) -> Result<FaultyRack, NoMemory>
    ensures first { IfOk result (λ rack. rack.fails ≡ first_writes fails) }
    ensures none_back { IfOk result (λ rack. (rack.pages ≡ 0) × (rack.faults ≡ 0)) }
{
    Ok(FaultyRack::make(first_calls(alloc, fails)?))
}

// The numbers of the first writes.
fn first_calls(alloc: Global, fails: u64) -> Result<Vec<u64>, NoMemory>
    ensures { IfOk result (λ calls. calls.items ≡ first_writes fails) }
{
    let mut calls = Vec::new(alloc);
    for call in 0..fails {
        calls.push(call + 1)?;
    }
    Ok(calls)
}
