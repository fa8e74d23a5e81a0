//! Lists to count in.

ghost use Rattle.std.specs.Prelude.{◌≡◌, replicate, IfOk};

use std::alloc::Global;
use wbt_num::NoMemory;

/// So many zeros.
pub fn zeros(alloc: Global, count: usize) -> Result<Vec<u64>, NoMemory>
    ensures { IfOk result (λ zeros. zeros.items ≡ replicate count 0) }
{
    let mut zeros = Vec::with_capacity(alloc, count)?;
    for _place in 0..count {
        zeros.push(0)?;
    }
    Ok(zeros)
}
