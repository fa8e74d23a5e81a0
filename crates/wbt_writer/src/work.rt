//! What a CPU's writers keep from turn to turn.

ghost use Rattle.std.specs.Prelude.{◌≡◌, ◌<◌, IfOk, length, replicate};
ghost use Rattle.wbt_writer.specs.Desk.{no_fractions};

use crate::tasks::Tasks;
use std::alloc::Global;
use wbt_flex::Fraction;
use wbt_num::NoMemory;
use wbt_trace::Trace;

/// The fractions of a context that were read last.
#[derive(Clone, Copy)]
pub struct Fractions {
    /// In the global domain.
    pub global: Fraction,
    /// In the domain of its cgroup.
    pub group: Fraction,
}

/// Where a CPU's writers are: the trace that they follow, and the CPU that they run on.
#[derive(Drop)]
pub struct WriterPlace<'t> {
    pub trace: &'t Trace,
    pub cpu: u32,
}

/// What a CPU's writers keep from turn to turn.
#[derive(Drop)]
pub struct WriterWork {
    pub tasks: Tasks,
    /// By context.
    pub fractions: Vec<Fractions>,
    /// By inode: whether it is marked, and is still to be put into its device's queue, which was full.
    pub waiting: Vec<bool>,
}

// Nothing was read yet.
pub(crate) fn new_fractions(alloc: Global, contexts: usize) -> Result<Vec<Fractions>, NoMemory>
    ensures { IfOk result (λ all. all.items ≡ replicate contexts no_fractions) }
{
    let mut all = Vec::new(alloc);
    for _context in 0..contexts {
        all.push(Fractions {
            global: NO_FRACTION,
            group: NO_FRACTION,
        })?;
    }
    Ok(all)
}

// No inode waits.
pub(crate) fn new_waiting(alloc: Global, inodes: usize) -> Result<Vec<bool>, NoMemory>
    ensures { IfOk result (λ all. length all.items ≡ inodes) }
{
    let mut all = Vec::new(alloc);
    for _inode in 0..inodes {
        all.push(false)?;
    }
    Ok(all)
}

// What stands for a fraction before the first read.
const NO_FRACTION: Fraction = Fraction {
    period: 0,
    num: 0,
    den: 1,
};
