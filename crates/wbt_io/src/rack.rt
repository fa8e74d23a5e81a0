//! Where disks come from, and where they go back to.

ghost use Rattle.std.specs.Prelude.{◌≡◌, ℕ, ◌≤◌, Option, IfOk, IfSome};
ghost use Rattle.wbt_io.specs.Faults.{more};
ghost use Rattle.wbt_io.specs.Pages.{Grows};

use crate::{Disk, NoMemory};
use std::alloc::Global;

/// Lends disks, and takes them back.
///
/// A rack counts the faults of the disks that it took back in a u64, which never falls and which stays at its last value. It
/// may tell how many pages these disks have written; where it tells them after a call, it told them before.
pub trait Rack {
    /// What it lends. A disk may go to another thread.
    type D: Disk + Send;

    /// The pages written by the disks that were taken back, where the rack tells them.
    ghost written: { Self → Option ℕ };

    /// The count of faults.
    ghost faults: { Self → ℕ };

    /// Lends a disk of this rate, in pages a second, to a flusher. No fault and no page of it is counted yet.
    fn lend(&mut self, alloc: Global, flusher: u32, rate: u64) -> Result<Self::D, NoMemory>
        requires { 1 ≤ rate }
        ensures faultless { IfOk result (λ disk. Self.D.faults disk ≡ 0) }
        ensures unwritten { IfOk result (λ disk. IfSome (Self.D.written disk) (λ pages. pages ≡ 0)) }
        ensures written { written self.new ≡ written self.old }
        ensures later { faults self.old ≤ faults self.new };

    /// Takes a disk back, with its faults and its pages.
    fn give(&mut self, disk: Self::D)
        ensures written { Grows (Self.D.written disk) (written self.old) (written self.new) }
        ensures faults { faults self.new ≡ more (Self.D.faults disk) (faults self.old) };
}
