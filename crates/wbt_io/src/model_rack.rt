//! A rack of disks that never fail.

ghost use Rattle.std.specs.Prelude.{◌≡◌, ◌≤◌, IfOk, IsOk};
ghost use Rattle.wbt_io.specs.Faults.{more};
ghost use Rattle.wbt_io.specs.Pages.{Grows, told_below};

use crate::{ModelDisk, NoMemory, Rack};
use std::alloc::Global;

/// Lends model disks, and counts no fault.
#[derive(Drop, Debug)]
pub struct ModelRack {
    /// The pages written by the disks that were taken back. At 2^64 - 1 the number stays; it is told while it is below 2^63.
    pub pages: u64,
}

impl ModelRack {
    /// A rack that has taken no disk back.
    pub fn make() -> ModelRack
        ensures { result ≡ record { pages = 0 } }
    {
        ModelRack { pages: 0 }
    }
}

impl Rack for ModelRack {
    type D = ModelDisk;

    ghost written = { λ rack. told_below rack.pages };

    ghost faults = { λ _. 0 };

    /// It takes no memory.
    fn lend(&mut self, _alloc: Global, _flusher: u32, rate: u64) -> Result<ModelDisk, NoMemory>
        requires { 1 ≤ rate }
        ensures lends { IsOk result }
        ensures rate { IfOk result (λ disk. disk.rate ≡ rate) }
        ensures free { IfOk result (λ disk. disk.busy ≡ 0) }
        ensures unwritten { IfOk result (λ disk. disk.pages ≡ 0) }
        ensures pages { self.new.pages ≡ self.old.pages }
    {
        Ok(ModelDisk {
            rate,
            busy: 0,
            pages: 0,
        })
    }

    fn give(&mut self, disk: ModelDisk)
        ensures pages { self.new.pages ≡ more disk.pages self.old.pages }
    {
        self.pages = self.pages.saturating_add(disk.pages);
    }
}
