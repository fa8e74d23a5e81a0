//! A rack of disks that fail at the calls that they are told.

ghost use Rattle.std.specs.Prelude.{◌≡◌, ◌≤◌, IfOk, [], OnErr};
ghost use Rattle.wbt_io.specs.Faults.{more};
ghost use Rattle.wbt_io.specs.Memory.{RackInMemory};
ghost use Rattle.wbt_io.specs.Pages.{Grows, told_below};

use crate::{FaultyDisk, NoMemory, Rack};
use std::alloc::Global;
use std::marker::Model;

/// Lends faulty disks, each with a copy of one list. Contracts see it as a `RackInMemory`.
#[derive(Drop)]
pub struct FaultyRack {
    fails: Vec<u64>,
    pages: u64,
    faults: u64,
}

impl Model for FaultyRack {
    ghost Value = { RackInMemory };

    ghost view = { λ s. record {
      fails = s.fails.items;
      pages = s.pages;
      faults = s.faults;
    } };
}

impl FaultyRack {
    /// A rack that has taken no disk back. The calls whose numbers, counted from 1 for each disk, stand in `fails` answer Failed.
    pub fn make(fails: Vec<u64>) -> FaultyRack
        ensures { result ≡ record { fails = fails.items; pages = 0; faults = 0 } }
    {
        FaultyRack {
            fails,
            pages: 0,
            faults: 0,
        }
    }

    /// The pages written by the disks that were taken back. At 2^64 - 1 the number stays; it is told while it is below 2^63.
    pub fn page_count(&self) -> u64
        ensures { result ≡ self.now.pages }
    {
        self.pages
    }

    /// The count of faults.
    pub fn fault_count(&self) -> u64
        ensures { result ≡ self.now.faults }
    {
        self.faults
    }
}

impl Rack for FaultyRack {
    type D = FaultyDisk;

    ghost written = { λ rack. told_below rack.pages };

    ghost faults = { λ rack. rack.faults };

    fn lend(&mut self, alloc: Global, _flusher: u32, rate: u64) -> Result<FaultyDisk, NoMemory>
        requires { 1 ≤ rate }
        ensures lends { IfOk result (λ disk. disk ≡ record { rate = rate; busy = 0; pages = 0; fails = self.old.fails; calls = 0; faults = 0 }) }
        ensures same { self.new ≡ self.old }
    {
        let fails = self.fails.as_slice().to_vec(alloc)?;
        Ok(FaultyDisk::make(rate, fails))
    }

    fn give(&mut self, disk: FaultyDisk)
        ensures pages { self.new.pages ≡ more disk.pages self.old.pages }
        ensures faults { self.new.faults ≡ more disk.faults self.old.faults }
        ensures fails { self.new.fails ≡ self.old.fails }
    {
        self.pages = self.pages.saturating_add(disk.page_count());
        self.faults = self.faults.saturating_add(disk.fault_count());
    }
}
