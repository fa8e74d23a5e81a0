//! A disk that fails at the calls that it is told.

ghost use Rattle.std.specs.Prelude.{◌≡◌, ℕ, ◌+◌, ◌≤◌, ◌<◌, ◌↔◌, length, max, Some, IfOk, OnOk, OnErr, IsErr, Contains};
ghost use Rattle.wbt_io.specs.Faults.{HasRisen, more, one_more};
ghost use Rattle.wbt_io.specs.Memory.{DiskInMemory};
ghost use Rattle.wbt_io.specs.Moments.{done_at};
ghost use Rattle.wbt_io.specs.Pages.{Grows, told_below};

use crate::calls::Calls;
use crate::{Disk, Failed, ModelDisk};
use std::marker::Model;

/// A model disk some of whose calls fail. Contracts see it as a `DiskInMemory`.
#[derive(Drop)]
pub struct FaultyDisk {
    disk: ModelDisk,
    calls: Calls,
}

impl Model for FaultyDisk {
    ghost Value = { DiskInMemory };

    ghost view = { λ s. record {
      rate = s.disk.rate;
      busy = s.disk.busy;
      pages = s.disk.pages;
      fails = s.calls.fails.items;
      calls = s.calls.made;
      faults = s.calls.faults;
    } };
}

impl FaultyDisk {
    /// A disk of this rate, in pages a second. The calls whose numbers, counted from 1, stand in `fails` answer Failed.
    pub fn make(rate: u64, fails: Vec<u64>) -> FaultyDisk
        requires { 1 ≤ rate }
        ensures { result ≡ record { rate = rate; busy = 0; pages = 0; fails = fails.items; calls = 0; faults = 0 } }
    {
        FaultyDisk {
            disk: ModelDisk {
                rate,
                busy: 0,
                pages: 0,
            },
            calls: Calls::make(fails),
        }
    }

    /// The pages written. At 2^64 - 1 the number stays; it is told while it is below 2^63.
    pub fn page_count(&self) -> u64
        ensures { result ≡ self.now.pages }
    {
        self.disk.pages
    }

    /// The count of faults.
    pub fn fault_count(&self) -> u64
        ensures { result ≡ self.now.faults }
    {
        self.calls.faults
    }
}

impl Disk for FaultyDisk {
    ghost written = { λ disk. told_below disk.pages };

    ghost faults = { λ disk. disk.faults };

    fn write(&mut self, pages: &[u32], now: u64) -> Result<u64, Failed>
        // As every disk: the count never falls, and a call fails only where it rose.
        ensures later { self.old.faults ≤ self.new.faults }
        ensures cause { OnErr result (HasRisen self.old.faults self.new.faults) }

        // It fails at just the calls that it was told, and each failure is a fault counted.
        ensures fails { IsErr result ↔ Contains self.old.fails (self.old.calls + 1) }
        ensures counted { OnErr result (self.new.faults ≡ one_more self.old.faults) }
        ensures not_counted { OnOk result (self.new.faults ≡ self.old.faults) }
        ensures called { self.new.calls ≡ one_more self.old.calls }

        // Else it does what a model disk does.
        ensures done { IfOk result (λ done. done ≡ done_at (max now self.old.busy) (length pages.now) self.old.rate) }
        ensures busy { IfOk result (λ done. self.new.busy ≡ done) }
        ensures pages { OnOk result (self.new.pages ≡ more (length pages.now) self.old.pages) }

        // A batch that failed takes no time, and none of its pages is written.
        ensures free { OnErr result (self.new.busy ≡ self.old.busy) }
        ensures unwritten { OnErr result (self.new.pages ≡ self.old.pages) }

        ensures rate { self.new.rate ≡ self.old.rate }
        ensures fails_stay { self.new.fails ≡ self.old.fails }
    {
        if self.calls.begin() {
            self.calls.count_fault();
            return Err(Failed);
        }
        self.disk.write(pages, now)
    }
}
