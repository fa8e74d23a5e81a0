//! A disk that writes pages at a rate, one batch after another.

ghost use Rattle.std.specs.Prelude.{◌≡◌, ℕ, ◌≤◌, ◌<◌, length, max, Some, Ok, OnOk, OnErr};
ghost use Rattle.wbt_io.specs.Faults.{HasRisen, more};
ghost use Rattle.wbt_io.specs.Moments.{done_at};
ghost use Rattle.wbt_io.specs.Pages.{Grows, told_below};

use crate::{Disk, Failed};

// The last moment at which a disk says that it is done.
const LAST_DONE: u128 = 1 << 63;

/// A disk that writes at its rate and never fails. It begins a batch when the one before it is done.
#[derive(Drop, Debug)]
pub struct ModelDisk {
    /// Pages a second, at least 1.
    pub rate: u64,
    /// The moment, in ticks, at which the last batch is done.
    pub busy: u64,
    /// The pages written. At 2^64 - 1 the number stays; it is told while it is below 2^63.
    pub pages: u64,
    pub ghost rated: { 1 ≤ rate },
}

impl Disk for ModelDisk {
    ghost written = { λ disk. told_below disk.pages };

    ghost faults = { λ _. 0 };

    fn write(&mut self, pages: &[u32], now: u64) -> Result<u64, Failed>
        // It is done when it would be if it began now, or when the batch before is done where that is later.
        ensures answer { result ≡ Ok (done_at (max now self.old.busy) (length pages.now) self.old.rate) }
        ensures busy { self.new.busy ≡ done_at (max now self.old.busy) (length pages.now) self.old.rate }
        ensures pages { self.new.pages ≡ more (length pages.now) self.old.pages }
        ensures rate { self.new.rate ≡ self.old.rate }
    {
        let done = done_at(now.max(self.busy), pages.len() as u64, self.rate);
        self.busy = done;
        self.pages = self.pages.saturating_add(pages.len() as u64);
        Ok(done)
    }
}

/// When a disk of this rate, in pages a second, that begins at `start` has written so many pages; at most 2^63. It is
/// computed in 128 bits.
pub fn done_at(start: u64, pages: u64, rate: u64) -> u64
    requires { 1 ≤ rate }
    ensures { result ≡ done_at start pages rate }
{
    let ticks = (pages as u128 * 1000).div_ceil(rate as u128);
    (start as u128 + ticks).min(LAST_DONE) as u64
}
