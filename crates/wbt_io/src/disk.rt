//! Where a flusher's pages go.

ghost use Rattle.std.specs.Prelude.{◌≡◌, ℕ, ◌≤◌, ◌<◌, length, Option, Some, OnOk, OnErr};
ghost use Rattle.wbt_io.specs.Faults.{HasRisen};
ghost use Rattle.wbt_io.specs.Pages.{Grows};

use crate::Failed;

/// Where pages are written, a batch at a time.
///
/// A disk counts its faults in a u64, which never falls and which stays at its last value. It may tell how many pages were
/// written; where it tells them after a call, it told them before.
pub trait Disk {
    /// The pages written, where the disk tells them.
    ghost written: { Self → Option ℕ };

    /// The count of faults.
    ghost faults: { Self → ℕ };

    /// Writes a batch of pages, which isn't empty, and answers the moment at which it is done.
    fn write(&mut self, pages: &[u32], now: u64) -> Result<u64, Failed>
        requires { 0 < length pages.now }
        ensures ok { OnOk result (Grows (Some (length pages.now)) (written self.old) (written self.new)) }
        ensures err { OnErr result (written self.new ≡ written self.old) }

        // The count of faults never falls, and a call fails only where it rose.
        ensures later { faults self.old ≤ faults self.new }
        ensures cause { OnErr result (HasRisen (faults self.old) (faults self.new)) };
}
