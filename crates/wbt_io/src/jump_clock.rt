//! A clock that tells a list of moments, in whatever order they stand.

ghost use Rattle.std.specs.Prelude.{◌≤◌, length, IsOk};

use crate::clock::add_to;
use crate::{Clock, NoMemory};
use std::alloc::Global;
use std::sync::atomic::{AtomicU64, Ordering};

/// A clock that shows the numbers of a list, one at each call. After the last one it shows this number with the ticks that
/// were rested since it was shown.
#[derive(Drop)]
pub struct JumpClock {
    moments: Vec<u64>,
    shown: AtomicU64,
    rested: AtomicU64,
    ghost some: { 1 ≤ length moments.items },
}

impl JumpClock {
    /// A clock that shows these numbers, of which there is at least one. It takes no memory.
    pub fn make(_alloc: Global, moments: Vec<u64>) -> Result<JumpClock, NoMemory>
        requires { 1 ≤ length moments.items }
        ensures { IsOk result }
    {
        Ok(JumpClock {
            moments,
            shown: AtomicU64::new(0),
            rested: AtomicU64::new(0),
        })
    }
}

impl Clock for JumpClock {
    ghost told = { λ _ _. Unit {0} };

    fn now(&self) -> u64 {
        let shown = add_to(&self.shown, 1);
        let last = self.moments.len() - 1;
        if shown <= last as u64 {
            self.moments[shown as usize]
        } else {
            self.moments[last].saturating_add(self.rested.load(Ordering::SeqCst))
        }
    }

    /// Adds the ticks, once the last number of the list was shown.
    fn rest(&self, ticks: u64) {
        if self.shown.load(Ordering::SeqCst) >= self.moments.len() as u64 {
            add_to(&self.rested, ticks);
        }
    }
}
