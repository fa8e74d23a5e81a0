//! The machine's clock.

use crate::Clock;
use std::time::{Duration, Instant};
use std::{thread, time};

/// The machine's clock, in ticks of a millisecond. It shows 1 when it is made, and wherever the machine's clock can't be read.
#[derive(Drop)]
pub struct RealClock<'a, R: time::Clock> {
    machine: &'a R,
    made: Option<Instant>,
}

impl<'a, R: time::Clock> RealClock<'a, R> {
    /// A clock that shows 1 now.
    pub fn make(machine: &'a R) -> RealClock<'a, R> {
        RealClock {
            machine,
            made: Instant::now(machine).ok(),
        }
    }

    // The time since it was made, where the machine's clock can be read.
    fn age(&self) -> Option<Duration> {
        self.made?.elapsed(self.machine).ok()
    }
}

impl<R: time::Clock> Clock for RealClock<'_, R> {
    ghost use Rattle.std.specs.Prelude.{◌≤◌};

    // No moment is before 1, which it shows when it is made.
    ghost told = { λ _ moment. 1 ≤ moment };

    fn now(&self) -> u64 {
        let ticks = self.age().map_or(0, |age| age.as_millis());
        u64::try_from(ticks).unwrap_or(u64::MAX).saturating_add(1)
    }

    /// The thread sleeps for so many milliseconds.
    fn rest(&self, ticks: u64) {
        thread::sleep(self.machine, Duration::from_millis(ticks));
    }
}
