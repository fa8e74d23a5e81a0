//! Where moments come from: a clock tells ticks.

ghost use Rattle.std.specs.Prelude.{◌≡◌, ℕ, ◌≤◌, ◌<◌, ◌^◌};
ghost use Rattle.wbt_io.specs.Moments.{moment_of};

use std::sync::atomic::{AtomicU64, Ordering};

/// Tells moments, in ticks, and lets time go by. It promises nothing: it may stand or go back.
pub trait Clock {
    /// The clock told this moment. Each answer tells one, and generic code knows of no other.
    ghost told: { Self → ℕ → Type 0 };

    /// What the clock shows. An answer of 2^62 or more tells the moment 2^62 - 1.
    fn now(&self) -> u64
        ensures { told self.now (moment_of result) };

    /// Lets so many ticks go by, as far as the clock can.
    fn rest(&self, ticks: u64);
}

/// A clock that moves by rests alone, which any thread may make. No clause knows where it stands.
#[derive(Drop)]
pub struct HandClock {
    shows: AtomicU64,
}

impl HandClock {
    /// A clock that shows this number.
    pub fn make(at: u64) -> HandClock {
        HandClock {
            shows: AtomicU64::new(at),
        }
    }
}

impl Clock for HandClock {
    ghost told = { λ _ _. Unit {0} };

    fn now(&self) -> u64 {
        self.shows.load(Ordering::SeqCst)
    }

    /// Adds the ticks. At 2^64 - 1 it stays.
    fn rest(&self, ticks: u64) {
        add_to(&self.shows, ticks);
    }
}

/// A clock that always shows the same number.
#[derive(Clone, Copy, Debug)]
pub struct StillClock {
    /// What it shows.
    pub at: u64,
}

impl StillClock {
    /// A clock that shows this number.
    pub fn make(at: u64) -> StillClock
        ensures { result ≡ record { at = at } }
    {
        StillClock { at }
    }
}

impl Clock for StillClock {
    ghost told = { λ clock moment. moment ≡ moment_of clock.at };

    fn now(&self) -> u64
        ensures { result ≡ self.now.at }
    {
        self.at
    }

    fn rest(&self, _ticks: u64) {}
}

/// The moment that the clock tells, below 2^62.
pub fn told_moment<C: Clock>(clock: &C) -> u64
    ensures told { C.told clock.now result }
    ensures in_range { result < 2 ^ 62 }
{
    clock.now().min(LAST_MOMENT)
}

// The last moment that a clock can tell.
const LAST_MOMENT: u64 = (1 << 62) - 1;

// Adds to a number that threads share, and answers what it was. At 2^64 - 1 it stays.
pub(crate) fn add_to(number: &AtomicU64, more: u64) -> u64 {
    let added = number.fetch_update(Ordering::SeqCst, Ordering::SeqCst, |before| {
        Some(before.saturating_add(more))
    });
    match added {
        Ok(before) | Err(before) => before,
    }
}
