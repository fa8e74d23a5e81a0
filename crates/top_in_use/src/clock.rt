//! Clocks that several tests run by: one that moves slowly, whoever rests by it, and one that jumps.

use std::alloc::Global;
use std::sync::atomic::{AtomicU64, Ordering};
use std::test::Fail;
use std::thread;
use wbt_io::{Clock, JumpClock};

// How many rests make a tick.
const RESTS_A_TICK: u64 = 100;

/// It begins at 1 and moves by a tick in a hundred rests, however long they are, of which each lets other threads go first. So the workers that wait for a
/// thread that is stopped for seconds see some thousands of ticks, and the timer tells no more than that.
#[derive(Drop)]
pub struct SlowClock {
    rests: AtomicU64,
}

impl SlowClock {
    /// A clock at 1, by which nobody has rested.
    pub fn make() -> SlowClock {
        SlowClock {
            rests: AtomicU64::new(0),
        }
    }
}

impl Clock for SlowClock {
    ghost told = { λ _ _. Unit {0} };

    fn now(&self) -> u64 {
        (self.rests.load(Ordering::SeqCst) / RESTS_A_TICK).saturating_add(1)
    }

    fn rest(&self, _ticks: u64) {
        self.rests.fetch_add(1, Ordering::SeqCst);
        thread::yield_now();
    }
}

// How often a clock that jumps shows the same moments again.
const MOST_JUMPS: u64 = 8192;

/// A clock that begins at 1, jumps to and fro between four moments for some ten thousands of looks, and then to one that is far ahead. The workers of a
/// run look thousands of times until all have come, and it jumps still when they take their turns.
pub fn jumping_clock(alloc: Global) -> Result<JumpClock, Fail> {
    let mut moments = Vec::new(alloc);
    for _jump in 0..MOST_JUMPS {
        for moment in [1, 500, 3, 0] {
            moments.push(moment)?;
        }
    }
    moments.push(1_000_000_000)?;
    Ok(JumpClock::make(alloc, moments)?)
}
