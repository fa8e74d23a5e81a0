//! How a thread waits for others.

use std::sync::atomic::AtomicU64;
use std::sync::atomic::Ordering::SeqCst;
use std::thread;

// How often a thread looks before it gives up: some tens of seconds, less than a test may take.
const LOOKS: u32 = 100_000_000;

/// Whether the word comes to so much before the thread gives up.
pub fn comes_to(word: &AtomicU64, least: u64) -> bool {
    for _look in 0..LOOKS {
        if word.load(SeqCst) >= least {
            return true;
        }
        thread::yield_now();
    }
    false
}

/// Where CPUs meet.
#[derive(Drop)]
pub struct Meeting {
    pub cpus: u64,
    came: AtomicU64,
    // Not 0 where some CPU went on before all had come.
    gave_up: AtomicU64,
}

impl Meeting {
    /// A meeting of so many CPUs.
    pub fn of(cpus: u64) -> Meeting {
        Meeting {
            cpus,
            came: AtomicU64::new(0),
            gave_up: AtomicU64::new(0),
        }
    }

    /// Counts one in, and waits until so many were counted.
    pub fn wait_for(&self, least: u64) {
        let _ = self.came.fetch_add(1, SeqCst);
        if !comes_to(&self.came, least) {
            self.gave_up.store(1, SeqCst);
        }
    }

    /// Whether nobody went on before all had come.
    pub fn all_came(&self) -> bool {
        self.gave_up.load(SeqCst) == 0
    }
}
