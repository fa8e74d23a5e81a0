//! What the workers of a run tell each other.

ghost use Rattle.std.specs.Prelude.{◌≡◌, IfOk};
ghost use Rattle.wbt_signals.specs.Signals.{first_voice};

use std::alloc::{AllocError, Global};
use std::sync::atomic::{AtomicBool, AtomicUsize, Ordering};
use std::thread;
use wbt_io::Clock;
use wbt_signals::{Signals, Voice};

// How many ticks a worker waits for the others: two seconds of the machine's clock.
const MOST_WAIT: u64 = 2000;

// How often it looks for them at most, whatever the clock shows: some tens of seconds.
const MOST_LOOKS: u64 = 40_000_000;

/// The signals by which workers end: whether all are to stop, how many CPUs have tasks that haven't ended, and how many CPUs' workers haven't
/// left. And besides, of which clauses say nothing, how many workers haven't come to their first turn, and whether one thread is to serve all.
#[derive(Drop)]
pub struct Condition {
    pub signals: Signals,
    coming: AtomicUsize,
    in_turns: AtomicBool,
}

impl Condition {
    /// Before any worker begins: each of so many CPUs has tasks. The timer's worker is to come too. The voice speaks for all CPUs.
    pub fn make(alloc: Global, cpus: u32) -> Result<(Condition, Voice), AllocError>
        ensures { IfOk result (λ made. made.1 ≡ first_voice made.0.signals cpus) }
    {
        let (signals, voice) = Signals::make(alloc, cpus as u64)?;
        let condition = Condition {
            signals,
            coming: AtomicUsize::new((cpus as usize).saturating_add(1)),
            in_turns: AtomicBool::new(false),
        };
        Ok((condition, voice))
    }

    /// A worker comes to its first turn, and waits for the others; at each look for them it asks the clock. Where one doesn't come within two seconds
    /// of it, as where no thread could be made for it, one thread is to serve all. Each comes once.
    pub fn meet<C: Clock>(&self, clock: &C) {
        self.coming.fetch_sub(1, Ordering::SeqCst);
        let since = clock.now();
        for _look in 0..MOST_LOOKS {
            if self.is_in_turns() || self.coming.load(Ordering::SeqCst) == 0 {
                return;
            }
            if clock.now().saturating_sub(since) >= MOST_WAIT {
                break;
            }
            thread::yield_now();
        }
        self.in_turns.store(true, Ordering::SeqCst);
    }

    /// Whether one thread is to serve all workers, each in turn.
    pub fn is_in_turns(&self) -> bool {
        self.in_turns.load(Ordering::SeqCst)
    }
}
