//! A gate at which three CPUs meet: where threads run beside each other all three come to it.

ghost use Rattle.std.specs.Prelude.{◌≡◌, true};
ghost use Rattle.wbt_io.specs.Gates.{both_are};

use std::sync::atomic::{AtomicBool, Ordering};
use std::thread;
use wbt_io::Gate;

// How often a call looks for the others before it gives up: some tens of seconds, less than a test may take.
const MOST_LOOKS: u64 = 100_000_000;

/// It holds the calls that ask for the third step of CPU 0, 1 and 2, each until all three have come. Once one of them has looked too
/// often, it holds nobody. It stops nobody.
#[derive(Drop)]
pub struct MeetingGate {
    came: [AtomicBool; 3],
    given_up: AtomicBool,
}

impl MeetingGate {
    /// A gate to which nobody has come.
    pub fn make() -> MeetingGate {
        MeetingGate {
            came: [
                AtomicBool::new(false),
                AtomicBool::new(false),
                AtomicBool::new(false),
            ],
            given_up: AtomicBool::new(false),
        }
    }

    /// All three came, and none had to give up.
    pub fn has_met(&self) -> bool {
        self.all_came() && !self.given_up.load(Ordering::SeqCst)
    }

    fn all_came(&self) -> bool {
        let [first, second, third] = &self.came;
        first.load(Ordering::SeqCst)
            && second.load(Ordering::SeqCst)
            && third.load(Ordering::SeqCst)
    }

    fn note(&self, cpu: u32) {
        for (at, came) in self.came.iter().enumerate() {
            if at == cpu as usize {
                came.store(true, Ordering::SeqCst);
            }
        }
    }

    fn hold(&self) {
        for _look in 0..MOST_LOOKS {
            if self.all_came() || self.given_up.load(Ordering::SeqCst) {
                return;
            }
            thread::yield_now();
        }
        self.given_up.store(true, Ordering::SeqCst);
    }
}

impl Gate for MeetingGate {
    ghost said = { λ _ _ _ answer. answer ≡ true };

    ghost one_answer = { λ gate cpu steps a b. both_are a b true };

    fn may_step(&self, cpu: u32, steps: u64) -> bool
        ensures { result ≡ true }
    {
        if steps == 2 && cpu < 3 {
            self.note(cpu);
            self.hold();
        }
        true
    }
}
