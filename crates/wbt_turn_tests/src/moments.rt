//! When a check asks the clock.

ghost use Rattle.std.specs.Prelude.{◌≡◌, true};
ghost use Rattle.wbt_io.specs.Gates.{both_are};

use std::sync::atomic::{AtomicU64, Ordering};
use std::test::Fail;
use turns_taken::moves::WRITES;
use turns_taken::taken::take;
use wbt_io::{Clock, Gate, ModelRack};
use wbt_journal::CpuJournal;

// A writer may dirty one page before its check.
const ONE_PAGE_A_CHECK: &[u8] =
    b"cpus 1\ncap 1\navail 0 100000\ndevice 0 25600 0 100\ncontext 0 0 0\ninode 0 0 2\ntask 0 0\nflusher 0 0 0\nwrite 0 0 0 2\n";

// The same in a cgroup.
const ONE_PAGE_A_CHECK_IN_A_CGROUP: &[u8] =
    b"cpus 1\ncap 1\navail 0 100000\ndevice 0 25600 0 100\ncgroup 1 50000 50000\ncontext 0 0 1\ninode 0 0 2\ntask 0 0\nflusher 0 0 0\nwrite 0 0 0 2\n";

// A clock that starts at 1. A gate moves it.
#[derive(Drop)]
struct StepClock {
    shows: AtomicU64,
}

impl Clock for StepClock {
    ghost told = { λ _ _. Unit {0} };

    fn now(&self) -> u64 {
        self.shows.load(Ordering::SeqCst)
    }

    fn rest(&self, ticks: u64) {
        self.shows.fetch_add(ticks, Ordering::SeqCst);
    }
}

// Each step takes a tick.
#[derive(Drop)]
struct StepGate<'c> {
    clock: &'c StepClock,
}

impl Gate for StepGate<'_> {
    ghost said = { λ _ _ _ answer. answer ≡ true };

    ghost one_answer = { λ gate cpu steps a b. both_are a b true };

    fn may_step(&self, _cpu: u32, _steps: u64) -> bool
        ensures { result ≡ true }
    {
        self.clock.rest(1);
        true
    }
}

// The moment of the first check.
fn first_moment(log: &CpuJournal) -> Option<u64> {
    match log.checks.as_slice().first() {
        Some(check) => Some(check.now),
        None => None,
    }
}

// A page takes four steps, and then a check's loads take five: the clock shows 10 after them. In a cgroup they take five and nine.
#[test]
fn a_check_asks_the_clock_after_its_loads(rt: HostRuntime) -> Result<(), Fail> {
    for (text, moment) in [(ONE_PAGE_A_CHECK, 10), (ONE_PAGE_A_CHECK_IN_A_CGROUP, 15)] {
        let mut rack = ModelRack::make();
        let clock = StepClock {
            shows: AtomicU64::new(1),
        };
        let gate = StepGate { clock: &clock };
        let taken = take(
            &rt,
            rt.alloc(),
            text,
            &clock,
            &gate,
            &mut rack,
            &[WRITES, WRITES],
        )?;
        assert_eq!(rt; first_moment(&taken.log), Some(moment));
    }
    Ok(())
}
