//! What workers tell each other, and what a turn is to its worker.

use std::sync::atomic::{AtomicU64, Ordering};
use std::test::Fail;
use wbt_io::Clock;
use wbt_kit::Turn;
use wbt_run_worker::{Condition, JobOutcome, job_of};

#[test]
fn all_have_written_when_each_has(rt: HostRuntime) -> Result<(), Fail> {
    let (condition, mut first) = Condition::make(rt.alloc(), 2)?;
    let mut second = condition.signals.split(&mut first);
    condition.signals.has_written(&mut first);
    assert!(rt; !condition.signals.is_quiet(&mut second));
    condition.signals.has_written(&mut second);
    assert!(rt; condition.signals.is_quiet(&mut first));
    assert!(rt; !condition.signals.all_have_left(&mut first));
    Ok(())
}

// The timer's worker isn't counted: it waits for the others.
#[test]
fn all_have_left_when_each_cpu_has(rt: HostRuntime) -> Result<(), Fail> {
    let (condition, mut first) = Condition::make(rt.alloc(), 2)?;
    let mut second = condition.signals.split(&mut first);
    condition.signals.leave(&mut first);
    assert!(rt; !condition.signals.all_have_left(&mut second));
    condition.signals.leave(&mut second);
    assert!(rt; condition.signals.all_have_left(&mut first));
    Ok(())
}

#[test]
fn all_hear_the_bell(rt: HostRuntime) -> Result<(), Fail> {
    let (condition, mut first) = Condition::make(rt.alloc(), 2)?;
    let mut second = condition.signals.split(&mut first);
    assert!(rt; !condition.signals.is_rung(&mut first));
    condition.signals.ring(&mut second);
    assert!(rt; condition.signals.is_rung(&mut first));
    Ok(())
}

// A clock that begins at 0 and shows a tick more at each look.
#[derive(Drop)]
struct LookClock {
    looks: AtomicU64,
}

impl Clock for LookClock {
    ghost told = { λ _ _. Unit {0} };

    fn now(&self) -> u64 {
        self.looks.fetch_add(1, Ordering::SeqCst)
    }

    fn rest(&self, _ticks: u64) {}
}

// The timer's worker doesn't come. Its first look at the clock is at 0, and the last one at 2000.
#[test]
fn a_worker_waits_two_seconds_for_the_others(rt: HostRuntime) -> Result<(), Fail> {
    let (condition, _first) = Condition::make(rt.alloc(), 1)?;
    let clock = LookClock {
        looks: AtomicU64::new(0),
    };
    assert!(rt; !condition.is_in_turns());
    condition.meet(&clock);
    assert!(rt; condition.is_in_turns());
    assert_eq!(rt; clock.looks.load(Ordering::SeqCst), 2001);
    Ok(())
}

fn ticks_of(job: JobOutcome) -> Option<u64> {
    match job {
        JobOutcome::Resting { ticks } => Some(ticks),
        JobOutcome::Stepped | JobOutcome::Over | JobOutcome::Ends { end: _ } => None,
    }
}

#[test]
fn a_rest_is_what_is_left_of_it(rt: HostRuntime) -> Result<(), Fail> {
    let job = job_of(Turn::Resting { now: 3, until: 5 });
    assert_eq!(rt; ticks_of(job), Some(2));
    Ok(())
}
