//! The timer takes a turn after the opening, beside the CPUs.

ghost use Rattle.std.specs.Prelude.{◌≡◌, ◌==◌, not, true};
ghost use Rattle.wbt_io.specs.Gates.{both_are};

use crate::runs::run_text;
use std::sync::atomic::{AtomicBool, AtomicU64, Ordering};
use std::test::Fail;
use std::thread;
use wbt_io::{Clock, Gate, ModelRack};
use wbt_journal::{Ending, Journal, TimerEntry};
use wbt_num::Limits;
use wbt_run::RunEnd;

// Memory goes at tick 150, and the task writes after tick 300.
const LESS_MEMORY: &[u8] =
    b"cpus 1\navail 0 100000\ndevice 0 25600 0 100\ncontext 0 0 0\ninode 0 0 2\ntask 0 0\nflusher 0 0 0\navail 150 50000\nrest 0 300\nwrite 0 0 0 1\n";

// When the timer's next turn is due.
const NEXT_TURN: u64 = 201;

// How often a held call looks before it gives up: some tens of seconds, less than a test may take.
const MOST_LOOKS: u64 = 100_000_000;

// A clock that starts at 1 and moves by rests. It counts its answers, and notes when one is late enough for the timer.
#[derive(Drop)]
struct CountingClock {
    shows: AtomicU64,
    answers: AtomicU64,
    late: AtomicBool,
}

impl CountingClock {
    fn make() -> CountingClock {
        CountingClock {
            shows: AtomicU64::new(1),
            answers: AtomicU64::new(0),
            late: AtomicBool::new(false),
        }
    }
}

impl Clock for CountingClock {
    ghost told = { λ _ _. Unit {0} };

    fn now(&self) -> u64 {
        let shows = self.shows.load(Ordering::SeqCst);
        if shows >= NEXT_TURN {
            self.late.store(true, Ordering::SeqCst);
        }
        self.answers.fetch_add(1, Ordering::SeqCst);
        shows
    }

    fn rest(&self, ticks: u64) {
        self.shows.fetch_add(ticks, Ordering::SeqCst);
    }
}

// Once a late moment was told it holds CPU 0's first step until the clock has answered three more times: CPU 0 doesn't ask it then, so the
// timer does.
#[derive(Drop)]
struct LateGate<'c> {
    clock: &'c CountingClock,
    held: AtomicBool,
    given_up: AtomicBool,
}

impl LateGate<'_> {
    fn hold(&self) {
        let last = self.clock.answers.load(Ordering::SeqCst).saturating_add(3);
        for _look in 0..MOST_LOOKS {
            if self.clock.answers.load(Ordering::SeqCst) >= last {
                return;
            }
            thread::yield_now();
        }
        self.given_up.store(true, Ordering::SeqCst);
    }
}

impl Gate for LateGate<'_> {
    ghost said = { λ _ _ _ answer. answer ≡ true };

    ghost one_answer = { λ gate cpu steps a b. both_are a b true };

    fn may_step(&self, cpu: u32, _steps: u64) -> bool
        ensures { result ≡ true }
    {
        if cpu == 0
            && self.clock.late.load(Ordering::SeqCst)
            && !self.held.swap(true, Ordering::SeqCst)
        {
            self.hold();
        }
        true
    }
}

// The limits of the timer's line of this place.
fn limits_at(journal: &Journal, place: usize) -> Option<Limits> {
    match journal.timer.as_slice().get(place) {
        Some(TimerEntry::Limits { limits, .. }) => Some(*limits),
        Some(TimerEntry::Period { .. }) | None => None,
    }
}

fn second_limits(end: &RunEnd) -> Option<Limits> {
    match end {
        RunEnd::Finished(journal) => limits_at(journal, 1),
        RunEnd::Faulted(_) | RunEnd::Spent(_) | RunEnd::NoMemory => None,
    }
}

#[test]
fn the_timer_takes_a_turn(rt: HostRuntime) -> Result<(), Fail> {
    let clock = CountingClock::make();
    let gate = LateGate {
        clock: &clock,
        held: AtomicBool::new(false),
        given_up: AtomicBool::new(false),
    };
    let mut rack = ModelRack::make();
    let end = run_text(&rt, rt.alloc(), LESS_MEMORY, &clock, &gate, &mut rack)?;
    assert!(rt; gate.held.load(Ordering::SeqCst));
    assert!(rt; !gate.given_up.load(Ordering::SeqCst));
    assert_eq!(rt;
        second_limits(&end),
        Some(Limits {
            thresh: 9997,
            bg: 4992,
            hard: 19683,
        })
    );
    Ok(())
}

// Stops the timer alone.
#[derive(Drop)]
struct TimerStops {
    cpus: u32,
    stopped: AtomicBool,
}

impl Gate for TimerStops {
    ghost said = { λ gate cpu _ answer. answer ≡ not (cpu == gate.cpus) };

    ghost one_answer = { λ gate cpu steps a b. both_are a b (not (cpu == gate.cpus)) };

    fn may_step(&self, cpu: u32, _steps: u64) -> bool
        ensures { result ≡ not (cpu == self.now.cpus) }
    {
        if cpu == self.cpus {
            self.stopped.store(true, Ordering::SeqCst);
            return false;
        }
        true
    }
}

// How a run ended, and how many lines its timer has.
fn timer_lines(end: &RunEnd) -> Option<(Ending, usize)> {
    match end {
        RunEnd::Finished(journal) => Some((journal.ending, journal.timer.as_slice().len())),
        RunEnd::Faulted(_) | RunEnd::Spent(_) | RunEnd::NoMemory => None,
    }
}

#[test]
fn a_run_whose_timer_is_stopped_ends_as_its_cpus_do(rt: HostRuntime) -> Result<(), Fail> {
    let clock = CountingClock::make();
    let gate = TimerStops {
        cpus: 1,
        stopped: AtomicBool::new(false),
    };
    let mut rack = ModelRack::make();
    let end = run_text(&rt, rt.alloc(), LESS_MEMORY, &clock, &gate, &mut rack)?;
    assert_eq!(rt; timer_lines(&end), Some((Ending::Done, 1)));
    Ok(())
}
