//! The timer's turns on a small machine, with a clock that is moved between them.

ghost use Rattle.std.specs.Prelude.{IfOk};
ghost use Rattle.wbt_timer.specs.Ready.{IsReady};

use std::alloc::Global;
use std::marker::Model;
use std::test::Fail;
use wbt_io::{Clock, FreeGate, Gate, HaltGate, HandClock};
use wbt_journal::TimerEntry;
use wbt_kit::{Kit, Seats, Turn};
use wbt_num::Limits;
use wbt_timer::TimerSide;
use wbt_trace::Trace;
use wbt_trace_text::{TraceFault, read_trace};

// Half the pages are there from tick 150 on.
const HALVED: &[u8] =
    b"cpus 1\navail 0 100000\navail 150 50000\ndevice 0 25600 0 100\ncontext 0 0 0\ninode 0 0 2\ntask 0 0\nflusher 0 0 0\n";

// The timer of a machine, with its kit, its seats and its lines.
#[derive(Drop)]
struct Opened {
    trace: Trace,
    kit: Kit,
    seats: Seats,
    side: TimerSide,
    log: Vec<TimerEntry>,
}

// Opened at 1.
fn open_at_one(alloc: Global) -> Result<Opened, TraceFault>
    ensures { IfOk result (λ at. IsReady at.trace at.kit at.side at.seats) }
{
    let trace = read_trace(alloc, HALVED)?;
    let Ok((kit, seats)) = Kit::make(alloc, &trace, 1) else {
        return Err(TraceFault::NoMemory);
    };
    let mut log = Vec::new(alloc);
    match TimerSide::make(alloc, &trace, 1, &mut log) {
        Ok(side) => Ok(Opened {
            trace,
            kit,
            seats,
            side,
            log,
        }),
        Err(_) => Err(TraceFault::NoMemory),
    }
}

impl Opened {
    fn turn_under<C: Clock, G: Gate>(&mut self, alloc: Global, clock: &C, gate: &G) -> Turn
        requires { IsReady self.old.trace self.old.kit self.old.side self.old.seats }
        ensures { IsReady self.new.trace self.new.kit self.new.side self.new.seats }
    {
        self.side.turn(
            alloc,
            &self.kit,
            &mut self.seats,
            clock,
            gate,
            &mut self.log,
        )
    }
}

// The timer, always ready for its next turn.
#[derive(Drop)]
struct Ready {
    opened: Opened,
}

impl Model for Ready {
    ghost Value = { Unit {0} };

    ghost view = { λ _. tt };

    ghost invariant = { λ s. IsReady s.opened.trace s.opened.kit s.opened.side s.opened.seats };
}

impl Ready {
    fn at_one(alloc: Global) -> Result<Ready, TraceFault> {
        match open_at_one(alloc) {
            Ok(opened) => Ok(Ready { opened }),
            Err(fault) => Err(fault),
        }
    }

    fn turn_under<C: Clock, G: Gate>(&mut self, alloc: Global, clock: &C, gate: &G) -> Turn {
        self.opened.turn_under(alloc, clock, gate)
    }

    fn turn<C: Clock>(&mut self, alloc: Global, clock: &C) -> Turn {
        self.turn_under(alloc, clock, &FreeGate)
    }

    // How many lines there are, and the last one.
    fn lines(&self) -> (usize, Option<TimerEntry>) {
        let lines = self.opened.log.as_slice();
        (lines.len(), lines.last().copied())
    }
}

#[test]
fn it_rests_until_its_next_moment(rt: HostRuntime) -> Result<(), Fail> {
    let mut timer = Ready::at_one(rt.alloc())?;
    let clock = HandClock::make(1);
    let first = timer.turn(rt.alloc(), &clock);
    clock.rest(50);
    let second = timer.turn(rt.alloc(), &clock);
    let rests = [
        Turn::Resting { now: 1, until: 201 },
        Turn::Resting {
            now: 51,
            until: 201,
        },
    ];
    assert_eq!(rt; [first, second], rests);
    Ok(())
}

// The line of the only domain's limits, that were published at a moment.
fn line_at(now: u64) -> TimerEntry {
    TimerEntry::Limits {
        domain: 0,
        now,
        limits: Limits {
            thresh: 9997,
            bg: 4992,
            hard: 19683,
        },
    }
}

#[test]
fn a_limit_follows_its_threshold(rt: HostRuntime) -> Result<(), Fail> {
    let mut timer = Ready::at_one(rt.alloc())?;
    let clock = HandClock::make(1);
    clock.rest(200);
    let first = timer.turn(rt.alloc(), &clock);
    let second = timer.turn(rt.alloc(), &clock);
    let rests = Turn::Resting {
        now: 201,
        until: 401,
    };
    assert_eq!(rt; [first, second], [Turn::Stepped, rests]);
    assert_eq!(rt; timer.lines(), (2, Some(line_at(201))));
    Ok(())
}

// Before the turn's first step the timer has made none, and count and peak ask for no leave.
#[test]
fn a_publication_that_was_stopped_halts_the_turn_and_the_next_one_publishes(
    rt: HostRuntime,
) -> Result<(), Fail> {
    let mut timer = Ready::at_one(rt.alloc())?;
    let clock = HandClock::make(1);
    clock.rest(200);
    let first = timer.turn_under(rt.alloc(), &clock, &HaltGate { halt: 3 });
    let lines = timer.lines().0;
    clock.rest(200);
    let second = timer.turn(rt.alloc(), &clock);
    assert_eq!(rt; [first, second], [Turn::Halted, Turn::Stepped]);
    assert_eq!(rt; lines, 1);
    assert_eq!(rt; timer.lines().1, Some(line_at(401)));
    Ok(())
}
