//! Limits that are published while CPUs load them.

ghost use Rattle.std.specs.Prelude.{IfOk, IsTrue};
ghost use Rattle.std.specs.Thread.{IsSync};
ghost use Rattle.wbt_num.specs.Limits.{IsLawful};
ghost use Rattle.wbt_table.specs.Callers.{StepsFor};
ghost use Rattle.throttle_in_use.specs.Seats.{Loads, Ticks};

use std::alloc::Global;
use std::test::Fail;
use std::thread;
use std::thread::Threads;
use throttle_in_use::calls::layout;
use throttle_in_use::seats::{
    Four, Two, four_seats, load_under, loads_for, opened, publish_under, timer_apart, two_seats,
};
use throttle_in_use::stage::{HELD, LET_GO, LetsIn, Stage};
use throttle_in_use::unready::Unready;
use wbt_io::FreeGate;
use wbt_num::Limits;
use wbt_table::{CpuSeat, Loaded, Put, Throttle, Triple};

// Those of even versions, the first among them.
const EVEN: Limits = Limits {
    thresh: 100,
    bg: 50,
    hard: 100,
};

// Those of odd versions.
const ODD: Limits = Limits {
    thresh: 91,
    bg: 41,
    hard: 93,
};

fn limits_of(version: u64) -> Limits
    ensures { IsLawful result }
{
    if version % 2 == 0 { EVEN } else { ODD }
}

// What a CPU found.
#[derive(Drop)]
struct Found {
    seat: CpuSeat,
    // Whole triples.
    fresh: u64,
    // Answers that aren't as they must be.
    wrong: u64,
}

// Loads the limits so often, and looks that each triple is one of its version, and none older than one before.
fn load_often(throttle: &Throttle, seat: CpuSeat, cpu: u32, often: u64) -> Found
    requires { Loads throttle.now cpu seat }
    ensures { Loads throttle.now cpu result.seat }
{
    let mut seat = seat;
    let mut last = Triple {
        version: 0,
        limits: EVEN,
    };
    let mut fresh = 0u64;
    let mut wrong = 0u64;
    for _ in 0..often {
        match load_under(throttle, &mut seat, cpu, &FreeGate) {
            Loaded::Fresh(triple) => {
                fresh = fresh.saturating_add(1);
                if triple.version < last.version || triple.limits != limits_of(triple.version) {
                    wrong = wrong.saturating_add(1);
                }
                last = triple;
            }
            Loaded::Again {
                held,
                first: _,
                second: _,
            } => {
                if held != last {
                    wrong = wrong.saturating_add(1);
                }
            }
            Loaded::Stopped => wrong = wrong.saturating_add(1),
        }
    }
    Found { seat, fresh, wrong }
}

// Publishes so often, ODD and EVEN in turn: how often it was done.
fn publish_often(throttle: &Throttle, seat: &mut CpuSeat, often: u64) -> u64
    requires { Ticks throttle.now seat.old }
    ensures { Ticks throttle.now seat.new }
{
    let mut done = 0u64;
    for before in 0..often {
        let limits = limits_of(before.saturating_add(1));
        if publish_under(throttle, seat, limits, &FreeGate) == Put::Done {
            done = done.saturating_add(1);
        }
    }
    done
}

// Two CPUs load so often beside each other.
fn load_in_two<R: Threads>(
    rt: &R,
    throttle: &Throttle,
    two: CpuSeat,
    three: CpuSeat,
    often: u64,
) -> (Found, Found)
    requires seats { Loads throttle.now 2 two × Loads throttle.now 3 three }
    ensures { Loads throttle.now 2 result.0.seat × Loads throttle.now 3 result.1.seat }
{
    thread::join(
        rt,
        || -> Found
            requires { Loads throttle.now 2 two }
            ensures { Loads throttle.entry.now 2 result.seat }
        { load_often(throttle, two, 2, often) },
        || -> Found
            requires { Loads throttle.now 3 three }
            ensures { Loads throttle.entry.now 3 result.seat }
        { load_often(throttle, three, 3, often) },
    )
}

// The timer publishes so often, while CPU 1 loads as often.
fn publish_beside<R: Threads>(
    rt: &R,
    throttle: &Throttle,
    timer: CpuSeat,
    one: CpuSeat,
    often: u64,
) -> (u64, Found)
    requires seats { Ticks throttle.now timer × Loads throttle.now 1 one }
    ensures { Loads throttle.now 1 result.1.seat }
{
    thread::join(
        rt,
        || -> u64
            requires { Ticks throttle.now timer }
        {
            let mut seat = timer;
            publish_often(throttle, &mut seat, often)
        },
        || -> Found
            requires { Loads throttle.now 1 one }
            ensures { Loads throttle.entry.now 1 result.seat }
        { load_often(throttle, one, 1, often) },
    )
}

// All of them beside each other.
#[derive(Drop)]
struct All {
    done: u64,
    one: Found,
    two: Found,
    three: Found,
}

fn work_beside<R: Threads + Sync>(
    rt: &R,
    throttle: &Throttle,
    timer: CpuSeat,
    seats: Four,
    often: u64,
) -> All
    requires timer { Ticks throttle.now timer }
    requires one { Loads throttle.now 1 seats.two }
    requires others { Loads throttle.now 2 seats.three × Loads throttle.now 3 seats.four }
    ensures one { Loads throttle.now 1 result.one.seat }
    ensures others { Loads throttle.now 2 result.two.seat × Loads throttle.now 3 result.three.seat }
{
    let Four {
        one: _,
        two: one,
        three: two,
        four: three,
    } = seats;
    let (published, found) = thread::join(
        rt,
        || -> (u64, Found)
            requires { IsSync R.row × Ticks throttle.now timer × Loads throttle.now 1 one }
            ensures { Loads throttle.entry.now 1 result.1.seat }
        { publish_beside(rt, throttle, timer, one, often) },
        || -> (Found, Found)
            requires { IsSync R.row × Loads throttle.now 2 two × Loads throttle.now 3 three }
            ensures { Loads throttle.entry.now 2 result.0.seat × Loads throttle.entry.now 3 result.1.seat }
        { load_in_two(rt, throttle, two, three, often) },
    );
    let (done, one) = published;
    let (two, three) = found;
    All {
        done,
        one,
        two,
        three,
    }
}

// The version that a CPU finds whole, where it does.
fn version_found(throttle: &Throttle, seat: &mut CpuSeat, cpu: u32) -> Option<u64>
    requires { Loads throttle.now cpu seat.old }
    ensures { Loads throttle.now cpu seat.new }
{
    match load_under(throttle, seat, cpu, &FreeGate) {
        Loaded::Fresh(triple) => Some(triple.version),
        _ => None,
    }
}

// The versions that the three CPUs find whole.
fn versions_found(throttle: &Throttle, all: &mut All) -> [Option<u64>; 3]
    requires one { Loads throttle.now 1 all.old.one.seat }
    requires others { Loads throttle.now 2 all.old.two.seat × Loads throttle.now 3 all.old.three.seat }
{
    [
        version_found(throttle, &mut all.one.seat, 1),
        version_found(throttle, &mut all.two.seat, 2),
        version_found(throttle, &mut all.three.seat, 3),
    ]
}

// Whether the seat of a CPU loads limits for it.
fn loads_own(throttle: &Throttle, seat: &CpuSeat, cpu: u32) -> bool
    requires { StepsFor throttle.now cpu seat.now }
    ensures { IsTrue result → Loads throttle.now cpu seat.now }
{
    loads_for(throttle, seat, cpu)
}

// A throttle of four CPUs, the timer's seat, and those of the CPUs, of which the last three load limits.
fn timer_and_four(alloc: Global) -> Result<(Throttle, CpuSeat, Four), Unready>
    ensures timer { IfOk result (λ made. Ticks made.0 made.1) }
    ensures one { IfOk result (λ made. Loads made.0 1 made.2.two) }
    ensures others { IfOk result (λ made. Loads made.0 2 made.2.three × Loads made.0 3 made.2.four) }
{
    let (throttle, mut seat) = opened(alloc, layout(alloc, 4, 1)?)?;
    let timer = timer_apart(&throttle, alloc, &mut seat)?;
    let seats = four_seats(&throttle, alloc, seat)?;
    if !loads_own(&throttle, &seats.two, 1) {
        return Err(Unready::NotItsSeat);
    }
    if !loads_own(&throttle, &seats.three, 2) {
        return Err(Unready::NotItsSeat);
    }
    if !loads_own(&throttle, &seats.four, 3) {
        return Err(Unready::NotItsSeat);
    }
    Ok((throttle, timer, seats))
}

#[test]
fn three_cpus_find_each_triple_whole_beside_its_publisher(rt: HostRuntime) -> Result<(), Fail> {
    let (throttle, timer, seats) = timer_and_four(rt.alloc())?;
    let mut all = work_beside(&rt, &throttle, timer, seats, 3000);
    assert_eq!(rt; all.done, 3000);
    assert_eq!(rt; [all.one.wrong, all.two.wrong, all.three.wrong], [0, 0, 0]);
    let found = versions_found(&throttle, &mut all);
    assert_eq!(rt; found, [Some(3000), Some(3000), Some(3000)]);
    Ok(())
}

// Loads limits, and is held before the third step.
fn load_held(throttle: &Throttle, seat: CpuSeat, stage: &Stage) -> Loaded
    requires { Loads throttle.now 1 seat }
{
    let mut seat = seat;
    let gate = LetsIn {
        stage,
        steps: seat.steps(1).saturating_add(2),
    };
    load_under(throttle, &mut seat, 1, &gate)
}

// Publishes twice once the CPU is held, and lets it go on: how often it was done.
fn publish_let_in(throttle: &Throttle, seat: CpuSeat, stage: &Stage) -> u64
    requires { Ticks throttle.now seat }
{
    let mut seat = seat;
    stage.wait_for(HELD);
    let done = publish_often(throttle, &mut seat, 2);
    stage.come_to(LET_GO);
    done
}

fn publish_between<R: Threads>(
    rt: &R,
    throttle: &Throttle,
    timer: CpuSeat,
    one: CpuSeat,
    stage: &Stage,
) -> (u64, Loaded)
    requires seats { Ticks throttle.now timer × Loads throttle.now 1 one }
{
    thread::join(
        rt,
        || -> u64
            requires { Ticks throttle.now timer }
        { publish_let_in(throttle, timer, stage) },
        || -> Loaded
            requires { Loads throttle.now 1 one }
        { load_held(throttle, one, stage) },
    )
}

// A throttle of two CPUs, the timer's seat, and that of CPU 1, which loads limits.
fn timer_and_one(alloc: Global) -> Result<(Throttle, CpuSeat, CpuSeat), Unready>
    ensures { IfOk result (λ made. Ticks made.0 made.1 × Loads made.0 1 made.2) }
{
    let (throttle, mut seat) = opened(alloc, layout(alloc, 2, 1)?)?;
    let timer = timer_apart(&throttle, alloc, &mut seat)?;
    let Two { one: _, two } = two_seats(&throttle, alloc, seat)?;
    if !loads_own(&throttle, &two, 1) {
        return Err(Unready::NotItsSeat);
    }
    Ok((throttle, timer, two))
}

#[test]
fn a_load_that_publications_come_between_is_answered_again(rt: HostRuntime) -> Result<(), Fail> {
    let (throttle, timer, one) = timer_and_one(rt.alloc())?;
    let stage = Stage::make();
    let (done, loaded) = publish_between(&rt, &throttle, timer, one, &stage);
    assert!(rt; stage.was_kept());
    let held = Triple {
        version: 0,
        limits: EVEN,
    };
    let again = Loaded::Again {
        held,
        first: 100,
        second: 17179869284,
    };
    assert_eq!(rt; (done, loaded), (2, again));
    Ok(())
}
