//! Calls of a throttle, timed on one thread and on four, beside the bare atomic operations.

ghost use Rattle.std.specs.Prelude.{◌≡◌, ◌+◌, ◌*◌, ◌≤◌};
ghost use Rattle.std.specs.Thread.{IsSync};
ghost use Rattle.wbt_table.specs.Callers.{StepsFor};
ghost use Rattle.caller_of_throttle.specs.Machine.{machine_of};
ghost use Rattle.caller_of_throttle.specs.Work.{IsPart, IsLoader, HoldsFirst};

use crate::bare::Bare;
use caller_of_throttle::machine::machine;
use caller_of_throttle::seats::split_last;
use caller_of_throttle::worker::{Part, clean_part, dirty_part};
use std::alloc::Global;
use std::thread::Threads;
use std::time::Clock;
use std::{io, thread};
use wbt_io::FreeGate;
use wbt_num::NoMemory;
use wbt_table::{Counter, CpuSeat, Loaded, Throttle, Who};

// The pages of the largest table, and how many of them each CPU dirties: 32 for each of 256 writers.
const PAGES: u32 = 2_097_152;

const EACH: u32 = 256;

const PAGES_EACH: u32 = 32 * EACH;

// The nanoseconds of all calls of a kind, summed over threads.
#[derive(Clone, Copy)]
struct Times {
    dirty: u64,
    clean: u64,
    limits: u64,
    loads: u64,
    // What was found, so that no call is left out.
    found: u64,
}

impl Times {
    fn and(self, more: Times) -> Times {
        Times {
            dirty: self.dirty.saturating_add(more.dirty),
            clean: self.clean.saturating_add(more.clean),
            limits: self.limits.saturating_add(more.limits),
            loads: self.loads.saturating_add(more.loads),
            found: self.found ^ more.found,
        }
    }

    fn least(self, more: Times) -> Times {
        Times {
            dirty: self.dirty.min(more.dirty),
            clean: self.clean.min(more.clean),
            limits: self.limits.min(more.limits),
            loads: self.loads.min(more.loads),
            found: self.found ^ more.found,
        }
    }
}

// What a clock shows, in nanoseconds, or 0 where it can't be read.
fn nanos<C: Clock>(clock: &C) -> u64 {
    match clock.monotonic() {
        Ok(time) => u64::try_from(time.as_nanos()).unwrap_or(0),
        Err(_) => 0,
    }
}

fn load_limits(throttle: &Throttle, seat: &mut CpuSeat, cpu: u32, writer: u32) -> u64
    requires seat { StepsFor throttle.now cpu seat.old }
    requires writer { IsLoader throttle.now.layout cpu writer }
    ensures { StepsFor throttle.now cpu seat.new }
{
    match throttle.load_limits(seat, Who::Writer(writer), 0, &FreeGate) {
        Loaded::Fresh(triple) => triple.version ^ triple.limits.hard,
        Loaded::Again {
            held,
            first,
            second,
        } => held.version ^ first ^ second,
        Loaded::Stopped => 0,
    }
}

fn load_limits_part(throttle: &Throttle, seat: &mut CpuSeat, part: Part, times: u32) -> u64
    requires seat { StepsFor throttle.now part.cpu seat.old }
    requires writer { IsLoader throttle.now.layout part.cpu part.writer }
    ensures { StepsFor throttle.now part.cpu seat.new }
{
    let mut all = 0;
    for _time in 0..times {
        all ^= load_limits(throttle, seat, part.cpu, part.writer);
    }
    all
}

fn loads(throttle: &Throttle, seat: &mut CpuSeat, cpu: u32, writer: u32) -> u64
    requires seat { StepsFor throttle.now cpu seat.old }
    requires writer { IsLoader throttle.now.layout cpu writer }
    ensures { StepsFor throttle.now cpu seat.new }
{
    let who = Who::Writer(writer);
    let limits = load_limits(throttle, seat, cpu, writer);
    let domain = throttle.load_count(seat, who, Counter::Domain(0));
    let context = throttle.load_count(seat, who, Counter::Context(0));
    limits ^ domain.version ^ context.version
}

fn load_part(throttle: &Throttle, seat: &mut CpuSeat, part: Part, checks: u32) -> u64
    requires seat { StepsFor throttle.now part.cpu seat.old }
    requires writer { IsLoader throttle.now.layout part.cpu part.writer }
{
    let mut all = 0;
    for _check in 0..checks {
        all ^= loads(throttle, seat, part.cpu, part.writer);
    }
    all
}

// One thread's calls.
fn time_part<C: Clock>(clock: &C, throttle: &Throttle, mut seat: CpuSeat, part: Part) -> Times
    requires seat { StepsFor throttle.now part.cpu seat }
    requires part { IsPart throttle.now.layout part × IsLoader throttle.now.layout part.cpu part.writer }
{
    let begin = nanos(clock);
    let dirtied = dirty_part(throttle, &mut seat, part, &FreeGate);
    let then = nanos(clock);
    let cleaned = clean_part(throttle, &mut seat, part, &FreeGate);
    let last = nanos(clock);
    let limits = load_limits_part(throttle, &mut seat, part, part.pages);
    let loaded = nanos(clock);
    let found = load_part(throttle, &mut seat, part, part.pages);
    let end = nanos(clock);
    Times {
        dirty: then.saturating_sub(begin),
        clean: last.saturating_sub(then),
        limits: loaded.saturating_sub(last),
        loads: end.saturating_sub(loaded),
        found: found ^ limits ^ u64::from(dirtied) ^ u64::from(cleaned),
    }
}

fn time_bare<C: Clock>(clock: &C, bare: &Bare, part: Part) -> Times {
    let begin = nanos(clock);
    let dirtied = bare.dirty_part(part);
    let then = nanos(clock);
    let cleaned = bare.clean_part(part);
    let last = nanos(clock);
    let limits = bare.load_limits_part(part.pages);
    let loaded = nanos(clock);
    let found = bare.load_part(part.pages);
    let end = nanos(clock);
    Times {
        dirty: then.saturating_sub(begin),
        clean: last.saturating_sub(then),
        limits: loaded.saturating_sub(last),
        loads: end.saturating_sub(loaded),
        found: found ^ limits ^ u64::from(dirtied) ^ u64::from(cleaned),
    }
}

// The part of a CPU: its writers are its own, and its pages begin at its quarter of all.
fn part(cpu: u32) -> Part
    requires { cpu ≤ 3 }
    ensures { result ≡ record { cpu = cpu; writer = cpu * 256; first = cpu * 524288; pages = 8192 } }
{
    Part {
        cpu,
        writer: cpu * EACH,
        first: cpu * (PAGES / 4),
        pages: PAGES_EACH,
    }
}

// Two threads, for a CPU and the next one.
fn time_two<R: Threads + Clock + Sync>(
    rt: &R,
    throttle: &Throttle,
    one: CpuSeat,
    two: CpuSeat,
    cpu: u32,
) -> Times
    requires layout { throttle.now.layout ≡ machine_of 4 256 2097152 }
    requires seats { StepsFor throttle.now cpu one × StepsFor throttle.now (cpu + 1) two }
    requires cpu { cpu ≤ 2 }
{
    let low = part(cpu);
    let high = part(cpu + 1);
    let (first, second) = thread::join(
        rt,
        || -> Times
            requires { IsSync R.row × StepsFor throttle.now low.cpu one × IsPart throttle.now.layout low × IsLoader throttle.now.layout low.cpu low.writer }
        { time_part(rt, throttle, one, low) },
        || -> Times
            requires { IsSync R.row × StepsFor throttle.now high.cpu two × IsPart throttle.now.layout high × IsLoader throttle.now.layout high.cpu high.writer }
        { time_part(rt, throttle, two, high) },
    );
    first.and(second)
}

// Four threads.
fn time_four<R: Threads + Clock + Sync>(
    rt: &R,
    throttle: &Throttle,
    low: (CpuSeat, CpuSeat),
    high: (CpuSeat, CpuSeat),
) -> Times
    requires layout { throttle.now.layout ≡ machine_of 4 256 2097152 }
    requires low { StepsFor throttle.now 0 low.0 × StepsFor throttle.now 1 low.1 }
    requires high { StepsFor throttle.now 2 high.0 × StepsFor throttle.now 3 high.1 }
{
    let (one, two) = low;
    let (three, four) = high;
    let (first, second) = thread::join(
        rt,
        || -> Times
            requires { IsSync R.row × (throttle.now.layout ≡ machine_of 4 256 2097152) × StepsFor throttle.now 0 one × StepsFor throttle.now 1 two }
        { time_two(rt, throttle, one, two, 0) },
        || -> Times
            requires { IsSync R.row × (throttle.now.layout ≡ machine_of 4 256 2097152) × StepsFor throttle.now 2 three × StepsFor throttle.now 3 four }
        { time_two(rt, throttle, three, four, 2) },
    );
    first.and(second)
}

// One thread, on the first CPU.
fn on_one<C: Clock>(clock: &C, throttle: &Throttle, one: CpuSeat) -> Times
    requires layout { throttle.now.layout ≡ machine_of 4 256 2097152 }
    requires seat { HoldsFirst throttle.now 4 one }
{
    time_part(clock, throttle, one, part(0))
}

fn on_four<R: Threads + Clock + Sync>(
    rt: &R,
    alloc: Global,
    throttle: &Throttle,
    mut one: CpuSeat,
) -> Result<Times, NoMemory>
    requires layout { throttle.now.layout ≡ machine_of 4 256 2097152 }
    requires seat { HoldsFirst throttle.now 4 one }
{
    let four = split_last(throttle, alloc, &mut one, 3)?;
    let three = split_last(throttle, alloc, &mut one, 2)?;
    let two = split_last(throttle, alloc, &mut one, 1)?;
    Ok(time_four(rt, throttle, (one, two), (three, four)))
}

fn on_throttle<R: Threads + Clock + Sync>(
    rt: &R,
    alloc: Global,
    many: bool,
) -> Result<Times, NoMemory> {
    let (throttle, one) = Throttle::make(alloc, machine(alloc, 4, EACH, PAGES)?)?;
    if many {
        on_four(rt, alloc, &throttle, one)
    } else {
        Ok(on_one(rt, &throttle, one))
    }
}

fn bare_two<R: Threads + Clock + Sync>(rt: &R, bare: &Bare, cpu: u32) -> Times
    requires { cpu ≤ 2 }
{
    let low = part(cpu);
    let high = part(cpu + 1);
    let (first, second) = thread::join(
        rt,
        || -> Times
            requires { IsSync R.row }
        { time_bare(rt, bare, low) },
        || -> Times
            requires { IsSync R.row }
        { time_bare(rt, bare, high) },
    );
    first.and(second)
}

fn on_words<R: Threads + Clock + Sync>(
    rt: &R,
    alloc: Global,
    many: bool,
) -> Result<Times, NoMemory> {
    let words = Bare::make(alloc, PAGES)?;
    let bare = &words;
    if !many {
        return Ok(time_bare(rt, bare, part(0)));
    }
    let (first, second) = thread::join(
        rt,
        || -> Times
            requires { IsSync R.row }
        { bare_two(rt, bare, 0) },
        || -> Times
            requires { IsSync R.row }
        { bare_two(rt, bare, 2) },
    );
    Ok(first.and(second))
}

const ROUNDS: u32 = 30;

const MOST: Times = Times {
    dirty: u64::MAX,
    clean: u64::MAX,
    limits: u64::MAX,
    loads: u64::MAX,
    found: 0,
};

// The least times of all rounds: those of the throttle, and those of the bare words.
fn least_times<R: Threads + Clock + Sync>(
    rt: &R,
    alloc: Global,
    many: bool,
) -> Result<(Times, Times), NoMemory> {
    let mut ruled = MOST;
    let mut bare = MOST;
    for _round in 0..ROUNDS {
        ruled = ruled.least(on_throttle(rt, alloc, many)?);
        bare = bare.least(on_words(rt, alloc, many)?);
    }
    Ok((ruled, bare))
}

/// Prints a line for each call and number of threads: the call, the threads, the calls that were made in a round, and the least
/// nanoseconds of a round for the throttle's calls and for the bare operations, each summed over threads. False where memory was refused.
pub fn print_times<R: Threads + Clock + Sync + Print>(rt: &R, alloc: Global) -> io::Result<bool> {
    for many in [false, true] {
        let threads = if many { 4 } else { 1 };
        let calls = threads * PAGES_EACH;
        let Ok((ruled, bare)) = least_times(rt, alloc, many) else {
            return Ok(false);
        };
        println!(rt;
            "dirty+settle {threads} {calls} {} {}",
            ruled.dirty, bare.dirty
        )?;
        println!(rt;
            "claim+complete+settle {threads} {calls} {} {}",
            ruled.clean, bare.clean
        )?;
        println!(rt; "limits {threads} {calls} {} {}", ruled.limits, bare.limits)?;
        println!(rt; "loads {threads} {calls} {} {}", ruled.loads, bare.loads)?;
        if ruled.found ^ bare.found == 1 {
            println!(rt; "found {} {}", ruled.found, bare.found)?;
        }
    }
    Ok(true)
}
