//! Puts and takes, timed.

use crate::shape::{Tally, all_waiting, take_all, take_in_turns};
use std::alloc::Global;
use std::io;
use std::time::Clock;
use wbt_num::NoMemory;

const TURNS: u32 = 1 << 18;

const ROUNDS: u32 = 10;

// The nanoseconds of all turns and of the takes at the end, how many pairs they took, and the sum of what was taken.
#[derive(Clone, Copy)]
struct Times {
    turns: u64,
    takes: u64,
    pairs: u64,
    rest: u64,
    sum: u64,
}

// What a clock shows, in nanoseconds, or 0 where it can't be read.
fn nanos<C: Clock>(clock: &C) -> u64 {
    match clock.monotonic() {
        Ok(time) => u64::try_from(time.as_nanos()).unwrap_or(0),
        Err(_) => 0,
    }
}

fn time_once<C: Clock>(clock: &C, alloc: Global, inodes: u32) -> Result<Times, NoMemory> {
    let mut tally = Tally::new();
    let mut wheel = all_waiting(alloc, &mut tally, inodes)?;
    let begin = nanos(clock);
    take_in_turns(&mut wheel, &mut tally, inodes, TURNS);
    let then = nanos(clock);
    let pairs = tally.pairs;
    take_all(&mut wheel, &mut tally);
    let end = nanos(clock);
    Ok(Times {
        turns: then.saturating_sub(begin),
        takes: end.saturating_sub(then),
        pairs,
        rest: tally.pairs.saturating_sub(pairs),
        sum: tally.sum,
    })
}

fn least<C: Clock>(clock: &C, alloc: Global, inodes: u32) -> Result<Times, NoMemory> {
    let mut found = time_once(clock, alloc, inodes)?;
    for _round in 1..ROUNDS {
        let times = time_once(clock, alloc, inodes)?;
        found.turns = found.turns.min(times.turns);
        found.takes = found.takes.min(times.takes);
    }
    Ok(found)
}

/// Prints a line for each number of inodes: how many there are, the pairs that turns took and put anew, and the least nanoseconds of all
/// rounds for them; the pairs that were taken at last, and the nanoseconds for them; and the sum of what was taken. False where memory was
/// refused.
pub fn print_times<R: Clock + Print>(rt: &R, alloc: Global) -> io::Result<bool> {
    for inodes in [64, 4096] {
        let Ok(times) = least(rt, alloc, inodes) else {
            return Ok(false);
        };
        println!(rt;
            "{inodes} {} {} {} {} {}",
            times.pairs, times.turns, times.rest, times.takes, times.sum
        )?;
    }
    Ok(true)
}
