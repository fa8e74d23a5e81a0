//! What the calls of a waiting list are made of that are timed.

ghost use Rattle.std.specs.Prelude.{◌≡◌, ◌<◌, ◌^◌, IfOk};

use std::alloc::Global;
use wbt_expiry::{Due, Wheel};
use wbt_num::NoMemory;

/// An inode is due after so many ticks at most: half a minute.
pub const SPAN: u64 = 30_000;

const LAST: u64 = (1 << 62) - 1;

/// What was taken, and the number from which the next one is drawn.
#[derive(Clone, Copy)]
pub struct Tally {
    pub pairs: u64,
    pub sum: u64,
    seed: u64,
}

impl Tally {
    /// Nothing was taken.
    pub fn new() -> Tally {
        Tally {
            pairs: 0,
            sum: 0,
            seed: 1,
        }
    }

    // A number of ticks, from 1 to the span.
    fn draw(&mut self) -> u64 {
        self.seed = self
            .seed
            .wrapping_mul(6_364_136_223_846_793_005)
            .wrapping_add(1_442_695_040_888_963_407);
        (self.seed >> 33) % SPAN + 1
    }

    fn count(&mut self, pair: Due) {
        self.pairs = self.pairs.wrapping_add(1);
        self.sum = self
            .sum
            .wrapping_mul(31)
            .wrapping_add(pair.due)
            .wrapping_add(u64::from(pair.inode));
    }
}

// The inode waits from a moment on.
fn wait(wheel: &mut Wheel, tally: &mut Tally, inode: u32, now: u64)
    requires inode { inode < wheel.old.inodes }
    ensures inodes { wheel.new.inodes ≡ wheel.old.inodes }
{
    let due = now.saturating_add(tally.draw());
    let latest = wheel.horizon();
    let _ = wheel.put(inode, due.min(latest));
}

/// A list in which all inodes wait, from moment 0 on.
pub fn all_waiting(alloc: Global, tally: &mut Tally, inodes: u32) -> Result<Wheel, NoMemory>
    ensures inodes { IfOk result (λ wheel. wheel.inodes ≡ inodes) }
{
    let mut wheel = Wheel::make(alloc, inodes, 0)?;
    for inode in 0..inodes {
        wait(&mut wheel, tally, inode, 0);
    }
    Ok(wheel)
}

// Each inode that is due by a moment is taken, and waits anew.
fn take_due(wheel: &mut Wheel, tally: &mut Tally, now: u64)
    requires now { now < 2 ^ 62 }
    ensures inodes { wheel.new.inodes ≡ wheel.old.inodes }
{
    for _pair in 0..u64::MAX {
        let Some(pair) = wheel.next(now) else {
            return;
        };
        tally.count(pair);
        wait(wheel, tally, pair.inode, now);
    }
}

/// In each of so many turns the clock moves so far that about two of the inodes are due; each that is due is taken, and waits anew.
pub fn take_in_turns(wheel: &mut Wheel, tally: &mut Tally, inodes: u32, turns: u32) {
    let step = SPAN / u64::from(inodes).max(1);
    let mut now = 0u64;
    for _turn in 0..turns {
        now = now.saturating_add(step).min(LAST);
        take_due(wheel, tally, now);
    }
}

/// All inodes are taken, due or not.
pub fn take_all(wheel: &mut Wheel, tally: &mut Tally) {
    for _pair in 0..u64::MAX {
        let Some(pair) = wheel.first() else {
            return;
        };
        tally.count(pair);
    }
}

/// So many inodes wait, are taken in so many turns, and at last all at once.
pub fn wait_and_take(alloc: Global, inodes: u32, turns: u32) -> Result<Tally, NoMemory> {
    let mut tally = Tally::new();
    let mut wheel = all_waiting(alloc, &mut tally, inodes)?;
    take_in_turns(&mut wheel, &mut tally, inodes, turns);
    take_all(&mut wheel, &mut tally);
    Ok(tally)
}
