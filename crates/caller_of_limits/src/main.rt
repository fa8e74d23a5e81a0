//! An example of who calls the control laws: what a check decides on a machine, from its memory and its dirty pages.
//!
//! Its line in `crates.txt` is
//!
//! ```text
//! caller_of_limits: wbt_num wbt_limits wbt_pause
//! ```
//!
//! `limits_of` makes the limits of the memory that there is, `check` decides about a writer. What their contracts say is read from
//! those of the calls: the limits are lawful, up to the freerun a writer goes on at once, and no pause is longer than 200 ticks.
#![tactic(auto)]

ghost use Rattle.std.specs.Prelude.{◌≡◌, ◌^◌, ◌<◌, ◌≤◌};
ghost use Rattle.wbt_limits.specs.Limits.{freerun as freerun_of};
ghost use Rattle.wbt_num.specs.Limits.{IsLawful};
ghost use Rattle.wbt_pause.specs.Claims.{GoesOn};

use std::io;
use wbt_limits::{freerun, thresholds};
use wbt_num::Settings;
use wbt_pause::{Decision, DomainRead, Kind, Limits, Reads, Task, decide, first_estimate};

/// The settings of a machine on which nothing was set.
const SETTINGS: Settings = Settings {
    ratio: 20,
    bg_ratio: 10,
    bytes: 0,
    bg_bytes: 0,
};

/// The first limits of a machine with so many available pages.
fn limits_of(avail: u64) -> Limits
    ensures { IsLawful result }
{
    let pair = thresholds(avail, &SETTINGS, None);
    Limits {
        thresh: pair.thresh,
        bg: pair.bg,
        hard: pair.thresh,
    }
}

/// What a check at the moment `now` decides about a writer that has dirtied its 32 pages, where it alone has dirtied all that is
/// dirty. The machine has four CPUs and one disk.
fn check(limits: &Limits, dirty: u64, now: u64) -> Decision
    requires limits { IsLawful limits.now }
    requires dirty { dirty < 2 ^ 33 }
    requires now { now < 2 ^ 62 }
    ensures calm { dirty ≤ freerun_of limits.now → GoesOn result }
    ensures longest { result.pause ≤ 200 }
{
    let global = DomainRead {
        limits: *limits,
        dirty,
        wb_thresh: limits.thresh,
    };
    let reads = Reads {
        global,
        cgroup: None,
        wb_dirty: dirty,
        cpus: 4,
        cap: 1024,
    };
    let writer = Task {
        nr_dirtied: 32,
        nr_dirtied_pause: 32,
        paused_when: now,
    };
    decide(&reads, &first_estimate(now), writer, now)
}

fn word(kind: Kind) -> &'static str {
    match kind {
        Kind::Free => "goes on at once",
        Kind::Go => "goes on after its pause",
        Kind::Exempt => "is exempt",
        Kind::Wait => "asks again after its pause",
    }
}

fn main(rt: HostRuntime) -> io::Result<()> {
    let limits = limits_of(100000);
    let free = freerun(&limits);
    println!(rt; "writers run free up to {free} pages")?;
    for dirty in [0, free, free + 1, 17492, limits.hard] {
        let decision = check(&limits, dirty, 5000);
        let (word, pause, left) = (word(decision.kind), decision.pause, decision.left);
        println!(rt; "at {dirty} pages: {word}, a pause of {pause}, then {left} pages")?;
    }
    Ok(())
}
