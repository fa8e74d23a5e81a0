//! A throttle's whole life on two threads.

ghost use Rattle.std.specs.Prelude.{◌≡◌, ◌*◌, ◌≤◌, IfOk};
ghost use Rattle.caller_of_throttle.specs.Work.{IsPair, IsBack, IsPart, Worked};
ghost use Rattle.wbt_table.specs.Callers.{StepsFor};

use crate::count::exact;
use crate::machine::machine;
use crate::seats::split_last;
use crate::worker::{Part, work};
use std::alloc::Global;
use std::thread;
use std::thread::Threads;
use wbt_io::Gate;
use wbt_num::NoMemory;
use wbt_table::{Counter, CpuSeat, Throttle};

/// Two CPUs, each on a thread of its own, dirty 32 pages and clean them, under a gate that may stop either before any step. The
/// answer is how many pages are dirty or under writeback at the end, as the words and what the CPUs owe tell. Wherever the gate
/// stopped the CPUs it is at most the bound: the hard limit 100, a batch of 32 for each CPU, a cap of 32 for each of two
/// writers, and twice the error 32 for the one context.
pub fn life<R: Threads, G: Gate + Sync>(rt: &R, alloc: Global, gate: &G) -> Result<u64, NoMemory>
    ensures bounded { IfOk result (λ left. left ≤ 292) }
{
    let (throttle, mut one) = Throttle::make(alloc, machine(alloc, 2, 1, 4096)?)?;
    let two = split_last(&throttle, alloc, &mut one, 1)?;
    let all = work_by_two(rt, &throttle, one, two, gate);
    let census = throttle.close(all);
    Ok(exact(&census, 2, Counter::Domain(0)).unsigned_abs() as u64)
}

// Two threads work, and their seats are joined.
fn work_by_two<R: Threads, G: Gate + Sync>(
    rt: &R,
    throttle: &Throttle,
    one: CpuSeat,
    two: CpuSeat,
    gate: &G,
) -> CpuSeat
    requires { IsPair throttle.now one two }
    ensures { IsBack throttle.now result }
{
    let low = part(0);
    let high = part(1);
    let (first, second) = thread::join(
        rt,
        || -> CpuSeat
            requires { StepsFor throttle.now low.cpu one × IsPart throttle.now.layout low }
            ensures { Worked throttle.entry.now low.cpu one result }
        { work(throttle, one, low, gate) },
        || -> CpuSeat
            requires { StepsFor throttle.now high.cpu two × IsPart throttle.now.layout high }
            ensures { Worked throttle.entry.now high.cpu two result }
        { work(throttle, two, high, gate) },
    );
    let mut all = first;
    throttle.join(&mut all, second);
    all
}

/// The part of a CPU that has one writer: 32 pages of its own.
pub fn part(cpu: u32) -> Part
    requires { cpu ≤ 1 }
    ensures { result ≡ record { cpu = cpu; writer = cpu; first = cpu * 32; pages = 32 } }
{
    Part {
        cpu,
        writer: cpu,
        first: cpu * 32,
        pages: 32,
    }
}
