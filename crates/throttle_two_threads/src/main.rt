//! Two CPUs of one throttle, each on a thread of its own, dirty 32 pages each and clean them.
#![tactic(auto)]

ghost use Rattle.std.specs.Prelude.{◌≤◌, IfOk};
ghost use Rattle.caller_of_throttle.specs.Work.{IsPart, Worked};
ghost use Rattle.wbt_table.specs.Callers.{StepsFor};

use caller_of_throttle::{count, life, machine, seats, worker};
use std::alloc::Global;
use std::thread::{self, Threads};
use wbt_io::FreeGate;
use wbt_table::{Counter, CpuSeat, Throttle};

/// How many pages are dirty or under writeback when both threads have ended: at most the bound of the machine.
fn left<R: Threads>(rt: &R, alloc: Global) -> Result<u64, wbt_num::NoMemory>
    ensures bounded { IfOk result (λ left. left ≤ 292) }
{
    let (made, mut one) = Throttle::make(alloc, machine::machine(alloc, 2, 1, 4096)?)?;
    let throttle = &made;
    let two = seats::split_last(throttle, alloc, &mut one, 1)?;
    let (low, high) = (life::part(0), life::part(1));
    let (mut all, other) = thread::join(
        rt,
        || -> CpuSeat
            requires { StepsFor throttle.now low.cpu one × IsPart throttle.now.layout low }
            ensures { Worked throttle.entry.now low.cpu one result }
        { worker::work(throttle, one, low, &FreeGate) },
        || -> CpuSeat
            requires { StepsFor throttle.now high.cpu two × IsPart throttle.now.layout high }
            ensures { Worked throttle.entry.now high.cpu two result }
        { worker::work(throttle, two, high, &FreeGate) },
    );
    throttle.join(&mut all, other);
    Ok(count::exact(&made.close(all), 2, Counter::Domain(0)).unsigned_abs() as u64)
}

fn main(rt: HostRuntime) -> std::io::Result<()> {
    println!(rt; "pages left, of at most 292: {:?}", left(&rt, rt.alloc()))
}
