//! The table of halts: one trace in its ordered run and over threads, whose CPUs are stopped after k steps, for each k from 0 to 400.
//!
//! Both CPUs that write make 139 steps, so both are stopped or neither is. The CPU with the flusher makes its steps in the drain.

use super::ledger::{adds_up, writes_of};
use plain_in_use::run_whole;
use std::alloc::Global;
use std::sync::Wait;
use std::test::Fail;
use std::thread::Threads;
use top_in_use::{THREE_CPUS, call, calm};
use wbt_io::{HaltGate, HandClock, ModelRack};
use wbt_top_plain::Status;

// The bound of the trace's one domain, in pages.
const BOUND: u64 = 22235;

// The text of the ordered run of a trace in which each CPU is stopped after so many steps.
fn replay_halted(alloc: Global, trace: &str, halt: u64) -> Result<(Status, Vec<u8>), Fail> {
    let text = format!(in alloc; "{trace}halt {halt}\n")?;
    let done = run_whole(alloc, "replay", text.as_bytes().to_vec(alloc)?)?;
    Ok((done.status, done.held))
}

// The text of a run over threads whose gate stops each CPU after so many steps.
fn run_halted<H: Threads + Wait + Sync>(
    rt: &H,
    alloc: Global,
    halt: u64,
) -> Result<(Status, Vec<u8>), Fail> {
    let done = call(
        rt,
        alloc,
        &calm(&["run"], THREE_CPUS),
        &HandClock::make(1),
        &HaltGate { halt },
        &mut ModelRack::make(),
    )?;
    Ok((done.status, done.held))
}

// The row of the table: both end well, add up, and write alike.
fn is_row<H: Threads + Wait + Sync>(rt: &H, alloc: Global, halt: u64) -> Result<bool, Fail> {
    let (replayed, in_order) = replay_halted(alloc, THREE_CPUS, halt)?;
    let (ran, beside) = run_halted(rt, alloc, halt)?;
    Ok(
        replayed == Status::Good
            && ran == Status::Good
            && adds_up(alloc, in_order.as_slice(), BOUND)?
            && adds_up(alloc, beside.as_slice(), BOUND)?
            && writes_of(alloc, in_order.as_slice())? == writes_of(alloc, beside.as_slice())?,
    )
}

// The first of these numbers of steps whose row fails.
fn first_other<H: Threads + Wait + Sync>(
    rt: &H,
    alloc: Global,
    first: u64,
    last: u64,
) -> Result<Option<u64>, Fail> {
    for halt in first..=last {
        if !is_row(rt, alloc, halt)? {
            return Ok(Some(halt));
        }
    }
    Ok(None)
}

#[test]
fn cpus_are_halted_at_0_to_49_steps(rt: HostRuntime) -> Result<(), Fail> {
    assert_eq!(rt; first_other(&rt, rt.alloc(), 0, 49)?, None);
    Ok(())
}

#[test]
fn cpus_are_halted_at_50_to_99_steps(rt: HostRuntime) -> Result<(), Fail> {
    assert_eq!(rt; first_other(&rt, rt.alloc(), 50, 99)?, None);
    Ok(())
}

#[test]
fn cpus_are_halted_at_100_to_149_steps(rt: HostRuntime) -> Result<(), Fail> {
    assert_eq!(rt; first_other(&rt, rt.alloc(), 100, 149)?, None);
    Ok(())
}

#[test]
fn cpus_are_halted_at_150_to_199_steps(rt: HostRuntime) -> Result<(), Fail> {
    assert_eq!(rt; first_other(&rt, rt.alloc(), 150, 199)?, None);
    Ok(())
}

#[test]
fn cpus_are_halted_at_200_to_249_steps(rt: HostRuntime) -> Result<(), Fail> {
    assert_eq!(rt; first_other(&rt, rt.alloc(), 200, 249)?, None);
    Ok(())
}

#[test]
fn cpus_are_halted_at_250_to_299_steps(rt: HostRuntime) -> Result<(), Fail> {
    assert_eq!(rt; first_other(&rt, rt.alloc(), 250, 299)?, None);
    Ok(())
}

#[test]
fn cpus_are_halted_at_300_to_349_steps(rt: HostRuntime) -> Result<(), Fail> {
    assert_eq!(rt; first_other(&rt, rt.alloc(), 300, 349)?, None);
    Ok(())
}

#[test]
fn cpus_are_halted_at_350_to_400_steps(rt: HostRuntime) -> Result<(), Fail> {
    assert_eq!(rt; first_other(&rt, rt.alloc(), 350, 400)?, None);
    Ok(())
}
