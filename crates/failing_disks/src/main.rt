//! Runs a trace over threads with disks that fail their first writes, and prints the journal of the run.
//!
//! The word is how many writes fail, of each disk; the trace comes by standard input, and time is the machine's. With no such word it
//! prints how it is called, and ends with 1. What it prints is material for those who judge journals; nothing stands on it.
#![tactic(auto)]

mod rack;

ghost use Rattle.std.specs.Prelude.{◌≤◌, IfSome};
ghost use Rattle.wbt_trace.specs.Lawful.{IsLawful};

use rack::failing_rack;
use std::alloc::Global;
use std::process::ExitCode;
use std::sync::Wait;
use std::thread::Threads;
use std::{env, io};
use wbt_io::{Clock, FreeGate, RealClock, Source, StdSink, StdSource, read_all};
use wbt_journal::{Journal, print};
use wbt_num::MOST_INPUT;
use wbt_run::{RunEnd, run};
use wbt_trace::Trace;
use wbt_trace_text::read_trace;

// The most writes that may be told to fail.
const MOST_FAILS: u64 = 1000;

// How many writes of each disk are to fail.
fn fails_of(rt: &HostRuntime) -> Option<u64>
    ensures { IfSome result (λ fails. fails ≤ 1000) }
{
    let args = env::args(rt).ok()?;
    let word = args.skip(1).next()?;
    let fails = word.parse::<u64>().ok()?;
    if fails <= MOST_FAILS {
        return Some(fails);
    }
    None
}

fn read<S: Source>(alloc: Global, source: &mut S) -> Option<Trace>
    ensures { IfSome result (λ trace. IsLawful trace) }
{
    let bytes = read_all(alloc, source, MOST_INPUT as u64).ok()?;
    read_trace(alloc, bytes.as_slice()).ok()
}

// However the run ended.
fn journal_of(end: RunEnd) -> Option<Journal> {
    match end {
        RunEnd::Finished(journal) | RunEnd::Faulted(journal) | RunEnd::Spent(journal) => {
            Some(journal)
        }
        RunEnd::NoMemory => None,
    }
}

// The journal of a run with disks that fail their first writes.
fn run_failing<H: Threads + Wait + Sync, C: Clock + Sync>(
    rt: &H,
    alloc: Global,
    trace: &Trace,
    clock: &C,
    fails: u64,
) -> Option<Journal>
    requires { IsLawful trace.now }
{
    let mut rack = failing_rack(alloc, fails).ok()?;
    journal_of(run(rt, alloc, trace, clock, &FreeGate, &mut rack))
}

fn main(rt: HostRuntime) -> ExitCode {
    let Some(fails) = fails_of(&rt) else {
        let _ = println!(rt; "usage: failing_disks FAILS < TRACE");
        return ExitCode::from(1);
    };
    let mut source = StdSource::make(rt.reader());
    let Some(trace) = read(rt.alloc(), &mut source) else {
        return ExitCode::from(2);
    };
    let Some(journal) = run_failing(&rt, rt.alloc(), &trace, &RealClock::make(&rt), fails) else {
        return ExitCode::from(3);
    };
    match print(rt.alloc(), &journal, &mut StdSink::make(io::writer(&rt))) {
        Ok(()) => ExitCode::SUCCESS,
        Err(_) => ExitCode::from(4),
    }
}
