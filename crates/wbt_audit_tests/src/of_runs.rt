//! Journals of runs over threads, as they are written, are judged.

use plain_in_use::run_whole;
use std::alloc::Global;
use std::test::Fail;
use top_in_use::{SlowClock, call, calm};
use wbt_io::{FaultyRack, FreeGate, HaltGate, ModelRack};
use wbt_top_plain::Status;

// Two tasks that write 32 pages each, each on a CPU of its own, and a flusher on a third.
const THREE_CPUS: &str =
    "cpus 3\navail 0 100000\ndevice 0 25600 0 100\ncontext 0 0 0\ninode 0 0 64\ntask 0 0\ntask 1 1\nflusher 0 0 2\nwrite 0 0 0 32\nwrite 1 0 32 32\n";

// The verdict on the journal of a run of the trace, as `run_top` wrote it.
fn verdict_on(alloc: Global, trace: &str, journal: &[u8]) -> Result<(Status, Vec<u8>), Fail> {
    let mut bytes = trace.as_bytes().to_vec(alloc)?;
    bytes.extend_from_slice(b"journal\n")?;
    bytes.extend_from_slice(journal)?;
    let done = run_whole(alloc, "audit", bytes)?;
    Ok((done.status, done.held))
}

#[test]
fn what_a_run_over_threads_writes_is_lawful(rt: HostRuntime) -> Result<(), Fail> {
    let alloc = rt.alloc();
    for limit in [3u64, 40, 1000000] {
        let ran = call(
            &rt,
            alloc,
            &calm(&["run"], THREE_CPUS),
            &SlowClock::make(),
            &HaltGate { halt: limit },
            &mut ModelRack::make(),
        )?;
        assert_eq!(rt; ran.status, Status::Good);
        let (status, held) = verdict_on(alloc, THREE_CPUS, ran.held.as_slice())?;
        assert_eq!(rt; status, Status::Good, "halted after {limit}");
        assert_eq!(rt; held.as_slice(), b"lawful\n".as_slice());
    }
    Ok(())
}

#[test]
fn what_a_run_whose_disks_fail_writes_is_lawful(rt: HostRuntime) -> Result<(), Fail> {
    let alloc = rt.alloc();
    for (fails, ended) in [(3, Status::Good), (8, Status::DiskFault)] {
        let mut calls = Vec::new(alloc);
        for write in 1..=fails {
            calls.push(write)?;
        }
        let ran = call(
            &rt,
            alloc,
            &calm(&["run"], THREE_CPUS),
            &SlowClock::make(),
            &FreeGate,
            &mut FaultyRack::make(calls),
        )?;
        assert_eq!(rt; ran.status, ended);
        let (status, held) = verdict_on(alloc, THREE_CPUS, ran.held.as_slice())?;
        assert_eq!(rt; status, Status::Good, "after {fails} faults");
        assert_eq!(rt; held.as_slice(), b"lawful\n".as_slice());
    }
    Ok(())
}
