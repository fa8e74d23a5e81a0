//! What a run asks of disks and clocks, which no clause sees: the rate of each disk, how long workers and the drain rest, and the unit of the machine's clock.

use super::lines::{Batch, batches_of};
use std::alloc::Global;
use std::sync::Wait;
use std::sync::atomic::{AtomicU64, Ordering};
use std::test::Fail;
use std::thread::Threads;
use std::time::Instant;
use top_in_use::{SlowClock, call, calm};
use wbt_io::{Clock, FaultyRack, FreeGate, HandClock, ModelRack, RealClock};
use wbt_top_plain::Status;

// Device 0 writes a page in 50 ticks, and device 1 in one. Flusher 0 is that of device 1, which has two inodes, and flusher 1 that of device 0. So few
// pages are written in the drain alone.
const SLOW_AND_FAST: &str =
    "cpus 2\navail 0 100000\ndevice 0 20 0 100\ndevice 1 1000 0 100\ncontext 0 0 0\ncontext 1 1 0\ninode 0 0 1\ninode 1 1 1\ninode 2 1 1\ntask 0 0\ntask 1 1\nflusher 0 1 0\nflusher 1 0 1\nwrite 0 0 0 1\nwrite 1 1 0 1\nwrite 1 2 0 1\n";

// Device 0 writes 100 pages in a tick, and device 1 a page in a second. So few pages are written in the drain alone, those of each device at once.
const FASTER_AND_SLOWER: &str =
    "cpus 1\navail 0 100000\ndevice 0 100000 0 100\ndevice 1 1 0 100\ncontext 0 0 0\ncontext 1 1 0\ninode 0 0 100\ninode 1 1 2\ntask 0 0\nflusher 0 0 0\nflusher 1 1 0\nwrite 0 0 0 100\nwrite 0 1 0 2\n";

// The batches of a flusher in a run over threads, by a clock that moves by rests alone.
fn run_batches<H: Threads + Wait + Sync>(
    rt: &H,
    alloc: Global,
    text: &str,
    flusher: u64,
) -> Result<Vec<Batch>, Fail> {
    let done = call(
        rt,
        alloc,
        &calm(&["run"], text),
        &HandClock::make(1),
        &FreeGate,
        &mut ModelRack::make(),
    )?;
    if done.status != Status::Good {
        return Ok(Vec::new(alloc));
    }
    Ok(batches_of(alloc, done.held.as_slice(), flusher)?)
}

#[test]
fn each_disk_has_the_rate_of_its_device(rt: HostRuntime) -> Result<(), Fail> {
    for (flusher, ticks, batches) in [(0, 1, 2), (1, 50, 1)] {
        let told = run_batches(&rt, rt.alloc(), SLOW_AND_FAST, flusher)?;
        assert_eq!(rt; told.len(), batches, "flusher {flusher}");
        for batch in told.as_slice() {
            assert_eq!(rt;
                batch.until.saturating_sub(batch.now),
                ticks,
                "flusher {flusher}"
            );
        }
    }
    Ok(())
}

#[test]
fn a_batch_takes_as_long_as_its_disk_says(rt: HostRuntime) -> Result<(), Fail> {
    for (flusher, ticks) in [(0, 1), (1, 2000)] {
        let told = run_batches(&rt, rt.alloc(), FASTER_AND_SLOWER, flusher)?;
        assert_eq!(rt; told.len(), 1, "flusher {flusher}");
        for batch in told.as_slice() {
            assert_eq!(rt;
                batch.until.saturating_sub(batch.now),
                ticks,
                "flusher {flusher}"
            );
        }
    }
    Ok(())
}

// A clock that moves slowly, and keeps the longest rest that it was asked for.
#[derive(Drop)]
struct RestClock {
    slow: SlowClock,
    longest: AtomicU64,
}

impl Clock for RestClock {
    ghost told = { λ _ _. Unit {0} };

    fn now(&self) -> u64 {
        self.slow.now()
    }

    fn rest(&self, ticks: u64) {
        self.longest.fetch_max(ticks, Ordering::SeqCst);
        self.slow.rest(ticks);
    }
}

// Memory is so small that the writer waits for the flusher, and its worker rests. The disk writes all pages in eight ticks, so the drain rests no
// longer.
const WRITER_WAITS: &str =
    "cpus 1\ncap 1\navail 0 100\ndevice 0 25600 0 100\ncontext 0 0 0\ninode 0 0 200\ntask 0 0\nflusher 0 0 0\nwrite 0 0 0 200\n";

#[test]
fn a_worker_rests_ten_ticks_at_most(rt: HostRuntime) -> Result<(), Fail> {
    let clock = RestClock {
        slow: SlowClock::make(),
        longest: AtomicU64::new(0),
    };
    let done = call(
        &rt,
        rt.alloc(),
        &calm(&["run"], WRITER_WAITS),
        &clock,
        &FreeGate,
        &mut ModelRack::make(),
    )?;
    assert_eq!(rt; done.status, Status::Good);
    assert!(rt; clock.longest.load(Ordering::SeqCst) <= 10);
    Ok(())
}

#[test]
fn the_drain_rests_until_the_first_flusher_is_ready(rt: HostRuntime) -> Result<(), Fail> {
    let told = run_batches(&rt, rt.alloc(), SLOW_AND_FAST, 0)?;
    assert_eq!(rt; told.len(), 2);
    if let (Some(first), Some(second)) = (told.first(), told.get(1)) {
        assert_eq!(rt; second.now, first.until);
    }
    Ok(())
}

// A run of which the writes from one to another fail: its status, and the faults that its rack counted.
fn run_failing<H: Threads + Wait + Sync>(
    rt: &H,
    alloc: Global,
    first: u64,
    last: u64,
) -> Result<(Status, u64), Fail> {
    let mut fails = Vec::new(alloc);
    for write in first..=last {
        fails.push(write)?;
    }
    let mut rack = FaultyRack::make(fails);
    let done = call(
        rt,
        alloc,
        &calm(&["run"], SLOW_AND_FAST),
        &HandClock::make(1),
        &FreeGate,
        &mut rack,
    )?;
    Ok((done.status, rack.fault_count()))
}

// The first write that fails and the last, the faults, and the status.
static FAILING: [(u64, u64, u64, Status); 7] = [
    (1, 1, 2, Status::Good),
    (2, 2, 1, Status::Good),
    (3, 3, 0, Status::Good),
    (1, 7, 14, Status::Good),
    (2, 8, 7, Status::Good),
    (1, 8, 16, Status::DiskFault),
    (2, 9, 8, Status::DiskFault),
];

// Flusher 0 hands two batches over, and flusher 1 one. The first of these writes fails, and so many after it.
#[test]
fn a_run_is_faulted_exactly_where_a_disk_fails_eight_times(rt: HostRuntime) -> Result<(), Fail> {
    for (first, last, faults, status) in &FAILING {
        let ended = run_failing(&rt, rt.alloc(), *first, *last)?;
        assert_eq!(rt; ended, (*status, *faults), "writes {first} to {last} fail");
    }
    Ok(())
}

#[test]
fn a_tick_of_the_machine_is_a_millisecond(rt: HostRuntime) -> Result<(), Fail> {
    let began = Instant::now(&rt)?;
    let clock = RealClock::make(&rt);
    clock.rest(20);
    let shown = clock.now();
    let most = began.elapsed(&rt)?.as_millis();
    assert!(rt; 20 <= shown, "{shown} is shown after 20 ticks");
    assert!(rt;
        u128::from(shown) <= most.saturating_add(1),
        "{shown} is shown after {most} milliseconds"
    );
    Ok(())
}
