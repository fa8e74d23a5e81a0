//! The trace of a bulk run: two disks, four CPUs, and four tasks that each write all pages of an inode of their own.

ghost use Rattle.std.specs.Prelude.{◌≡◌, ◌<◌, ◌≤◌, IfOk};
ghost use Rattle.wbt_num.specs.declared.most.TheConstants.{MOST_PAGES as MOST_PAGES_NUMBER};
ghost use Rattle.wbt_trace.specs.Bulk.{bulk_avail, bulk_contexts, bulk_flushers, bulk_inodes, bulk_tasks, bulk_trace, bulk_write, bulk_writes};
ghost use Rattle.wbt_trace.specs.Bulk.{disk as disk_value, pages_of as pages_of_value};
ghost use Rattle.wbt_trace.specs.Lawful.{IsLawful};
ghost use Rattle.wbt_trace.specs.Sofar.{pages_in};
ghost use Rattle.wbt_trace.specs.declared.bulk.TheConstants.{LEAST_BULK_PAGES as LEAST_BULK_NUMBER};

use crate::ranges::{DEFAULT_BACKGROUND_RATIO, DEFAULT_RATIO, MOST_DEVICE_RATE, MOST_PERCENT};
use crate::trace::{Action, Avail, Context, Device, FlusherLine, Inode, TaskLine, Trace};
use std::alloc::{AllocError, Global};
use wbt_num::{Items, MOST_CAP, NoMemory, Settings};

/// Available pages of a bulk run's machine.
pub const BULK_AVAIL: u64 = 2000000;

/// The fewest pages that a bulk run writes: one an inode.
pub const LEAST_BULK_PAGES: u64 = 4;

// The pages of the i-th of four inodes that have n pages together.
fn pages_of(n: u64, i: u64) -> u32
    requires { n ≤ MOST_PAGES_NUMBER }
    ensures { result ≡ pages_of_value n i }
{
    let more = if i < n % 4 { 1 } else { 0 };
    (n / 4 + more) as u32
}

fn disk() -> Device
    ensures { result ≡ disk_value }
{
    Device {
        rate: MOST_DEVICE_RATE,
        min: 0,
        max: MOST_PERCENT as u32,
        strict: false,
        chunk: None,
        cyclic: true,
    }
}

// Inodes 0 and 2 are on the first disk, 1 and 3 on the second; each begins where the one before ends.
fn inodes(alloc: Global, n: u64) -> Result<Vec<Inode>, AllocError>
    requires { n ≤ MOST_PAGES_NUMBER }
    ensures { IfOk result (λ inodes. inodes.items ≡ bulk_inodes n) }
{
    let second = pages_of(n, 0);
    let third = second + pages_of(n, 1);
    let fourth = third + pages_of(n, 2);
    [
        Inode {
            context: 0,
            first: 0,
            pages: pages_of(n, 0),
        },
        Inode {
            context: 1,
            first: second,
            pages: pages_of(n, 1),
        },
        Inode {
            context: 0,
            first: third,
            pages: pages_of(n, 2),
        },
        Inode {
            context: 1,
            first: fourth,
            pages: pages_of(n, 3),
        },
    ]
    .to_vec(alloc)
}

// What the i-th task does: it writes all pages of the i-th inode.
fn write_all_of(n: u64, i: u32) -> Action
    requires { n ≤ MOST_PAGES_NUMBER }
    ensures { result ≡ bulk_write n i }
{
    Action::Write {
        task: i,
        inode: i,
        from: 0,
        pages: pages_of(n, i as u64),
    }
}

fn actions(alloc: Global, n: u64) -> Result<Vec<Action>, AllocError>
    requires { n ≤ MOST_PAGES_NUMBER }
    ensures { IfOk result (λ actions. actions.items ≡ bulk_writes n) }
{
    [
        write_all_of(n, 0),
        write_all_of(n, 1),
        write_all_of(n, 2),
        write_all_of(n, 3),
    ]
    .to_vec(alloc)
}

fn avail(alloc: Global) -> Result<Vec<Avail>, AllocError>
    ensures { IfOk result (λ avail. avail.items ≡ bulk_avail) }
{
    [Avail {
        from: 0,
        pages: BULK_AVAIL,
    }]
    .to_vec(alloc)
}

// One context on each disk.
fn contexts(alloc: Global) -> Result<Vec<Context>, AllocError>
    ensures { IfOk result (λ contexts. contexts.items ≡ bulk_contexts) }
{
    [
        Context {
            device: 0,
            domain: 0,
            expire: None,
            estimate: None,
        },
        Context {
            device: 1,
            domain: 0,
            expire: None,
            estimate: None,
        },
    ]
    .to_vec(alloc)
}

// The first two tasks run on CPU 0, the other two on CPU 1.
fn tasks(alloc: Global) -> Result<Vec<TaskLine>, AllocError>
    ensures { IfOk result (λ tasks. tasks.items ≡ bulk_tasks) }
{
    [
        TaskLine { cpu: 0, pace: None },
        TaskLine { cpu: 0, pace: None },
        TaskLine { cpu: 1, pace: None },
        TaskLine { cpu: 1, pace: None },
    ]
    .to_vec(alloc)
}

// Each disk's flusher runs on a CPU of its own.
fn flushers(alloc: Global) -> Result<Vec<FlusherLine>, AllocError>
    ensures { IfOk result (λ flushers. flushers.items ≡ bulk_flushers) }
{
    [
        FlusherLine { device: 0, cpu: 2 },
        FlusherLine { device: 1, cpu: 3 },
    ]
    .to_vec(alloc)
}

fn whole(alloc: Global, n: u64) -> Result<Trace, AllocError>
    requires { n ≤ MOST_PAGES_NUMBER }
    ensures { IfOk result (λ trace. trace ≡ bulk_trace n) }
{
    Ok(Trace {
        cpus: 4,
        cap: MOST_CAP,
        settings: Settings {
            ratio: DEFAULT_RATIO,
            bg_ratio: DEFAULT_BACKGROUND_RATIO,
            bytes: 0,
            bg_bytes: 0,
        },
        avail: Items::from_vec(avail(alloc)?),
        devices: Items::from_vec([disk(), disk()].to_vec(alloc)?),
        cgroups: Items::new(alloc),
        contexts: Items::from_vec(contexts(alloc)?),
        inodes: Items::from_vec(inodes(alloc, n)?),
        tasks: Items::from_vec(tasks(alloc)?),
        flushers: Items::from_vec(flushers(alloc)?),
        actions: Items::from_vec(actions(alloc, n)?),
        order: Items::new(alloc),
        halt: None,
    })
}

/// The trace of a bulk run of `n` pages, from 4 to 2097152.
///
/// Four CPUs and two disks of 2^20 pages a second, 2000000 pages available, and the settings and the cap that hold where no
/// line says others. Inode `i` of four is on disk `i mod 2` and has a fourth of the pages, and one more where `i < n mod 4`.
/// Task `i` writes all pages of inode `i`; tasks 0 and 1 run on CPU 0, tasks 2 and 3 on CPU 1. The disks' flushers run on
/// CPUs 2 and 3.
#[tactic(auto, using(crate::proofs::Bulks::bulk_is_lawful, crate::proofs::Bulks::bulk_has_pages))]
pub fn generate(alloc: Global, n: u64) -> Result<Trace, NoMemory>
    requires enough { LEAST_BULK_NUMBER ≤ n }
    requires few { n ≤ MOST_PAGES_NUMBER }
    ensures told { IfOk result (λ trace. trace ≡ bulk_trace n) }
    ensures lawful { IfOk result (λ trace. IsLawful trace) }
    ensures pages { IfOk result (λ trace. pages_in trace.inodes ≡ n) }
{
    match whole(alloc, n) {
        Ok(trace) => Ok(trace),
        Err(_) => Err(NoMemory),
    }
}
