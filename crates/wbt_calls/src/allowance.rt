//! The allowance of a writer.

ghost use Rattle.std.specs.Prelude.{◌≡◌, ◌≢◌, ◌+◌, ◌^◌, ◌<◌, ◌↔◌};
ghost use Rattle.wbt_limits.specs.Thresholds.{ratelimit_pages_of};
ghost use Rattle.wbt_task.specs.Allowance.{ended, first};
ghost use Rattle.wbt_calls.specs.Bounds as bounds;
ghost use Rattle.wbt_calls.specs.Crossing as crossing;
ghost use Rattle.wbt_calls.specs.Allowances as spec;

use crate::check::{task_of, writer_of};
use crate::ranges::{MOST_DIRTIED, is_out};
use crate::status::{BAD_CPUS, BAD_FLAG, BAD_WRITER, OK};
use crate::types::{Counts, Writer};
use wbt_num::MOST_CPUS;
use wbt_task::{CpuLocal, Due, end_task, first_task};

/// A new writer.
pub fn first_writer(out: &mut Writer)
    ensures { out.new ≡ crossing.writer_of first }
{
    *out = writer_of(&first_task());
}

/// After so many fresh writes of a CPU a check is due.
pub fn ratelimit_pages(thresh: u64, cpus: u32, out: &mut u64) -> u32
    ensures status { result ≡ bounds.status_of_cpus cpus }
    ensures taken { result ≡ OK ↔ bounds.AreCpusTaken cpus }
    ensures value { result ≡ OK → out.new ≡ ratelimit_pages_of thresh cpus }
    ensures refused { result ≢ OK → out.new ≡ out.old }
{
    if is_out(cpus as u64, MOST_CPUS as u64) {
        return BAD_CPUS;
    }
    *out = wbt_limits::ratelimit_pages(thresh, cpus);
    OK
}

/// Counts a fresh write of a writer, after which `left` pages are left to it; `due` is 1 where its check is due then, else 0.
pub fn page_done(
    counts: &mut Counts,
    writer: &mut Writer,
    left: u64,
    exceeded: u64,
    ratelimit_pages: u64,
    due: &mut u64,
) -> u32
    ensures status { result ≡ spec.status_of_page counts.old writer.old exceeded }
    ensures taken { result ≡ OK ↔ spec.IsPageTaken counts.old writer.old exceeded }
    ensures counts { result ≡ OK → counts.new ≡ crossing.counts_in (spec.page_of counts.old writer.old left exceeded ratelimit_pages).local }
    ensures writer { result ≡ OK → writer.new ≡ crossing.writer_of (spec.page_of counts.old writer.old left exceeded ratelimit_pages).task }
    ensures due { result ≡ OK → due.new ≡ crossing.due_number (spec.page_of counts.old writer.old left exceeded ratelimit_pages).due }
    ensures counts_stay { result ≢ OK → counts.new ≡ counts.old }
    ensures writer_stays { result ≢ OK → writer.new ≡ writer.old }
    ensures due_stays { result ≢ OK → due.new ≡ due.old }
{
    if writer.nr_dirtied > MOST_DIRTIED {
        return BAD_WRITER;
    }
    if counts.since_check > MOST_DIRTIED {
        return BAD_WRITER;
    }
    if exceeded > 1 {
        return BAD_FLAG;
    }
    let mut local = local_of(counts);
    let mut task = task_of(writer);
    let now_due = wbt_task::page_done(&mut local, &mut task, left, exceeded == 1, ratelimit_pages);
    *counts = counts_in(&local);
    *writer = writer_of(&task);
    *due = due_number(now_due);
    OK
}

/// A writer's task ended: its pages are its CPU's leaks from now on.
pub fn end_writer(counts: &mut Counts, writer: &Writer) -> u32
    ensures status { result ≡ spec.status_of_end counts.old writer.now }
    ensures taken { result ≡ OK ↔ counts.old.leaks + writer.now.nr_dirtied < 2 ^ 52 }
    ensures value { result ≡ OK → counts.new ≡ crossing.counts_in (ended (crossing.local_of counts.old) (crossing.task_of writer.now)) }
    ensures refused { result ≢ OK → counts.new ≡ counts.old }
{
    if counts.leaks > MOST_DIRTIED {
        return BAD_WRITER;
    }
    if writer.nr_dirtied > MOST_DIRTIED - counts.leaks {
        return BAD_WRITER;
    }
    let mut local = local_of(counts);
    end_task(&mut local, &task_of(writer));
    *counts = counts_in(&local);
    OK
}

fn local_of(counts: &Counts) -> CpuLocal
    ensures { result ≡ crossing.local_of counts.now }
{
    CpuLocal {
        since_check: counts.since_check,
        leaks: counts.leaks,
    }
}

fn counts_in(local: &CpuLocal) -> Counts
    ensures { result ≡ crossing.counts_in local.now }
{
    Counts {
        since_check: local.since_check,
        leaks: local.leaks,
    }
}

fn due_number(due: Due) -> u64
    ensures { result ≡ crossing.due_number due }
{
    match due {
        Due::No => 0,
        Due::Check => 1,
    }
}
