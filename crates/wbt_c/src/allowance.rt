//! The allowance of a writer.

ghost use Rattle.std.specs.Prelude.{◌≡◌, ◌≢◌, ◌+◌, ◌^◌, ◌<◌, ◌↔◌};
ghost use Rattle.wbt_limits.specs.Thresholds.{ratelimit_pages_of};
ghost use Rattle.wbt_task.specs.Allowance.{ended, first};
ghost use Rattle.wbt_calls.specs.Allowances as spec;
ghost use Rattle.wbt_calls.specs.Bounds as bounds;
ghost use Rattle.wbt_calls.specs.Crossing as crossing;
ghost use Rattle.wbt_calls.specs.declared.status.TheConstants.{OK};

use wbt_calls::{Counts, Writer};

/// A new writer.
#[unsafe(no_mangle)]
pub extern "C" fn wbt_first_writer(out: &mut Writer)
    ensures { out.new ≡ crossing.writer_of first }
{
    wbt_calls::first_writer(out);
}

/// After so many fresh writes of a CPU a check is due.
#[unsafe(no_mangle)]
pub extern "C" fn wbt_ratelimit_pages(thresh: u64, cpus: u32, out: &mut u64) -> u32
    ensures status { result ≡ bounds.status_of_cpus cpus }
    ensures taken { result ≡ OK ↔ bounds.AreCpusTaken cpus }
    ensures value { result ≡ OK → out.new ≡ ratelimit_pages_of thresh cpus }
    ensures refused { result ≢ OK → out.new ≡ out.old }
{
    wbt_calls::ratelimit_pages(thresh, cpus, out)
}

/// Counts a fresh write of a writer, after which `left` pages are left to it; `due` is 1 where its check is due then, else 0.
#[unsafe(no_mangle)]
pub extern "C" fn wbt_page_done(
    counts: &mut Counts,
    writer: &mut Writer,
    left: u64,
    exceeded: u64,
    ratelimit_pages: u64,
    due: &mut u64,
) -> u32
    ensures status { result ≡ spec.status_of_page counts.old writer.old exceeded }
    ensures taken { result ≡ OK ↔ spec.IsPageTaken counts.old writer.old exceeded }
    ensures counts { result ≡ OK → counts.new ≡ crossing.counts_in (spec.page_of counts.old writer.old left exceeded ratelimit_pages).local }
    ensures writer { result ≡ OK → writer.new ≡ crossing.writer_of (spec.page_of counts.old writer.old left exceeded ratelimit_pages).task }
    ensures due { result ≡ OK → due.new ≡ crossing.due_number (spec.page_of counts.old writer.old left exceeded ratelimit_pages).due }
    ensures counts_stay { result ≢ OK → counts.new ≡ counts.old }
    ensures writer_stays { result ≢ OK → writer.new ≡ writer.old }
    ensures due_stays { result ≢ OK → due.new ≡ due.old }
{
    wbt_calls::page_done(counts, writer, left, exceeded, ratelimit_pages, due)
}

/// A writer's task ended: its pages are its CPU's leaks from now on.
#[unsafe(no_mangle)]
pub extern "C" fn wbt_end_writer(counts: &mut Counts, writer: &Writer) -> u32
    ensures status { result ≡ spec.status_of_end counts.old writer.now }
    ensures taken { result ≡ OK ↔ counts.old.leaks + writer.now.nr_dirtied < 2 ^ 52 }
    ensures value { result ≡ OK → counts.new ≡ crossing.counts_in (ended (crossing.local_of counts.old) (crossing.task_of writer.now)) }
    ensures refused { result ≢ OK → counts.new ≡ counts.old }
{
    wbt_calls::end_writer(counts, writer)
}
