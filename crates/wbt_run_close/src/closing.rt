//! The journal of a run: what its workers told, and what is left in the closed throttle.

ghost use Rattle.std.specs.Prelude.{◌≡◌, ◌≤◌, [], IfOk};
ghost use Rattle.wbt_journal.specs.Lawful as journal;
ghost use Rattle.wbt_kit.specs.Kit.{AreSeatsOf, IsKitOf};
ghost use Rattle.wbt_table.specs.Calls.{HoldsAll};
ghost use Rattle.wbt_num.specs.declared.most.TheConstants.{MOST_PAGES};
ghost use Rattle.wbt_trace.specs.Lawful.{IsLawful};
ghost use Rattle.wbt_trace.specs.Sofar.{pages_in};
ghost use Rattle.wbt_run_laws.specs.Laws.{NoneWaitsWhenDone};
ghost use Rattle.wbt_run_drain.specs.Whole.{HaveWorked};

use std::alloc::Global;
use wbt_io::NoMemory;
use wbt_journal::{CpuJournal, Ending, Journal, TimerEntry, merge};
use wbt_kit::{Kit, Seats};
use wbt_num::Items;
use wbt_run_drain::laws::work_is_lawful;
use wbt_run_seats::left_in;
use wbt_trace::{Inode, Trace};

/// What all workers of a run told, and how it ended.
#[derive(Drop)]
pub struct Worked {
    /// By CPU.
    pub cpus: Items<CpuJournal>,
    /// The timer's entries; the limits of the opening are the first ones.
    pub timer: Items<TimerEntry>,
    /// How it ended: done, or halted, spent or faulted.
    pub ending: Ending,
}

/// Closes the throttle, and has the journal of what was told and what is left. Where the workers have worked as the kit's trace asks, the
/// journal is lawful for the trace, tells each page that a write found dirty as dirtied by a write, and each that was dirtied as completed,
/// where it isn't left. `now`, the moment of the opening, serves the contract alone.
pub fn close(
    alloc: Global,
    trace: &Trace,
    kit: Kit,
    now: u64,
    seats: Seats,
    worked: Worked,
) -> Result<Journal, NoMemory>
    requires lawful { IsLawful trace.now }
    requires kit { IsKitOf trace.now now kit }
    requires seats { AreSeatsOf kit seats }
    requires all { HoldsAll seats.cpu }
    requires worked { HaveWorked trace.now now kit worked.cpus worked.timer worked.ending seats }
    ensures lawful { IfOk result (λ j. journal.IsLawful trace.now j) }
    ensures found { IfOk result (λ j. journal.FoundWereDirtied j) }
    ensures completed { IfOk result (λ j. journal.DirtiedWereCompleted trace.now j) }
    ensures none_waits { IfOk result (λ j. NoneWaitsWhenDone trace.now j) }
    ensures parts { IfOk result (λ j. (j.cpus ≡ worked.cpus) × (j.timer ≡ worked.timer) × (j.ending ≡ worked.ending)) }
    ensures no_steps { IfOk result (λ j. (j.steps ≡ []) × (j.bases ≡ []) × (j.homes ≡ []) × (j.strict ≡ [])) }
{
    work_is_lawful();
    let Kit {
        throttle,
        shares: _,
        published: _,
        queues: _,
        owners: _,
    } = kit;
    let Seats {
        cpu,
        share: _,
        est: _,
        queue: _,
    } = seats;
    let Worked {
        cpus,
        timer,
        ending,
    } = worked;
    let pages = pages_of(trace.inodes.as_slice());
    let left = left_in(alloc, &throttle.close(cpu), pages)?;
    merge(
        alloc,
        cpus.into_vec(),
        timer.into_vec(),
        left.into_vec(),
        ending,
    )
}

// How many pages these inodes have.
fn pages_of(inodes: &[Inode]) -> u32
    requires few { pages_in inodes.now ≤ MOST_PAGES }
    ensures { result ≡ pages_in inodes.now }
{
    let mut pages = 0;
    for inode in inodes {
        pages += inode.pages;
    }
    pages
}
