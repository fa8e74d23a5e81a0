//! The ordered run of a trace, and its journal.

ghost use Rattle.std.specs.Prelude.{◌≡◌, true, ◌≤◌, ◌<◌, ◌^◌, length, map, [], ◌∷◌, IfOk, OnOk};
ghost use Rattle.wbt_trace.specs.Lawful.{IsLawful, IsAction, writers_after};
ghost use Rattle.wbt_replay_order.specs.Claims.Decided.{AreDecided};
ghost use Rattle.wbt_replay_order.specs.Claims.Path.{IsFollowed};
ghost use Rattle.wbt_replay_order.specs.Claims.Whole.{IsWhole};
ghost use Rattle.wbt_replay_order.specs.Definition.Run as spec;
ghost use Rattle.wbt_replay_order.specs.Kept.Facts.{Facts};
ghost use Rattle.wbt_replay_order.specs.Kept.Strict.{ChecksFit};
ghost use Rattle.wbt_num.specs.declared.most.TheConstants.{MOST_STEPS};
ghost use Rattle.wbt_journal.specs.Lawful as law;
ghost use Rattle.wbt_journal.specs.declared.journal.Ending.TheVariants as ending;
ghost use Rattle.wbt_journal.specs.Machine.{domains};
ghost use Rattle.wbt_book.specs.Book.{page_word};
ghost use Rattle.wbt_rules.specs.Things.{group_of as group_at};
ghost use Rattle.wbt_replay.specs.Claims.{AreAccounted, EndsByItself, GoesInOrder, HasPoints, StaysWithin};
ghost use Rattle.wbt_replay_moves.specs.Pages.{book_of};
ghost use Rattle.wbt_replay_moves.specs.Seen.{seen};

use crate::opening::machine_of;
use crate::order::run;
use crate::round::round_of;
use crate::strict::strict_lines;
use std::alloc::{AllocError, Global};
use wbt_grant::fixed_bound;
use wbt_io::NoMemory;
use wbt_journal::{CpuJournal, Ending, Journal, Left};
use wbt_num::Items;
use wbt_replay_moves::{Cpu, Machine, Pages};
use wbt_rules::{context_of, domains_of, group_of};
use wbt_trace::{Action, Context, Trace, Writers};

/// The journal of the trace's own order of steps.
///
/// Every lawful trace has one. `NoMemory` comes where memory is refused.
pub fn replay(alloc: Global, trace: &Trace) -> Result<Journal, NoMemory>
    requires lawful { IsLawful trace.now }
    ensures journal { IfOk result (λ journal. journal ≡ spec.journal_of trace.now) }

    // At each moment of the run the steps and grants so far are those of the relation, which lead to the run's state.
    ensures followed { IsFollowed trace.now }

    // Each page that was dirtied was cleaned once, or is left and told.
    ensures pages { AreAccounted trace.now }

    // Each count that is printed is exact, and at most its bound, which is printed beside it.
    ensures within { StaysWithin trace.now }

    // Each check, at its place among those of its CPU, decides by what is printed with it, the estimate that it names and its writer's
    // numbers, and pauses at most 200 ticks.
    ensures decided { AreDecided trace.now }

    // Its journal has each point of a lawful one but that on its ending, however it ended.
    ensures points { HasPoints trace.now (spec.journal_of trace.now) }

    // Where the run isn't spent, its journal is lawful for the trace.
    ensures lawful { ((spec.journal_of trace.now).ending ≡ ending.Spent → ⊥) → law.IsLawful trace.now (spec.journal_of trace.now) }

    // What the journal's parts, steps and pages name is there.
    ensures whole { IsWhole (spec.journal_of trace.now) }

    // The run ends by itself, and is told as spent, halted or done where it is; where it is done every page was written and none is left.
    ensures ends { EndsByItself trace.now }

    // Its steps are made by the order lines first, and then by rotation, in whole turns.
    ensures order { GoesInOrder trace.now }
{
    match journal_of(alloc, trace) {
        Ok(journal) => Ok(journal),
        Err(_) => Err(NoMemory),
    }
}

#[tactic(auto, unfolding(wbt_replay_order::specs::Definition::Run::journal_of))]
fn journal_of(alloc: Global, trace: &Trace) -> Result<Journal, AllocError>
    requires { IsLawful trace.now }
    ensures { IfOk result (λ journal. journal ≡ spec.journal_of trace.now) }
{
    let mut machine = machine_of(alloc, trace)?;
    let round = round_of(alloc, trace, &machine.cpus)?;
    run(&mut machine, trace, round.as_slice())?;
    journal_from(alloc, trace, machine)
}

// The journal of a run that has ended.
fn journal_from(alloc: Global, trace: &Trace, machine: Machine) -> Result<Journal, AllocError>
    requires lawful { IsLawful trace.now }
    requires facts { Facts trace.now }
    requires few { length (seen machine).steps ≤ MOST_STEPS }
    requires checks { ChecksFit trace.now (seen machine).cpus }
    ensures { IfOk result (λ journal. journal ≡ spec.journal_from trace.now (seen machine)) }
{
    let ending = ending_of(&machine);
    let left = left_of(alloc, &machine.pages)?;
    let bases = bases_of(alloc, trace)?;
    let homes = homes_of(alloc, trace.contexts.as_slice())?;
    let steps = machine.steps.into_items(alloc)?;
    let strict = strict_lines(alloc, trace, steps.as_slice(), &machine.cpus)?;
    let cpus = parts_of(alloc, machine.cpus)?;
    let timer = machine.timer;
    Ok(Journal {
        timer: timer.entries,
        cpus,
        steps,
        bases,
        homes,
        left,
        strict,
        ending,
    })
}

/// How a run has ended.
pub fn ending_of(machine: &Machine) -> Ending
    ensures { result ≡ spec.ending_of (seen machine.now) }
{
    if machine.spent {
        Ending::Spent
    } else if machine.stopped > 0 {
        Ending::Halted
    } else {
        Ending::Done
    }
}

/// The bound of each domain of the trace without its peak, in pages, by number.
///
/// It fails where memory is refused.
pub fn bases_of(alloc: Global, trace: &Trace) -> Result<Items<u64>, AllocError>
    requires { IsLawful trace.now }
    ensures { IfOk result (λ bases. bases ≡ spec.bases_of trace.now (domains trace.now)) }
{
    let homes = writer_homes(alloc, trace)?;
    let mut bases = Items::new(alloc);
    for domain in 0..domains_of(trace) {
        bases.push(base_of(trace, homes.as_slice(), domain))?;
    }
    Ok(bases)
}

// The bound of the domain without its peak, where the writers are at home in these domains.
fn base_of(trace: &Trace, homes: &[u32], domain: u32) -> u64
    requires lawful { IsLawful trace.now }
    requires homes { homes.now ≡ spec.writer_homes trace.now }
    ensures { result ≡ spec.base_of trace.now domain }
{
    let writers = homes
        .iter()
        .filter(|home| is_inside(domain, **home))
        .count() as u64;
    let contexts = trace
        .contexts
        .as_slice()
        .iter()
        .filter(|context| is_inside(domain, context.domain))
        .count() as u64;
    fixed_bound(trace.cpus, writers, u64::from(trace.cap), contexts)
}

// A context is in the global domain and in that of its cgroup.
fn is_inside(domain: u32, group: u32) -> bool
    ensures { result ≡ spec.is_inside domain group }
{
    domain == 0 || domain == group
}

// The cgroups of the writers: distinct pairs of a task and the context of an inode that it writes.
fn writer_homes(alloc: Global, trace: &Trace) -> Result<Items<u32>, AllocError>
    requires { IsLawful trace.now }
    ensures { IfOk result (λ homes. homes ≡ spec.writer_homes trace.now) }
{
    let mut writers = Writers::new(alloc)?;
    let mut homes = Items::new(alloc);
    for action in trace.actions.as_slice() {
        put_writer(&mut writers, &mut homes, trace, action)?;
    }
    Ok(homes)
}

// Adds the writer of an action and its cgroup, where it is new.
fn put_writer(
    writers: &mut Writers,
    homes: &mut Items<u32>,
    trace: &Trace,
    action: &Action,
) -> Result<(), AllocError>
    requires lawful { IsLawful trace.now }
    requires action { IsAction (length trace.now.tasks) trace.now.inodes action.now }
    requires homes { homes.old ≡ map (λ w. group_at trace.now w.context) writers.old }
    ensures writers { OnOk result (writers.new ≡ writers_after writers.old trace.now.inodes (action.now ∷ [])) }
    ensures homes { OnOk result (homes.new ≡ map (λ w. group_at trace.now w.context) writers.new) }
{
    match action {
        Action::Write { task, inode, .. } => {
            let context = context_of(trace, *inode);
            if writers.contains(*task, context) {
                return Ok(());
            }
            writers.add(*task, context)?;
            homes.push(group_of(trace, context))
        }
        Action::Rest { .. } => Ok(()),
    }
}

// The domain of each context.
fn homes_of(alloc: Global, contexts: &[Context]) -> Result<Items<u32>, AllocError>
    ensures { IfOk result (λ homes. homes ≡ map (λ c. c.domain) contexts.now) }
{
    let homes = contexts.iter().map(|c| c.domain).collect(alloc)?;
    Ok(Items::from_vec(homes))
}

// The parts of the CPUs.
fn parts_of(alloc: Global, cpus: Vec<Cpu>) -> Result<Items<CpuJournal>, AllocError>
    ensures { IfOk result (λ parts. parts ≡ map spec.part_of cpus.items) }
{
    let mut parts = Vec::new(alloc);
    for cpu in cpus {
        parts.push(part_of(cpu))?;
    }
    Ok(Items::from_vec(parts))
}

fn part_of(cpu: Cpu) -> CpuJournal
    ensures { result ≡ spec.part_of cpu }
{
    CpuJournal {
        entries: cpu.entries,
        checks: cpu.checks,
        estimates: cpu.estimates,
    }
}

// The pages that are left dirty or under writeback.
fn left_of(alloc: Global, pages: &Pages) -> Result<Items<Left>, AllocError>
    ensures { IfOk result (λ left. left ≡ spec.left_from pages.now.count 0 (book_of pages.now.words)) }
{
    let mut left = Vec::new(alloc);
    for page in 0..pages.count() {
        let word = bits_of(pages, page);
        if word != 0 {
            left.push(Left { page, word })?;
        }
    }
    Ok(Items::from_vec(left))
}

// The page's two bits, as those of a word of its own.
fn bits_of(pages: &Pages, page: u32) -> u64
    requires { page < pages.now.count }
    ensures { result ≡ page_word (book_of pages.now.words page) }
{
    match (pages.is_dirty(page), pages.is_writeback(page)) {
        (false, false) => 0,
        (true, false) => 1,
        (false, true) => 2,
        (true, true) => 3,
    }
}
