//! A run of a trace over threads, and its journal.

ghost use Rattle.std.specs.Prelude.{◌≡◌, ◌⊎◌, IfOk};
ghost use Rattle.wbt_io.specs.Faults.{HasRisenBy};
ghost use Rattle.wbt_journal.specs.declared.journal.Ending.{Ending as EndingValue};
ghost use Rattle.wbt_journal.specs.declared.journal.Journal.{Journal as JournalValue};
ghost use Rattle.wbt_rules.specs.declared.moments.TheConstants.{MOST_FAULTS};
ghost use Rattle.wbt_trace.specs.Lawful.{IsLawful};
ghost use Rattle.wbt_run_first.specs.Back.{NotFallen};
ghost use Rattle.wbt_run.specs.Running.{IsDone, IsFaulted, IsHalted, IsRunOf, IsSpent, NeverStops};

use crate::working::work;
use std::alloc::Global;
use std::sync::Wait;
use std::thread::Threads;
use wbt_io::{Clock, Gate, NoMemory, Rack, told_moment};
use wbt_journal::{Ending, Journal, has_forms};
use wbt_kit::{Hands, Kit};
use wbt_run_close::close;
use wbt_trace::Trace;

/// How a run ended.
#[derive(Drop)]
pub enum RunEnd {
    /// All was done, or a CPU was halted by the gate.
    Finished(Journal),
    /// A disk failed as often as it may.
    Faulted(Journal),
    /// A CPU made as many page steps as it may.
    Spent(Journal),
    /// Memory was refused.
    NoMemory,
}

/// Runs a trace over threads: all is made for it, workers do what it tells, and what they told becomes the journal, with what is left. The
/// opening is at the clock's first answer. It returns only if its workers do. By their logs each CPU and the timer took turns, one after
/// another, each of the steps that `wbt_turns` has for it, and the first CPU the looks of the sweep besides.
pub fn run<H: Threads + Wait + Sync, C: Clock + Sync, G: Gate + Sync, R: Rack>(
    rt: &H,
    alloc: Global,
    trace: &Trace,
    clock: &C,
    gate: &G,
    rack: &mut R,
) -> RunEnd
    requires lawful { IsLawful trace.now }
    ensures finished { (j : JournalValue) → result ≡ RunEnd.Finished j → IsRunOf (C.told clock.now) trace.now (R.written rack.old) (R.written rack.new) (R.faults rack.old) (R.faults rack.new) j }
    ensures faulted { (j : JournalValue) → result ≡ RunEnd.Faulted j → IsRunOf (C.told clock.now) trace.now (R.written rack.old) (R.written rack.new) (R.faults rack.old) (R.faults rack.new) j }
    ensures spent { (j : JournalValue) → result ≡ RunEnd.Spent j → IsRunOf (C.told clock.now) trace.now (R.written rack.old) (R.written rack.new) (R.faults rack.old) (R.faults rack.new) j }

    // Each end has its cause.
    ensures finish_cause { (j : JournalValue) → result ≡ RunEnd.Finished j → IsDone trace.now j ⊎ IsHalted (G.said gate.now) trace.now j }
    ensures fault_cause { (j : JournalValue) → result ≡ RunEnd.Faulted j → IsFaulted trace.now (R.faults rack.old) (R.faults rack.new) j }
    ensures spent_cause { (j : JournalValue) → result ≡ RunEnd.Spent j → IsSpent j }

    // Where the gate stops nobody, a run that finishes is done.
    ensures done { NeverStops (G.said gate.now) → (j : JournalValue) → result ≡ RunEnd.Finished j → IsDone trace.now j }
    ensures fallen { NotFallen (R.faults rack.old) (R.faults rack.new) }
{
    match run_whole(rt, alloc, trace, clock, gate, rack) {
        Err(_) => RunEnd::NoMemory,
        Ok(journal) => match journal.ending {
            Ending::Done | Ending::Halted => RunEnd::Finished(journal),
            Ending::Faulted => RunEnd::Faulted(journal),
            Ending::Spent => RunEnd::Spent(journal),
        },
    }
}

// The journal, however the run ended.
fn run_whole<H: Threads + Wait + Sync, C: Clock + Sync, G: Gate + Sync, R: Rack>(
    rt: &H,
    alloc: Global,
    trace: &Trace,
    clock: &C,
    gate: &G,
    rack: &mut R,
) -> Result<Journal, NoMemory>
    requires lawful { IsLawful trace.now }
    ensures run { IfOk result (λ j. IsRunOf (C.told clock.now) trace.now (R.written rack.old) (R.written rack.new) (R.faults rack.old) (R.faults rack.new) j) }
    ensures faulted { IfOk result (λ j. j.ending ≡ EndingValue.Faulted → HasRisenBy MOST_FAULTS (R.faults rack.old) (R.faults rack.new)) }
    ensures halted { IfOk result (λ j. j.ending ≡ EndingValue.Halted → IsHalted (G.said gate.now) trace.now j) }
    ensures fallen { NotFallen (R.faults rack.old) (R.faults rack.new) }
{
    let now = told_moment(clock);
    let (kit, mut seats) = Kit::make(alloc, trace, now)?;
    let hands = Hands {
        rt,
        alloc,
        kit: &kit,
        clock,
        gate,
    };
    let worked = work(&hands, trace, now, &mut seats, rack)?;
    let journal = close(alloc, trace, kit, now, seats, worked)?;

    // There is no memory for a journal of 2^64 writes, whose sums are out of range.
    if has_forms(&journal) {
        Ok(journal)
    } else {
        Err(NoMemory)
    }
}
