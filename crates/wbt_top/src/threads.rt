//! The top call of runs over threads.

ghost use Rattle.std.specs.Prelude.{◌≡◌, ◌≢◌, ℕ, OnOk, IsErrOf};
ghost use Rattle.wbt_io.specs.Faults.{HasRisen, HasRisenBy};
ghost use Rattle.wbt_io.specs.Told.{GainsPart};
ghost use Rattle.wbt_journal.specs.Text.{journal_text};
ghost use Rattle.wbt_rules.specs.declared.moments.TheConstants.{MOST_FAULTS};
ghost use Rattle.wbt_run.specs.Running.{IsDone, IsFaulted, IsSpent, NeverStops};
ghost use Rattle.wbt_trace.specs.Bulk.{bulk_trace};
ghost use Rattle.wbt_trace.specs.Lawful.{IsLawful};
ghost use Rattle.wbt_top_plain.specs.Bulk.{IsBulk, IsBulkSize, IsRun, bulk_text};
ghost use Rattle.wbt_top_plain.specs.Claims.{ReadsInput, RefusesText};
ghost use Rattle.wbt_top_plain.specs.Written.{IsWritten, IsWrittenUnless};
ghost use Rattle.wbt_top.specs.Threads.{Finishes, FitsThreads, IsBulkDone, IsServed, OfCommand, OfRead, Ran, RunsAndWrites};
ghost use Rattle.wbt_top_plain.specs.Top.{IfTold};

use crate::ran::{RanEnd, of_faulted, of_finished, of_ran, of_spent};
use std::alloc::Global;
use std::sync::Wait;
use std::thread::Threads;
use wbt_io::{Clock, Gate, Rack, Sink, Source};
use wbt_journal::print;
use wbt_run::{RunEnd, run};
use wbt_top_plain::{Command, Status, Words, command_of, of_input_end, read_input, write_bulk};
use wbt_trace::{Trace, generate};
use wbt_trace_text::text_has_one_answer;

/// Serves the words `run` and `bulk N`: reads a trace from the source, runs it over threads, and writes the journal of the run; or
/// reads nothing, runs the trace of N pages, and writes how many pages were dirtied and cleaned and how many are left.
///
/// It returns only if the run's workers do. The opening is at the clock's first answer. The input has at most 2^26 bytes. The clauses
/// on bytes and pages speak of those that a source, a sink or a rack tells.
pub fn run_top<
    H: Threads + Wait + Sync,
    S: Source,
    K: Sink,
    C: Clock + Sync,
    G: Gate + Sync,
    R: Rack,
>(
    rt: &H,
    alloc: Global,
    words: &Words,
    source: &mut S,
    sink: &mut K,
    clock: &C,
    gate: &G,
    rack: &mut R,
) -> Status
    // The status is one that the words may have.
    ensures words { FitsThreads result words.now }

    // A text with a fault is refused by its first one. A bulk run reads nothing.
    ensures input { IsRun words.now → ReadsInput result (S.left source.old) (S.left source.new) (HasRisen (S.faults source.old) (S.faults source.new)) }
    ensures trace { IsRun words.now → RefusesText result (S.left source.old) (HasRisen (S.faults source.old) (S.faults source.new)) }
    ensures unread { (n : ℕ) → IsBulk n words.now → source.new ≡ source.old }

    // Where text is written, the trace was run. All was done or a CPU was stopped, and the text was written, or a part of it; or a disk
    // failed eight times, or a CPU made all its page steps, and the text was written, or a part of it where the sink failed too.
    ensures ran { RunsAndWrites (Finishes (G.said gate.now)) result words.now (S.left source.old) (C.told clock.now) (R.written rack.old) (R.written rack.new) (R.faults rack.old) (R.faults rack.new) (K.held sink.old) (K.held sink.new) (HasRisen (K.faults sink.old) (K.faults sink.new)) }
    ensures untouched { result ≢ Status.Good → result ≢ Status.WriteFault → result ≢ Status.DiskFault → result ≢ Status.Spent → K.held sink.new ≡ K.held sink.old }
    ensures disk_fault { result ≡ Status.DiskFault → HasRisenBy MOST_FAULTS (R.faults rack.old) (R.faults rack.new) }
    ensures write_fault { result ≡ Status.WriteFault → HasRisen (K.faults sink.old) (K.faults sink.new) }

    // Where source and sink count no fault, a good text is served.
    ensures each_run { IsRun words.now → ¬ HasRisen (S.faults source.old) (S.faults source.new) → ¬ HasRisen (K.faults sink.old) (K.faults sink.new) → IfTold (S.left source.old) (λ _trace. IsServed result) }
    ensures each_bulk { (n : ℕ) → IsBulk n words.now → ¬ HasRisen (K.faults sink.old) (K.faults sink.new) → IsServed result }

    // Where the gate stops nobody, all is done at the good status: every page of every write was written, and none is left. A bulk run then
    // says of each of its pages that it was dirtied and cleaned.
    ensures done { result ≡ Status.Good → NeverStops (G.said gate.now) → OfCommand words.now (S.left source.old) (λ trace text. Ran (C.told clock.now) trace (R.written rack.old) (R.written rack.new) (R.faults rack.old) (R.faults rack.new) (IsDone trace) text (IsWritten (K.held sink.old) (K.held sink.new))) }
    ensures bulk_done { result ≡ Status.Good → NeverStops (G.said gate.now) → (n : ℕ) → IsBulk n words.now → IsBulkDone n (R.written rack.old) (R.written rack.new) (K.held sink.old) (K.held sink.new) }
{
    match command_of(words) {
        Some(Command::Run) => run_trace(rt, alloc, source, sink, clock, gate, rack),
        Some(Command::Bulk { n }) => of_ran(run_bulk(rt, alloc, n, sink, clock, gate, rack)),
        None | Some(Command::Replay | Command::Check | Command::Law | Command::Audit) => {
            Status::BadWords
        },
        Some(Command::Forecast { .. }) => Status::BadWords,
    }
}

// Reads a trace, and writes the journal of its run.
fn run_trace<
    H: Threads + Wait + Sync,
    S: Source,
    K: Sink,
    C: Clock + Sync,
    G: Gate + Sync,
    R: Rack,
>(rt: &H, alloc: Global, source: &mut S, sink: &mut K, clock: &C, gate: &G, rack: &mut R) -> Status
    ensures ran { result ≡ Status.Good → OfRead (S.left source.old) (λ trace. Ran (C.told clock.now) trace (R.written rack.old) (R.written rack.new) (R.faults rack.old) (R.faults rack.new) (Finishes (G.said gate.now) trace) journal_text (IsWritten (K.held sink.old) (K.held sink.new))) }
    ensures ran_part { result ≡ Status.WriteFault → OfRead (S.left source.old) (λ trace. Ran (C.told clock.now) trace (R.written rack.old) (R.written rack.new) (R.faults rack.old) (R.faults rack.new) (Finishes (G.said gate.now) trace) journal_text (GainsPart (K.held sink.old) (K.held sink.new))) }
    ensures ran_faulted { result ≡ Status.DiskFault → OfRead (S.left source.old) (λ trace. Ran (C.told clock.now) trace (R.written rack.old) (R.written rack.new) (R.faults rack.old) (R.faults rack.new) (IsFaulted trace (R.faults rack.old) (R.faults rack.new)) journal_text (IsWrittenUnless (HasRisen (K.faults sink.old) (K.faults sink.new)) (K.held sink.old) (K.held sink.new))) }
    ensures ran_spent { result ≡ Status.Spent → OfRead (S.left source.old) (λ trace. Ran (C.told clock.now) trace (R.written rack.old) (R.written rack.new) (R.faults rack.old) (R.faults rack.new) IsSpent journal_text (IsWrittenUnless (HasRisen (K.faults sink.old) (K.faults sink.new)) (K.held sink.old) (K.held sink.new))) }
    ensures done { result ≡ Status.Good → NeverStops (G.said gate.now) → OfRead (S.left source.old) (λ trace. Ran (C.told clock.now) trace (R.written rack.old) (R.written rack.new) (R.faults rack.old) (R.faults rack.new) (IsDone trace) journal_text (IsWritten (K.held sink.old) (K.held sink.new))) }
    ensures untouched { result ≢ Status.Good → result ≢ Status.WriteFault → result ≢ Status.DiskFault → result ≢ Status.Spent → K.held sink.new ≡ K.held sink.old }
    ensures input { ReadsInput result (S.left source.old) (S.left source.new) (HasRisen (S.faults source.old) (S.faults source.new)) }
    ensures trace { RefusesText result (S.left source.old) (HasRisen (S.faults source.old) (S.faults source.new)) }
    ensures words { result ≢ Status.BadWords }
    ensures disk_fault { result ≡ Status.DiskFault → HasRisenBy MOST_FAULTS (R.faults rack.old) (R.faults rack.new) }
    ensures write_fault { result ≡ Status.WriteFault → HasRisen (K.faults sink.old) (K.faults sink.new) }
    ensures each_run { ¬ HasRisen (S.faults source.old) (S.faults source.new) → ¬ HasRisen (K.faults sink.old) (K.faults sink.new) → IfTold (S.left source.old) (λ _trace. IsServed result) }
{
    // The input tells nothing else.
    text_has_one_answer();
    match read_input(alloc, source) {
        Err(end) => of_input_end(end),
        Ok(trace) => of_ran(write_run(rt, alloc, &trace, sink, clock, gate, rack)),
    }
}

// Writes the text of the journal of a trace's run.
fn write_run<H: Threads + Wait + Sync, K: Sink, C: Clock + Sync, G: Gate + Sync, R: Rack>(
    rt: &H,
    alloc: Global,
    trace: &Trace,
    sink: &mut K,
    clock: &C,
    gate: &G,
    rack: &mut R,
) -> Result<(), RanEnd>
    requires { IsLawful trace.now }
    ensures ran { OnOk result (Ran (C.told clock.now) trace.now (R.written rack.old) (R.written rack.new) (R.faults rack.old) (R.faults rack.new) (Finishes (G.said gate.now) trace.now) journal_text (IsWritten (K.held sink.old) (K.held sink.new))) }
    ensures ran_part { IsErrOf result RanEnd.WriteFault → Ran (C.told clock.now) trace.now (R.written rack.old) (R.written rack.new) (R.faults rack.old) (R.faults rack.new) (Finishes (G.said gate.now) trace.now) journal_text (GainsPart (K.held sink.old) (K.held sink.new)) }
    ensures ran_faulted { IsErrOf result RanEnd.DiskFault → Ran (C.told clock.now) trace.now (R.written rack.old) (R.written rack.new) (R.faults rack.old) (R.faults rack.new) (IsFaulted trace.now (R.faults rack.old) (R.faults rack.new)) journal_text (IsWrittenUnless (HasRisen (K.faults sink.old) (K.faults sink.new)) (K.held sink.old) (K.held sink.new)) }
    ensures ran_spent { IsErrOf result RanEnd.Spent → Ran (C.told clock.now) trace.now (R.written rack.old) (R.written rack.new) (R.faults rack.old) (R.faults rack.new) IsSpent journal_text (IsWrittenUnless (HasRisen (K.faults sink.old) (K.faults sink.new)) (K.held sink.old) (K.held sink.new)) }
    ensures done { NeverStops (G.said gate.now) → OnOk result (Ran (C.told clock.now) trace.now (R.written rack.old) (R.written rack.new) (R.faults rack.old) (R.faults rack.new) (IsDone trace.now) journal_text (IsWritten (K.held sink.old) (K.held sink.new))) }
    ensures write_fault { IsErrOf result RanEnd.WriteFault → HasRisen (K.faults sink.old) (K.faults sink.new) }
    ensures no_memory { IsErrOf result RanEnd.NoMemory → K.held sink.new ≡ K.held sink.old }
{
    match run(rt, alloc, trace, clock, gate, rack) {
        RunEnd::NoMemory => Err(RanEnd::NoMemory),
        RunEnd::Finished(journal) => of_finished(print(alloc, &journal, sink)),
        RunEnd::Faulted(journal) => of_faulted(print(alloc, &journal, sink)),
        RunEnd::Spent(journal) => of_spent(print(alloc, &journal, sink)),
    }
}

// Writes what came of the run of so many pages.
fn run_bulk<H: Threads + Wait + Sync, K: Sink, C: Clock + Sync, G: Gate + Sync, R: Rack>(
    rt: &H,
    alloc: Global,
    n: u64,
    sink: &mut K,
    clock: &C,
    gate: &G,
    rack: &mut R,
) -> Result<(), RanEnd>
    requires { IsBulkSize n }
    ensures ran { OnOk result (Ran (C.told clock.now) (bulk_trace n) (R.written rack.old) (R.written rack.new) (R.faults rack.old) (R.faults rack.new) (Finishes (G.said gate.now) (bulk_trace n)) (bulk_text n) (IsWritten (K.held sink.old) (K.held sink.new))) }
    ensures ran_part { IsErrOf result RanEnd.WriteFault → Ran (C.told clock.now) (bulk_trace n) (R.written rack.old) (R.written rack.new) (R.faults rack.old) (R.faults rack.new) (Finishes (G.said gate.now) (bulk_trace n)) (bulk_text n) (GainsPart (K.held sink.old) (K.held sink.new)) }
    ensures ran_faulted { IsErrOf result RanEnd.DiskFault → Ran (C.told clock.now) (bulk_trace n) (R.written rack.old) (R.written rack.new) (R.faults rack.old) (R.faults rack.new) (IsFaulted (bulk_trace n) (R.faults rack.old) (R.faults rack.new)) (bulk_text n) (IsWrittenUnless (HasRisen (K.faults sink.old) (K.faults sink.new)) (K.held sink.old) (K.held sink.new)) }
    ensures ran_spent { IsErrOf result RanEnd.Spent → Ran (C.told clock.now) (bulk_trace n) (R.written rack.old) (R.written rack.new) (R.faults rack.old) (R.faults rack.new) IsSpent (bulk_text n) (IsWrittenUnless (HasRisen (K.faults sink.old) (K.faults sink.new)) (K.held sink.old) (K.held sink.new)) }
    ensures bulk_done { NeverStops (G.said gate.now) → OnOk result (IsBulkDone n (R.written rack.old) (R.written rack.new) (K.held sink.old) (K.held sink.new)) }
    ensures done { NeverStops (G.said gate.now) → OnOk result (Ran (C.told clock.now) (bulk_trace n) (R.written rack.old) (R.written rack.new) (R.faults rack.old) (R.faults rack.new) (IsDone (bulk_trace n)) (bulk_text n) (IsWritten (K.held sink.old) (K.held sink.new))) }
    ensures write_fault { IsErrOf result RanEnd.WriteFault → HasRisen (K.faults sink.old) (K.faults sink.new) }
    ensures no_memory { IsErrOf result RanEnd.NoMemory → K.held sink.new ≡ K.held sink.old }
{
    match generate(alloc, n) {
        Err(_) => Err(RanEnd::NoMemory),
        Ok(trace) => match run(rt, alloc, &trace, clock, gate, rack) {
            RunEnd::NoMemory => Err(RanEnd::NoMemory),
            RunEnd::Finished(journal) => of_finished(write_bulk(alloc, n, &journal, sink)),
            RunEnd::Faulted(journal) => of_faulted(write_bulk(alloc, n, &journal, sink)),
            RunEnd::Spent(journal) => of_spent(write_bulk(alloc, n, &journal, sink)),
        },
    }
}
