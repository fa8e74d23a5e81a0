//! How the process ends: with the sentence and the code of the status that its call answers.

ghost use Rattle.std.specs.Prelude.{◌≡◌, ◌≢◌, ◌↔◌, ℕ, IsTrue};
ghost use Rattle.std.specs.Process.{exit_status};
ghost use Rattle.wbt_io.specs.Faults.{HasRisen, HasRisenBy};
ghost use Rattle.wbt_rules.specs.declared.moments.TheConstants.{MOST_FAULTS};
ghost use Rattle.wbt_run.specs.Running.{IsDone};
ghost use Rattle.wbt_top_plain.specs.Audit.{IsAudit, ReadsText};
ghost use Rattle.wbt_top_plain.specs.StatusText.{code_of};
ghost use Rattle.wbt_top_plain.specs.Bulk.{IsBulk, IsRun};
ghost use Rattle.wbt_top_plain.specs.Claims.{FitsWords, ReadsInput, RefusesText, ServesAudit, ServesCheck, ServesForecast, ServesLaw, ServesReplay};
ghost use Rattle.wbt_top_plain.specs.Forecast.{Foretells, IsForecast};
ghost use Rattle.wbt_top.specs.Threads.{FitsThreads, IsBulkDone, IsServed, RunsAndWrites};
ghost use Rattle.wbt_top_plain.specs.Top.{IsReplay, IsCheck, IsLaw, ReadsTrace, IfTold};

use crate::threads::run_top;
use std::alloc::Global;
use std::marker::Model;
use std::process::{ExitCode, Termination};
use std::sync::Wait;
use std::thread::Threads;
use wbt_io::{Clock, FreeGate, Rack, Sink, Source};
use wbt_top_plain::{Status, Words, code, plain_top};

/// What `main` returns. None is made but by a call, or where memory for the words is refused.
#[derive(Drop)]
pub struct Ended {
    status: Status,
}

impl Model for Ended {
    ghost use Rattle.wbt_top_plain.specs.declared.status.Status.{Status as StatusValue};

    ghost Value = { StatusValue };

    ghost view = { λ ended. ended.status };
}

impl Ended {
    /// The end where there is no memory for the words.
    pub fn without_words() -> Ended
        ensures { result ≡ Status.NoMemory }
    {
        Ended {
            status: Status::NoMemory,
        }
    }

    /// Serves the words as `plain_top` does, and ends with its status: each with the cause that it has there.
    pub fn of_plain<S: Source, K: Sink>(
        alloc: Global,
        words: &Words,
        source: &mut S,
        sink: &mut K,
    ) -> Ended
        // The status is one that the words may have.
        ensures words { FitsWords result words.now }

        // Each text with a fault is refused by its first one, and a good one is served, where source and sink don't fail and memory suffices.
        ensures input { ReadsText words.now → ReadsInput result (S.left source.old) (S.left source.new) (HasRisen (S.faults source.old) (S.faults source.new)) }
        ensures trace { ReadsTrace words.now → RefusesText result (S.left source.old) (HasRisen (S.faults source.old) (S.faults source.new)) }
        ensures replay { IsReplay words.now → ServesReplay result (S.left source.old) (K.held sink.old) (K.held sink.new) (HasRisen (S.faults source.old) (S.faults source.new)) (HasRisen (K.faults sink.old) (K.faults sink.new)) }
        ensures forecast { (every : ℕ) → IsForecast every words.now → ServesForecast every result (S.left source.old) (K.held sink.old) (K.held sink.new) (HasRisen (S.faults source.old) (S.faults source.new)) (HasRisen (K.faults sink.old) (K.faults sink.new)) }
        ensures check { IsCheck words.now → ServesCheck result (S.left source.old) (K.held sink.old) (K.held sink.new) (HasRisen (S.faults source.old) (S.faults source.new)) (HasRisen (K.faults sink.old) (K.faults sink.new)) }
        ensures law { IsLaw words.now → ServesLaw result (S.left source.old) (K.held sink.old) (K.held sink.new) (HasRisen (S.faults source.old) (S.faults source.new)) (HasRisen (K.faults sink.old) (K.faults sink.new)) }
        ensures audit { IsAudit words.now → ServesAudit result (S.left source.old) (K.held sink.old) (K.held sink.new) (HasRisen (S.faults source.old) (S.faults source.new)) (HasRisen (K.faults sink.old) (K.faults sink.new)) }

        // A write fault comes only where the sink's count of faults rose. It leaves a part of the text in the sink, and so may want of memory where a
        // forecast was begun. Else nothing is written, but where all is.
        ensures write_fault { result ≡ Status.WriteFault → HasRisen (K.faults sink.old) (K.faults sink.new) }
        ensures untouched { result ≢ Status.Good → result ≢ Status.WriteFault → result ≢ Status.Spent → result ≢ Status.Unlawful → result ≢ Status.Unsettled → (Foretells words.now → result ≢ Status.NoMemory) → K.held sink.new ≡ K.held sink.old }
    {
        Ended {
            status: plain_top(alloc, words, source, sink),
        }
    }

    /// Serves the words as `run_top` does behind a gate that stops nobody, and ends with its status: each with the cause that it has there.
    pub fn of_run<H: Threads + Wait + Sync, S: Source, K: Sink, C: Clock + Sync, R: Rack>(
        rt: &H,
        alloc: Global,
        words: &Words,
        source: &mut S,
        sink: &mut K,
        clock: &C,
        rack: &mut R,
    ) -> Ended
        // The status is one that the words may have.
        ensures words { FitsThreads result words.now }

        // A text with a fault is refused by its first one. A bulk run reads nothing.
        ensures input { IsRun words.now → ReadsInput result (S.left source.old) (S.left source.new) (HasRisen (S.faults source.old) (S.faults source.new)) }
        ensures trace { IsRun words.now → RefusesText result (S.left source.old) (HasRisen (S.faults source.old) (S.faults source.new)) }
        ensures unread { (n : ℕ) → IsBulk n words.now → source.new ≡ source.old }

        // At the good status and after a write fault all is done: every page of every write was written, and none is left. The text was written,
        // or a part of it. Else a disk failed eight times, or a CPU made all its page steps; the text was written, or a part of it where the sink
        // failed too.
        ensures ran { RunsAndWrites IsDone result words.now (S.left source.old) (C.told clock.now) (R.written rack.old) (R.written rack.new) (R.faults rack.old) (R.faults rack.new) (K.held sink.old) (K.held sink.new) (HasRisen (K.faults sink.old) (K.faults sink.new)) }
        ensures untouched { result ≢ Status.Good → result ≢ Status.WriteFault → result ≢ Status.DiskFault → result ≢ Status.Spent → K.held sink.new ≡ K.held sink.old }
        ensures disk_fault { result ≡ Status.DiskFault → HasRisenBy MOST_FAULTS (R.faults rack.old) (R.faults rack.new) }
        ensures write_fault { result ≡ Status.WriteFault → HasRisen (K.faults sink.old) (K.faults sink.new) }

        // Where source and sink count no fault, a good text is served.
        ensures each_run { IsRun words.now → ¬ HasRisen (S.faults source.old) (S.faults source.new) → ¬ HasRisen (K.faults sink.old) (K.faults sink.new) → IfTold (S.left source.old) (λ _trace. IsServed result) }
        ensures each_bulk { (n : ℕ) → IsBulk n words.now → ¬ HasRisen (K.faults sink.old) (K.faults sink.new) → IsServed result }

        // A bulk run that is done says of each of its pages that it was dirtied and cleaned.
        ensures bulk_done { result ≡ Status.Good → (n : ℕ) → IsBulk n words.now → IsBulkDone n (R.written rack.old) (R.written rack.new) (K.held sink.old) (K.held sink.new) }
    {
        Ended {
            status: run_top(rt, alloc, words, source, sink, clock, &FreeGate, rack),
        }
    }
}

impl Termination for Ended {
    // A sentence that can't be written to standard error is passed over.
    fn report<R: Eprint>(self, rt: &R) -> ExitCode
        ensures { exit_status result ≡ code_of self }
    {
        let Ended { status } = self;
        if is_told(&status) {
            let _ = eprintln!(rt; "{status}");
        }
        ExitCode::from(code(&status))
    }
}

// Whether the sentence of a status goes to standard error: of each but the good one.
fn is_told(status: &Status) -> bool
    ensures { IsTrue result ↔ (status.now ≢ Status.Good) }
{
    match status {
        Status::Good => false,
        _ => true,
    }
}
