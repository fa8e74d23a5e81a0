//! The top calls.

ghost use Rattle.std.specs.Prelude.{◌≡◌, ◌≢◌, ◌↔◌, ℕ};
ghost use Rattle.wbt_io.specs.Faults.{HasRisen};
ghost use Rattle.wbt_top_plain.specs.Audit.{IsAudit, ReadsText};
ghost use Rattle.wbt_top_plain.specs.StatusText.{code_of};
ghost use Rattle.wbt_top_plain.specs.Bulk.{RunsThreads};
ghost use Rattle.wbt_top_plain.specs.Claims.{FitsWords, ReadsInput, RefusesText, ServesAudit, ServesCheck, ServesForecast, ServesLaw, ServesReplay};
ghost use Rattle.wbt_top_plain.specs.Forecast.{Foretells, IsEvery, IsForecast};
ghost use Rattle.wbt_top_plain.specs.Top.{IsReplay, IsCheck, IsLaw, ReadsTrace};

use crate::case::{judge, read_case};
use crate::causes::{of_case_end, of_input_end, of_output};
use crate::input::read_input;
use crate::law::{read_law_input, write_law};
use crate::output::{write_check, write_forecast, write_replay};
use crate::status::{Command, Route, Status, Words};
use crate::words::command_of;
use std::alloc::Global;
use wbt_io::{Sink, Source};
use wbt_journal::laws::{lawful_is_told, text_fixes_journal};
use wbt_law::law_has_one_answer;
use wbt_trace_text::text_has_one_answer;

/// Which call serves the words.
pub fn route(words: &Words) -> Route
    ensures plain { (result ≡ Route.Plain) ↔ ReadsText words.now }
    ensures threads { (result ≡ Route.Threads) ↔ RunsThreads words.now }
{
    match command_of(words) {
        Some(Command::Replay | Command::Check | Command::Law | Command::Audit) => Route::Plain,
        Some(Command::Forecast { .. }) => Route::Plain,
        Some(Command::Run) => Route::Threads,
        Some(Command::Bulk { .. }) => Route::Threads,
        None => Route::Bad,
    }
}

/// The exit code of a status.
pub fn code(status: &Status) -> u8
    ensures { result ≡ code_of status.now }
{
    match status {
        Status::Good => 0,
        Status::BadWords => 1,
        Status::BadTrace(_) => 2,
        Status::BadJournal { .. } => 10,
        Status::Unsettled => 12,
        Status::Unlawful => 11,
        Status::ReadFault => 3,
        Status::WriteFault => 4,
        Status::DiskFault => 5,
        Status::NoMemory => 6,
        Status::Spent => 7,
        Status::TooLong => 8,
    }
}

/// Serves the words `replay`, `forecast EVERY`, `check`, `law` and `audit`: reads a trace from the source, and writes to the sink the journal
/// of its ordered run, or the forecast of that run by intervals of so many ticks, or the trace in its normal form; or reads a law text, and
/// writes the decision of a check; or reads a trace, the line `journal` and the text of a journal, and writes whether that journal is lawful
/// for the trace.
///
/// It returns for every source and every sink. The input has at most 2^26 bytes. The clauses on bytes speak of those that a
/// source or sink tells; standard input and output tell none, and go through the same code.
pub fn plain_top<S: Source, K: Sink>(
    alloc: Global,
    words: &Words,
    source: &mut S,
    sink: &mut K,
) -> Status
    // The status is one that the words may have.
    ensures words { FitsWords result words.now }

    // Each text with a fault is refused by its first one, and a good one is served, where source and sink don't fail and memory suffices.
    ensures input { ReadsText words.now → ReadsInput result (S.left source.old) (S.left source.new) (HasRisen (S.faults source.old) (S.faults source.new)) }
    ensures trace { ReadsTrace words.now → RefusesText result (S.left source.old) (HasRisen (S.faults source.old) (S.faults source.new)) }
    ensures replay { IsReplay words.now → ServesReplay result (S.left source.old) (K.held sink.old) (K.held sink.new) (HasRisen (S.faults source.old) (S.faults source.new)) (HasRisen (K.faults sink.old) (K.faults sink.new)) }
    ensures forecast { (every : ℕ) → IsForecast every words.now → ServesForecast every result (S.left source.old) (K.held sink.old) (K.held sink.new) (HasRisen (S.faults source.old) (S.faults source.new)) (HasRisen (K.faults sink.old) (K.faults sink.new)) }
    ensures check { IsCheck words.now → ServesCheck result (S.left source.old) (K.held sink.old) (K.held sink.new) (HasRisen (S.faults source.old) (S.faults source.new)) (HasRisen (K.faults sink.old) (K.faults sink.new)) }
    ensures law { IsLaw words.now → ServesLaw result (S.left source.old) (K.held sink.old) (K.held sink.new) (HasRisen (S.faults source.old) (S.faults source.new)) (HasRisen (K.faults sink.old) (K.faults sink.new)) }
    ensures audit { IsAudit words.now → ServesAudit result (S.left source.old) (K.held sink.old) (K.held sink.new) (HasRisen (S.faults source.old) (S.faults source.new)) (HasRisen (K.faults sink.old) (K.faults sink.new)) }

    // A write fault comes only where the sink's count of faults rose. It leaves a part of the text in the sink, and so may want of memory where a
    // forecast was begun. Else nothing is written, but where all is.
    ensures write_fault { result ≡ Status.WriteFault → HasRisen (K.faults sink.old) (K.faults sink.new) }
    ensures untouched { result ≢ Status.Good → result ≢ Status.WriteFault → result ≢ Status.Spent → result ≢ Status.Unlawful → result ≢ Status.Unsettled → (Foretells words.now → result ≢ Status.NoMemory) → K.held sink.new ≡ K.held sink.old }
{
    match command_of(words) {
        None | Some(Command::Run | Command::Bulk { .. }) => Status::BadWords,
        Some(Command::Law) => law_top(alloc, source, sink),
        Some(Command::Replay) => replay_top(alloc, source, sink),
        Some(Command::Forecast { every }) => forecast_top(alloc, every, source, sink),
        Some(Command::Check) => check_top(alloc, source, sink),
        Some(Command::Audit) => audit_top(alloc, source, sink),
    }
}

// Reads a trace, and writes the journal of its ordered run.
fn replay_top<S: Source, K: Sink>(alloc: Global, source: &mut S, sink: &mut K) -> Status
    ensures replay { ServesReplay result (S.left source.old) (K.held sink.old) (K.held sink.new) (HasRisen (S.faults source.old) (S.faults source.new)) (HasRisen (K.faults sink.old) (K.faults sink.new)) }
    ensures trace { RefusesText result (S.left source.old) (HasRisen (S.faults source.old) (S.faults source.new)) }
    ensures input { ReadsInput result (S.left source.old) (S.left source.new) (HasRisen (S.faults source.old) (S.faults source.new)) }
    ensures words { result ≢ Status.BadWords }
    ensures no_audit { (result ≢ Status.Unsettled) × (result ≢ Status.Unlawful) × ((line : ℕ) → result ≢ Status.BadJournal line) }
    ensures no_disk { result ≢ Status.DiskFault }
    ensures write_fault { result ≡ Status.WriteFault → HasRisen (K.faults sink.old) (K.faults sink.new) }
    ensures untouched { result ≢ Status.Good → result ≢ Status.WriteFault → result ≢ Status.Spent → K.held sink.new ≡ K.held sink.old }
{
    // The input tells nothing else.
    text_has_one_answer();
    match read_input(alloc, source) {
        Err(end) => of_input_end(end),
        Ok(trace) => of_output(write_replay(alloc, &trace, sink)),
    }
}

// Reads a trace, and writes the forecast of its ordered run by intervals of so many ticks.
fn forecast_top<S: Source, K: Sink>(
    alloc: Global,
    every: u64,
    source: &mut S,
    sink: &mut K,
) -> Status
    requires { IsEvery every }
    ensures forecast { ServesForecast every result (S.left source.old) (K.held sink.old) (K.held sink.new) (HasRisen (S.faults source.old) (S.faults source.new)) (HasRisen (K.faults sink.old) (K.faults sink.new)) }
    ensures trace { RefusesText result (S.left source.old) (HasRisen (S.faults source.old) (S.faults source.new)) }
    ensures input { ReadsInput result (S.left source.old) (S.left source.new) (HasRisen (S.faults source.old) (S.faults source.new)) }
    ensures words { result ≢ Status.BadWords }
    ensures no_audit { (result ≢ Status.Unsettled) × (result ≢ Status.Unlawful) × ((line : ℕ) → result ≢ Status.BadJournal line) }
    ensures no_disk { result ≢ Status.DiskFault }
    ensures write_fault { result ≡ Status.WriteFault → HasRisen (K.faults sink.old) (K.faults sink.new) }
    ensures untouched { result ≢ Status.Good → result ≢ Status.WriteFault → result ≢ Status.Spent → result ≢ Status.NoMemory → K.held sink.new ≡ K.held sink.old }
{
    // The input tells nothing else.
    text_has_one_answer();
    match read_input(alloc, source) {
        Err(end) => of_input_end(end),
        Ok(trace) => of_output(write_forecast(alloc, &trace, every, sink)),
    }
}

// Reads a trace, and writes it in its normal form.
fn check_top<S: Source, K: Sink>(alloc: Global, source: &mut S, sink: &mut K) -> Status
    ensures check { ServesCheck result (S.left source.old) (K.held sink.old) (K.held sink.new) (HasRisen (S.faults source.old) (S.faults source.new)) (HasRisen (K.faults sink.old) (K.faults sink.new)) }
    ensures trace { RefusesText result (S.left source.old) (HasRisen (S.faults source.old) (S.faults source.new)) }
    ensures input { ReadsInput result (S.left source.old) (S.left source.new) (HasRisen (S.faults source.old) (S.faults source.new)) }
    ensures words { result ≢ Status.BadWords }
    ensures no_audit { (result ≢ Status.Unsettled) × (result ≢ Status.Unlawful) × ((line : ℕ) → result ≢ Status.BadJournal line) }
    ensures no_disk { result ≢ Status.DiskFault }
    ensures not_spent { result ≢ Status.Spent }
    ensures write_fault { result ≡ Status.WriteFault → HasRisen (K.faults sink.old) (K.faults sink.new) }
    ensures untouched { result ≢ Status.Good → result ≢ Status.WriteFault → K.held sink.new ≡ K.held sink.old }
{
    // The input tells nothing else.
    text_has_one_answer();
    match read_input(alloc, source) {
        Err(end) => of_input_end(end),
        Ok(trace) => of_output(write_check(alloc, &trace, sink)),
    }
}

// Reads a law text, and writes the position ratios and the decision of a check.
fn law_top<S: Source, K: Sink>(alloc: Global, source: &mut S, sink: &mut K) -> Status
    ensures law { ServesLaw result (S.left source.old) (K.held sink.old) (K.held sink.new) (HasRisen (S.faults source.old) (S.faults source.new)) (HasRisen (K.faults sink.old) (K.faults sink.new)) }
    ensures input { ReadsInput result (S.left source.old) (S.left source.new) (HasRisen (S.faults source.old) (S.faults source.new)) }
    ensures words { result ≢ Status.BadWords }
    ensures no_audit { (result ≢ Status.Unsettled) × (result ≢ Status.Unlawful) × ((line : ℕ) → result ≢ Status.BadJournal line) }
    ensures no_disk { result ≢ Status.DiskFault }
    ensures not_spent { result ≢ Status.Spent }
    ensures write_fault { result ≡ Status.WriteFault → HasRisen (K.faults sink.old) (K.faults sink.new) }
    ensures untouched { result ≢ Status.Good → result ≢ Status.WriteFault → K.held sink.new ≡ K.held sink.old }
{
    // The input tells nothing else.
    law_has_one_answer();
    match read_law_input(alloc, source) {
        Err(end) => of_input_end(end),
        Ok(law) => of_output(write_law(alloc, &law, sink)),
    }
}

// Reads a trace, the line `journal` and a journal's text, and writes whether the journal is lawful for the trace.
fn audit_top<S: Source, K: Sink>(alloc: Global, source: &mut S, sink: &mut K) -> Status
    ensures audit { ServesAudit result (S.left source.old) (K.held sink.old) (K.held sink.new) (HasRisen (S.faults source.old) (S.faults source.new)) (HasRisen (K.faults sink.old) (K.faults sink.new)) }
    ensures input { ReadsInput result (S.left source.old) (S.left source.new) (HasRisen (S.faults source.old) (S.faults source.new)) }
    ensures words { result ≢ Status.BadWords }
    ensures no_disk { result ≢ Status.DiskFault }
    ensures not_spent { result ≢ Status.Spent }
    ensures write_fault { result ≡ Status.WriteFault → HasRisen (K.faults sink.old) (K.faults sink.new) }
    ensures untouched { result ≢ Status.Good → result ≢ Status.WriteFault → result ≢ Status.Unlawful → result ≢ Status.Unsettled → K.held sink.new ≡ K.held sink.old }
{
    // The input tells nothing else, and the text of a run's journal tells a journal.
    text_has_one_answer();
    text_fixes_journal();
    lawful_is_told();
    match read_case(alloc, source) {
        Err(end) => of_case_end(end),
        Ok(case) => judge(alloc, &case, sink),
    }
}
