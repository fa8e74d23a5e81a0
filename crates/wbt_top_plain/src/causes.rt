//! Which status a cause becomes. None of it takes memory, so that refused memory is told for nothing else.

ghost use Rattle.std.specs.Prelude.{◌≡◌, ◌≢◌, ◌↔◌, ◌⊎◌, ℕ, Ok, Err, IsOk};
ghost use Rattle.wbt_trace_text.specs.declared.fault.TraceFault.{TraceFault as FaultValue};
ghost use Rattle.wbt_top_plain.specs.Audit.{AnswersVerdict};

use crate::status::Status;
use wbt_audit::Verdict;
use wbt_forecast::ForecastFault;
use wbt_io::ReadEnd;
use wbt_journal::{Ending, PrintEnd};
use wbt_journal_reader::JournalFault;
use wbt_trace_text::TraceFault;

/// Why there is no input to work on.
#[derive(Clone, Copy)]
pub enum InputEnd {
    /// The source wasn't read to its end.
    Unread(ReadEnd),
    /// The text that was read has this fault.
    Refused(TraceFault),
}

/// Why there is no trace with a journal to judge.
#[derive(Clone, Copy)]
pub enum CaseEnd {
    /// The source wasn't read to its end.
    Unread(ReadEnd),
    /// The text of the trace has this fault.
    BadTrace(TraceFault),
    /// What comes after it isn't the line `journal` with a journal's text.
    BadJournal(JournalFault),
}

/// Why an output wasn't written whole.
#[derive(Clone, Copy)]
pub enum OutputEnd {
    /// The sink failed. It holds a part of the text.
    WriteFault,
    /// The run is spent. The text was written, or a part of it where the sink failed too; that of a forecast was written.
    Spent,
    /// There was no memory. Nothing was written, or a part of a forecast.
    NoMemory,
}

/// The status of a text that has a fault.
pub fn of_fault(fault: TraceFault) -> Status
    ensures memory { (result ≡ Status.NoMemory) ↔ (fault ≡ TraceFault.NoMemory) }
    ensures bad_trace { (told : FaultValue) → (result ≡ Status.BadTrace told) ↔ ((told ≢ TraceFault.NoMemory) × (fault ≡ told)) }
    ensures no_other { (result ≢ Status.Good) × (result ≢ Status.BadWords) × (result ≢ Status.ReadFault) × (result ≢ Status.WriteFault) × (result ≢ Status.DiskFault) × (result ≢ Status.Spent) × (result ≢ Status.TooLong) }
    ensures no_audit { (result ≢ Status.Unsettled) × (result ≢ Status.Unlawful) × ((line : ℕ) → result ≢ Status.BadJournal line) }
{
    match fault {
        TraceFault::NoMemory => Status::NoMemory,
        _ => Status::BadTrace(fault),
    }
}

/// The status of a source that wasn't read to its end.
pub fn of_read_end(end: ReadEnd) -> Status
    ensures read_fault { (result ≡ Status.ReadFault) ↔ (end ≡ ReadEnd.ReadFault) }
    ensures too_long { (result ≡ Status.TooLong) ↔ (end ≡ ReadEnd.TooLong) }
    ensures memory { (result ≡ Status.NoMemory) ↔ (end ≡ ReadEnd.NoMemory) }
    ensures not_trace { (told : FaultValue) → result ≢ Status.BadTrace told }
    ensures no_other { (result ≢ Status.Good) × (result ≢ Status.BadWords) × (result ≢ Status.WriteFault) × (result ≢ Status.DiskFault) × (result ≢ Status.Spent) }
    ensures no_audit { (result ≢ Status.Unsettled) × (result ≢ Status.Unlawful) × ((line : ℕ) → result ≢ Status.BadJournal line) }
{
    match end {
        ReadEnd::ReadFault => Status::ReadFault,
        ReadEnd::TooLong => Status::TooLong,
        ReadEnd::NoMemory => Status::NoMemory,
    }
}

/// The status of an input that can't be worked on.
pub fn of_input_end(end: InputEnd) -> Status
    ensures read_fault { (result ≡ Status.ReadFault) ↔ (end ≡ InputEnd.Unread ReadEnd.ReadFault) }
    ensures too_long { (result ≡ Status.TooLong) ↔ (end ≡ InputEnd.Unread ReadEnd.TooLong) }
    ensures bad_trace { (told : FaultValue) → (result ≡ Status.BadTrace told) ↔ ((told ≢ TraceFault.NoMemory) × (end ≡ InputEnd.Refused told)) }
    ensures memory { (result ≡ Status.NoMemory) ↔ ((end ≡ InputEnd.Unread ReadEnd.NoMemory) ⊎ (end ≡ InputEnd.Refused TraceFault.NoMemory)) }
    ensures no_other { (result ≢ Status.Good) × (result ≢ Status.BadWords) × (result ≢ Status.WriteFault) × (result ≢ Status.DiskFault) × (result ≢ Status.Spent) }
    ensures no_audit { (result ≢ Status.Unsettled) × (result ≢ Status.Unlawful) × ((line : ℕ) → result ≢ Status.BadJournal line) }
{
    match end {
        InputEnd::Unread(end) => of_read_end(end),
        InputEnd::Refused(fault) => of_fault(fault),
    }
}

/// The status of an input that has no trace with a journal to judge.
pub fn of_case_end(end: CaseEnd) -> Status
    ensures read_fault { (result ≡ Status.ReadFault) ↔ (end ≡ CaseEnd.Unread ReadEnd.ReadFault) }
    ensures too_long { (result ≡ Status.TooLong) ↔ (end ≡ CaseEnd.Unread ReadEnd.TooLong) }
    ensures bad_trace { (told : FaultValue) → (result ≡ Status.BadTrace told) ↔ ((told ≢ TraceFault.NoMemory) × (end ≡ CaseEnd.BadTrace told)) }
    ensures bad_journal { (line : ℕ) → (result ≡ Status.BadJournal line) ↔ (end ≡ CaseEnd.BadJournal (JournalFault.BadLine line)) }
    ensures memory { (result ≡ Status.NoMemory) ↔ ((end ≡ CaseEnd.Unread ReadEnd.NoMemory) ⊎ ((end ≡ CaseEnd.BadTrace TraceFault.NoMemory) ⊎ (end ≡ CaseEnd.BadJournal JournalFault.NoMemory))) }
    ensures no_other { (result ≢ Status.Good) × (result ≢ Status.BadWords) × (result ≢ Status.Unsettled) × (result ≢ Status.Unlawful) × (result ≢ Status.WriteFault) × (result ≢ Status.DiskFault) × (result ≢ Status.Spent) }
{
    match end {
        CaseEnd::Unread(end) => of_read_end(end),
        CaseEnd::BadTrace(fault) => of_fault(fault),
        CaseEnd::BadJournal(fault) => of_journal_fault(fault),
    }
}

fn of_journal_fault(fault: JournalFault) -> Status
    ensures bad_journal { (line : ℕ) → (result ≡ Status.BadJournal line) ↔ (fault ≡ JournalFault.BadLine line) }
    ensures memory { (result ≡ Status.NoMemory) ↔ (fault ≡ JournalFault.NoMemory) }
    ensures not_trace { (told : FaultValue) → result ≢ Status.BadTrace told }
    ensures no_other { (result ≢ Status.Good) × (result ≢ Status.BadWords) × (result ≢ Status.Unsettled) × (result ≢ Status.Unlawful) × (result ≢ Status.ReadFault) × (result ≢ Status.WriteFault) × (result ≢ Status.DiskFault) × (result ≢ Status.Spent) × (result ≢ Status.TooLong) }
{
    match fault {
        JournalFault::BadLine { line } => Status::BadJournal { line },
        JournalFault::NoMemory => Status::NoMemory,
    }
}

/// The status of a verdict whose line was written so. That a journal isn't lawful, or isn't settled, stands before a fault of the sink.
pub fn of_verdict(verdict: Verdict, written: Result<(), PrintEnd>) -> Status
    ensures answers { (result ≡ Status.NoMemory) ⊎ AnswersVerdict result (written ≡ Err PrintEnd.WriteFault) verdict }
    ensures memory { (result ≡ Status.NoMemory) ↔ (written ≡ Err PrintEnd.NoMemory) }
    ensures good { result ≡ Status.Good → IsOk written }
    ensures write_fault { result ≡ Status.WriteFault → written ≡ Err PrintEnd.WriteFault }
{
    match (verdict, written) {
        (_, Err(PrintEnd::NoMemory)) => Status::NoMemory,
        (Verdict::Broken { .. }, _) => Status::Unlawful,
        (Verdict::Unsettled { .. }, _) => Status::Unsettled,
        (Verdict::Lawful, Err(PrintEnd::WriteFault)) => Status::WriteFault,
        (Verdict::Lawful, Ok(())) => Status::Good,
    }
}

/// How a journal was printed. That its run is spent stands before a fault of the sink.
pub fn of_print(printed: Result<(), PrintEnd>, ending: Ending) -> Result<(), OutputEnd>
    ensures good { IsOk result ↔ (IsOk printed × (ending ≢ Ending.Spent)) }
    ensures write_fault { (result ≡ Err OutputEnd.WriteFault) ↔ ((printed ≡ Err PrintEnd.WriteFault) × (ending ≢ Ending.Spent)) }
    ensures spent { (result ≡ Err OutputEnd.Spent) ↔ ((IsOk printed ⊎ (printed ≡ Err PrintEnd.WriteFault)) × (ending ≡ Ending.Spent)) }
    ensures memory { (result ≡ Err OutputEnd.NoMemory) ↔ (printed ≡ Err PrintEnd.NoMemory) }
{
    match (printed, ending) {
        (Err(PrintEnd::NoMemory), _) => Err(OutputEnd::NoMemory),
        (_, Ending::Spent) => Err(OutputEnd::Spent),
        (Err(PrintEnd::WriteFault), _) => Err(OutputEnd::WriteFault),
        (Ok(()), _) => Ok(()),
    }
}

/// How a forecast was written. That its run is spent is known of one that was written whole.
pub fn of_forecast(told: Result<Ending, ForecastFault>) -> Result<(), OutputEnd>
    ensures good { IsOk result ↔ (IsOk told × (told ≢ Ok Ending.Spent)) }
    ensures write_fault { (result ≡ Err OutputEnd.WriteFault) ↔ (told ≡ Err ForecastFault.WriteFault) }
    ensures spent { (result ≡ Err OutputEnd.Spent) ↔ (told ≡ Ok Ending.Spent) }
    ensures memory { (result ≡ Err OutputEnd.NoMemory) ↔ (told ≡ Err ForecastFault.NoMemory) }
{
    match told {
        Ok(Ending::Spent) => Err(OutputEnd::Spent),
        Ok(_) => Ok(()),
        Err(ForecastFault::WriteFault) => Err(OutputEnd::WriteFault),
        Err(ForecastFault::NoMemory) => Err(OutputEnd::NoMemory),
    }
}

/// The status of an output.
pub fn of_output(written: Result<(), OutputEnd>) -> Status
    ensures good { (result ≡ Status.Good) ↔ IsOk written }
    ensures write_fault { (result ≡ Status.WriteFault) ↔ (written ≡ Err OutputEnd.WriteFault) }
    ensures spent { (result ≡ Status.Spent) ↔ (written ≡ Err OutputEnd.Spent) }
    ensures memory { (result ≡ Status.NoMemory) ↔ (written ≡ Err OutputEnd.NoMemory) }
    ensures not_trace { (told : FaultValue) → result ≢ Status.BadTrace told }
    ensures no_other { (result ≢ Status.BadWords) × (result ≢ Status.ReadFault) × (result ≢ Status.DiskFault) × (result ≢ Status.TooLong) }
    ensures no_audit { (result ≢ Status.Unsettled) × (result ≢ Status.Unlawful) × ((line : ℕ) → result ≢ Status.BadJournal line) }
{
    match written {
        Ok(()) => Status::Good,
        Err(OutputEnd::WriteFault) => Status::WriteFault,
        Err(OutputEnd::Spent) => Status::Spent,
        Err(OutputEnd::NoMemory) => Status::NoMemory,
    }
}
