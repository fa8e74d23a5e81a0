//! A trace with a journal that is to be judged for it: read, judged, and the verdict's line written.

ghost use Rattle.std.specs.Prelude.{◌≡◌, ◌≢◌, ◌⊎◌, ℕ, IfOk, OnOk, IsErrOf, string_bytes};
ghost use Rattle.std.specs.Io.KnownBytes.{append_known, IsAtEnd};
ghost use Rattle.wbt_io.specs.Faults.{HasRisen};
ghost use Rattle.wbt_io.specs.Told.{GainsPart};
ghost use Rattle.wbt_trace.specs.Lawful.{IsLawful};
ghost use Rattle.wbt_trace_text.specs.declared.fault.TraceFault.{TraceFault as FaultValue};
ghost use Rattle.wbt_journal.specs.PlainJournal.{IsPlainJournal};
ghost use Rattle.wbt_audit.specs.Audited.{audit_of};
ghost use Rattle.wbt_top_plain.specs.Audit.{AnswersVerdict, IsAuditInput, Means, Tells, bad_trace, bad_journal, both, verdict_text as verdict_text_value};
ghost use Rattle.wbt_top_plain.specs.Written.{IsWritten, IsWrittenUnless};
ghost use Rattle.wbt_top_plain.specs.Top.{IsLong, IfLong};

use crate::causes::{CaseEnd, of_verdict};
use crate::cut::parts_of;
use crate::input::read_text;
use crate::status::Status;
use std::alloc::{AllocError, Global};
use std::fmt::Write;
use wbt_audit::laws::{broken_verdicts_are_right, lawful_verdicts_are_right};
use wbt_audit::{Verdict, audit};
use wbt_io::{ReadEnd, Sink, Source, write_all};
use wbt_journal::{Journal, PrintEnd};
use wbt_journal_reader::{JournalFault, read_journal};
use wbt_trace::Trace;
use wbt_trace_text::{TraceFault, read_trace};

/// A trace, and a journal that is to be judged for it.
#[derive(Drop)]
pub struct Case {
    /// The trace.
    pub trace: Trace,
    /// The journal.
    pub journal: Journal,
}

/// Reads a trace, the line `journal` and a journal's text from a source, to the end of its input, or says why there are none.
pub fn read_case<S: Source>(alloc: Global, source: &mut S) -> Result<Case, CaseEnd>
    ensures found { IfOk result (λ case. IsAuditInput (S.left source.old) (both case.trace case.journal)) }
    ensures lawful { IfOk result (λ case. IsLawful case.trace) }
    ensures plain { IfOk result (λ case. IsPlainJournal case.journal) }
    ensures end { OnOk result (IsAtEnd (S.left source.new)) }
    ensures read_fault { IsErrOf result (CaseEnd.Unread ReadEnd.ReadFault) → HasRisen (S.faults source.old) (S.faults source.new) }
    ensures too_long { IsErrOf result (CaseEnd.Unread ReadEnd.TooLong) → IsLong (S.left source.old) }
    ensures each_too_long { ¬ HasRisen (S.faults source.old) (S.faults source.new) → IfLong (S.left source.old) (IsErrOf result (CaseEnd.Unread ReadEnd.TooLong) ⊎ IsErrOf result (CaseEnd.Unread ReadEnd.NoMemory)) }
    ensures bad_trace { (fault : FaultValue) → IsErrOf result (CaseEnd.BadTrace fault) → fault ≢ TraceFault.NoMemory → IsAuditInput (S.left source.old) (bad_trace fault) }
    ensures bad_journal { (line : ℕ) → IsErrOf result (CaseEnd.BadJournal (JournalFault.BadLine line)) → IsAuditInput (S.left source.old) (bad_journal line) }
    ensures bad_trace_end { (fault : FaultValue) → IsErrOf result (CaseEnd.BadTrace fault) → IsAtEnd (S.left source.new) }
    ensures bad_journal_end { (fault : JournalFault) → IsErrOf result (CaseEnd.BadJournal fault) → IsAtEnd (S.left source.new) }
{
    match read_text(alloc, source) {
        Err(end) => Err(CaseEnd::Unread(end)),
        Ok(text) => case_of(alloc, text.as_slice()),
    }
}

// The trace and the journal that a text tells.
fn case_of(alloc: Global, text: &[u8]) -> Result<Case, CaseEnd>
    ensures found { IfOk result (λ case. Tells text.now (both case.trace case.journal)) }
    ensures lawful { IfOk result (λ case. IsLawful case.trace) }
    ensures plain { IfOk result (λ case. IsPlainJournal case.journal) }
    ensures read { (end : ReadEnd) → ¬ IsErrOf result (CaseEnd.Unread end) }
    ensures bad_trace { (fault : FaultValue) → IsErrOf result (CaseEnd.BadTrace fault) → fault ≢ TraceFault.NoMemory → Tells text.now (bad_trace fault) }
    ensures bad_journal { (line : ℕ) → IsErrOf result (CaseEnd.BadJournal (JournalFault.BadLine line)) → Tells text.now (bad_journal line) }
{
    let parts = parts_of(text);
    match read_trace(alloc, parts.front) {
        Err(fault) => Err(CaseEnd::BadTrace(fault)),
        Ok(trace) => match parts.rest {
            None => Err(CaseEnd::BadJournal(JournalFault::BadLine { line: 0 })),
            Some(rest) => match read_journal(alloc, rest) {
                Err(fault) => Err(CaseEnd::BadJournal(fault)),
                Ok(journal) => Ok(Case { trace, journal }),
            },
        },
    }
}

/// Judges the journal for its trace, and writes the verdict's line.
pub fn judge<K: Sink>(alloc: Global, case: &Case, sink: &mut K) -> Status
    requires lawful { IsLawful case.now.trace }
    requires plain { IsPlainJournal case.now.journal }
    ensures answers { (result ≡ Status.NoMemory) ⊎ AnswersVerdict result (HasRisen (K.faults sink.old) (K.faults sink.new)) (audit_of case.now.trace case.now.journal) }
    ensures means { result ≢ Status.NoMemory → Means (audit_of case.now.trace case.now.journal) case.now.trace case.now.journal }
    ensures good { result ≡ Status.Good → IsWritten (K.held sink.old) (K.held sink.new) (verdict_text_value (audit_of case.now.trace case.now.journal)) }
    ensures part { result ≡ Status.WriteFault → GainsPart (K.held sink.old) (K.held sink.new) (verdict_text_value (audit_of case.now.trace case.now.journal)) }
    ensures told { (result ≡ Status.Unlawful) ⊎ (result ≡ Status.Unsettled) → IsWrittenUnless (HasRisen (K.faults sink.old) (K.faults sink.new)) (K.held sink.old) (K.held sink.new) (verdict_text_value (audit_of case.now.trace case.now.journal)) }
    ensures write_fault { result ≡ Status.WriteFault → HasRisen (K.faults sink.old) (K.faults sink.new) }
    ensures untouched { result ≡ Status.NoMemory → K.held sink.new ≡ K.held sink.old }
{
    lawful_verdicts_are_right();
    broken_verdicts_are_right();
    match audit(alloc, &case.trace, &case.journal) {
        Err(_) => Status::NoMemory,
        Ok(verdict) => of_verdict(verdict, write_verdict(alloc, verdict, sink)),
    }
}

// Writes the line of a verdict.
fn write_verdict<K: Sink>(alloc: Global, verdict: Verdict, sink: &mut K) -> Result<(), PrintEnd>
    ensures ok { OnOk result (K.held sink.new ≡ append_known (K.held sink.old) (verdict_text_value verdict)) }
    ensures write_fault { IsErrOf result PrintEnd.WriteFault → GainsPart (K.held sink.old) (K.held sink.new) (verdict_text_value verdict) }
    ensures no_memory { IsErrOf result PrintEnd.NoMemory → sink.new ≡ sink.old }
    ensures cause { IsErrOf result PrintEnd.WriteFault → HasRisen (K.faults sink.old) (K.faults sink.new) }
{
    let Ok(text) = verdict_text(alloc, verdict) else {
        return Err(PrintEnd::NoMemory);
    };
    match write_all(sink, text.as_bytes()) {
        Ok(()) => Ok(()),
        Err(_) => Err(PrintEnd::WriteFault),
    }
}

fn verdict_text(alloc: Global, verdict: Verdict) -> Result<String, AllocError>
    ensures { IfOk result (λ text. string_bytes text ≡ verdict_text_value verdict) }
{
    let mut text = String::new(alloc);
    match verdict {
        Verdict::Lawful => writeln!(text, "lawful")?,
        Verdict::Broken { clause, line } => writeln!(text, "broken clause {clause} line {line}")?,
        Verdict::Unsettled { task } => writeln!(text, "unsettled task {task}")?,
    }
    Ok(text)
}
