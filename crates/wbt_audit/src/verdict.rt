//! The audit: whether the journal of a run is lawful for a trace.

ghost use Rattle.std.specs.Prelude.{◌≡◌, Ok, IfOk};
ghost use Rattle.wbt_journal.specs.Checks.{with_marks};
ghost use Rattle.wbt_journal.specs.PlainJournal.{IsPlainJournal};
ghost use Rattle.wbt_journal.specs.Verdict.{verdict_of};
ghost use Rattle.wbt_trace.specs.Lawful.{IsLawful};
ghost use Rattle.wbt_audit.specs.Audited.{audit_of, told_verdict, verdict_of_checks, verdict_of_runs};
ghost use Rattle.wbt_audit_turns.specs.Marks.{FaultsStay};

use crate::unsettled::unsettled;
use std::alloc::Global;
use wbt_audit_reads::counts::counts_fault;
use wbt_audit_reads::estimates::estimates_fault;
use wbt_audit_reads::folds::folds_fault;
use wbt_audit_reads::fractions::fractions_fault;
use wbt_audit_reads::timer::timers_fault;
use wbt_audit_reads::triples::triples_fault;
use wbt_audit_turns::bound::bound_fault;
use wbt_audit_turns::checks::check_faults;
use wbt_audit_turns::ending::ending_fault;
use wbt_audit_turns::flights::flights_fault;
use wbt_audit_turns::ledger::ledger_fault;
use wbt_audit_turns::marks::marks_change_no_other;
use wbt_audit_turns::pages::pages_fault;
use wbt_audit_turns::waits::waits_fault;
use wbt_journal::Journal;
use wbt_num::NoMemory;
use wbt_trace::Trace;

/// What an audit says of a journal.
#[derive(Clone, Copy, Debug, PartialEq, Eq)]
pub enum Verdict {
    /// It is lawful for the trace.
    Lawful,
    /// It isn't: this is the least point that it breaks, with the line that shows it, counted from the journal's first, which is 1.
    Broken { clause: u32, line: u64 },
    /// It isn't judged, since no line tells where this task ends: its last action is a rest, and its CPU has another task. It is the
    /// least such task.
    Unsettled { task: u32 },
}

/// Why an audit ends without a verdict.
#[derive(Clone, Copy, Debug, PartialEq, Eq)]
pub enum AuditEnd {
    /// There was no memory.
    NoMemory,
}

impl From<NoMemory> for AuditEnd {
    fn from(_: NoMemory) -> AuditEnd {
        AuditEnd::NoMemory
    }
}

/// What an audit says of the journal: first whether a task is unsettled; else whether the journal is lawful for the trace, by its points in
/// order, each judged with the marks that the journal's lines call for. `NoMemory` may come at any journal; it also comes at one with 2^64
/// lines or more, or with 2^46 fresh writes of a CPU, for which there is no memory anyway.
///
/// Its time is linear in the lines of the trace and of the journal and in the pages. It takes about 40 bytes for each page of the trace and
/// 24 for each line of the journal.
#[tactic(auto, unfolding(crate::specs::Audited::audit_of))]
pub fn audit(alloc: Global, trace: &Trace, journal: &Journal) -> Result<Verdict, AuditEnd>
    requires lawful { IsLawful trace.now }
    requires plain { IsPlainJournal journal.now }
    ensures { IfOk result (λ verdict. verdict ≡ audit_of trace.now journal.now) }
{
    marks_change_no_other();
    let unsettled = unsettled(alloc, trace)?;
    if let Some(task) = unsettled {
        return Ok(Verdict::Unsettled { task });
    }
    let verdict = judge_folds(alloc, trace, journal)?;
    Ok(verdict)
}

// By the points from the second on.
#[tactic(auto, unfolding(wbt_journal::specs::Verdict::verdict_of))]
fn judge_folds(alloc: Global, trace: &Trace, journal: &Journal) -> Result<Verdict, NoMemory>
    requires lawful { IsLawful trace.now }
    requires plain { IsPlainJournal journal.now }
    requires marks { FaultsStay trace.now journal.now }
    ensures { IfOk result (λ verdict. verdict ≡ told_verdict (verdict_of trace.now (with_marks trace.now journal.now))) }
{
    let folds = folds_fault(alloc, trace, journal)?;
    if let Some(line) = folds {
        return broken(2, line);
    }
    let counts = counts_fault(alloc, trace, journal)?;
    if let Some(line) = counts {
        return broken(3, line);
    }
    let triples = triples_fault(alloc, trace, journal)?;
    if let Some(line) = triples {
        return broken(4, line);
    }
    let fractions = fractions_fault(alloc, trace, journal)?;
    if let Some(line) = fractions {
        return broken(5, line);
    }
    let estimates = estimates_fault(alloc, trace, journal)?;
    if let Some(line) = estimates {
        return broken(6, line);
    }
    judge_checks(alloc, trace, journal)
}

// By those from the seventh on.
fn judge_checks(alloc: Global, trace: &Trace, journal: &Journal) -> Result<Verdict, NoMemory>
    requires lawful { IsLawful trace.now }
    requires plain { IsPlainJournal journal.now }
    requires marks { FaultsStay trace.now journal.now }
    ensures { IfOk result (λ verdict. verdict ≡ told_verdict (verdict_of_checks trace.now (with_marks trace.now journal.now))) }
{
    let checks = check_faults(alloc, trace, journal)?;
    if let Some(line) = checks.decision {
        return broken(7, line);
    }
    if let Some(line) = checks.stand {
        return broken(8, line);
    }
    let timers = timers_fault(alloc, trace, journal)?;
    if let Some(line) = timers {
        return broken(9, line);
    }
    let waits = waits_fault(alloc, trace, journal)?;
    if let Some(line) = waits {
        return broken(10, line);
    }
    judge_runs(alloc, trace, journal)
}

// By those from the twelfth on.
fn judge_runs(alloc: Global, trace: &Trace, journal: &Journal) -> Result<Verdict, NoMemory>
    requires { IsLawful trace.now }
    ensures { IfOk result (λ verdict. verdict ≡ told_verdict (verdict_of_runs trace.now journal.now)) }
{
    let pages = pages_fault(alloc, trace, journal)?;
    if let Some(line) = pages {
        return broken(12, line);
    }
    let ledger = ledger_fault(alloc, trace, journal)?;
    if let Some(line) = ledger {
        return broken(13, line);
    }
    let flights = flights_fault(alloc, trace, journal)?;
    if let Some(line) = flights {
        return broken(14, line);
    }
    let bound = bound_fault(alloc, trace, journal)?;
    if let Some(line) = bound {
        return broken(15, line);
    }
    let ending = ending_fault(alloc, trace, journal)?;
    if let Some(line) = ending {
        return broken(16, line);
    }
    Ok(Verdict::Lawful)
}

fn broken(clause: u32, line: u64) -> Result<Verdict, NoMemory>
    ensures { result ≡ Ok (Verdict.Broken clause line) }
{
    Ok(Verdict::Broken { clause, line })
}
