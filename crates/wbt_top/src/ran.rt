//! Which status the end of a run over threads becomes. None of it takes memory, so that refused memory is told for nothing else.

ghost use Rattle.std.specs.Prelude.{◌≡◌, ◌≢◌, ◌↔◌, ◌⊎◌, ℕ, Err, IsOk};
ghost use Rattle.wbt_trace_text.specs.declared.fault.TraceFault.{TraceFault as FaultValue};

use wbt_journal::PrintEnd;
use wbt_top_plain::Status;

/// Why a run over threads isn't written whole, or isn't done.
#[derive(Clone, Copy)]
pub enum RanEnd {
    /// The sink failed. It holds a part of the text.
    WriteFault,
    /// A disk failed as often as it may. The text was written, or a part of it where the sink failed too.
    DiskFault,
    /// A CPU made all its page steps. The text was written, or a part of it where the sink failed too.
    Spent,
    /// There was no memory. Nothing was written.
    NoMemory,
}

/// How the text of a run was written that finished.
pub fn of_finished(printed: Result<(), PrintEnd>) -> Result<(), RanEnd>
    ensures good { IsOk result ↔ IsOk printed }
    ensures write_fault { (result ≡ Err RanEnd.WriteFault) ↔ (printed ≡ Err PrintEnd.WriteFault) }
    ensures memory { (result ≡ Err RanEnd.NoMemory) ↔ (printed ≡ Err PrintEnd.NoMemory) }
    ensures no_other { (result ≢ Err RanEnd.DiskFault) × (result ≢ Err RanEnd.Spent) }
{
    match printed {
        Ok(()) => Ok(()),
        Err(PrintEnd::WriteFault) => Err(RanEnd::WriteFault),
        Err(PrintEnd::NoMemory) => Err(RanEnd::NoMemory),
    }
}

/// How the text of a run was written whose disk failed as often as it may. That stands before a fault of the sink.
pub fn of_faulted(printed: Result<(), PrintEnd>) -> Result<(), RanEnd>
    ensures disk_fault { (result ≡ Err RanEnd.DiskFault) ↔ (IsOk printed ⊎ (printed ≡ Err PrintEnd.WriteFault)) }
    ensures memory { (result ≡ Err RanEnd.NoMemory) ↔ (printed ≡ Err PrintEnd.NoMemory) }
    ensures no_other { (¬ IsOk result) × (result ≢ Err RanEnd.WriteFault) × (result ≢ Err RanEnd.Spent) }
{
    match printed {
        Ok(()) | Err(PrintEnd::WriteFault) => Err(RanEnd::DiskFault),
        Err(PrintEnd::NoMemory) => Err(RanEnd::NoMemory),
    }
}

/// How the text of a run was written that is spent. That stands before a fault of the sink.
pub fn of_spent(printed: Result<(), PrintEnd>) -> Result<(), RanEnd>
    ensures spent { (result ≡ Err RanEnd.Spent) ↔ (IsOk printed ⊎ (printed ≡ Err PrintEnd.WriteFault)) }
    ensures memory { (result ≡ Err RanEnd.NoMemory) ↔ (printed ≡ Err PrintEnd.NoMemory) }
    ensures no_other { (¬ IsOk result) × (result ≢ Err RanEnd.WriteFault) × (result ≢ Err RanEnd.DiskFault) }
{
    match printed {
        Ok(()) | Err(PrintEnd::WriteFault) => Err(RanEnd::Spent),
        Err(PrintEnd::NoMemory) => Err(RanEnd::NoMemory),
    }
}

/// The status of a run over threads.
pub fn of_ran(ran: Result<(), RanEnd>) -> Status
    ensures good { (result ≡ Status.Good) ↔ IsOk ran }
    ensures write_fault { (result ≡ Status.WriteFault) ↔ (ran ≡ Err RanEnd.WriteFault) }
    ensures disk_fault { (result ≡ Status.DiskFault) ↔ (ran ≡ Err RanEnd.DiskFault) }
    ensures spent { (result ≡ Status.Spent) ↔ (ran ≡ Err RanEnd.Spent) }
    ensures memory { (result ≡ Status.NoMemory) ↔ (ran ≡ Err RanEnd.NoMemory) }
    ensures not_trace { (told : FaultValue) → result ≢ Status.BadTrace told }
    ensures no_other { (result ≢ Status.BadWords) × (result ≢ Status.ReadFault) × (result ≢ Status.TooLong) }
    ensures no_audit { (result ≢ Status.Unsettled) × (result ≢ Status.Unlawful) × ((line : ℕ) → result ≢ Status.BadJournal line) }
{
    match ran {
        Ok(()) => Status::Good,
        Err(RanEnd::WriteFault) => Status::WriteFault,
        Err(RanEnd::DiskFault) => Status::DiskFault,
        Err(RanEnd::Spent) => Status::Spent,
        Err(RanEnd::NoMemory) => Status::NoMemory,
    }
}
