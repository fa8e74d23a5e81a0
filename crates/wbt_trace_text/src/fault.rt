//! Why a text is no trace.

ghost use Rattle.std.specs.Prelude.{◌≡◌};

use std::alloc::AllocFailed;

/// What a trace must have and doesn't.
#[derive(Clone, Copy, Debug, PartialEq, Eq)]
pub enum Missing {
    /// The line `cpus`.
    Cpus,
    /// A line `avail`.
    Avail,
    /// A line `flusher` for some device.
    Flusher,
}

/// The first fault of a text, the lower ones first. Lines are numbered from 1.
#[derive(Clone, Copy, Debug, PartialEq, Eq)]
pub enum TraceFault {
    /// The line is none of a trace: another word, another number of fields, a number spelled otherwise, no line feed.
    BadLine { line: u64 },
    /// The line names a thing that no earlier line declares.
    UnknownName { line: u64 },
    /// The line says what an earlier line has said.
    Twice { line: u64 },
    /// A number of the line is out of its range.
    OutOfRange { line: u64 },
    /// The line makes more things than a trace may have.
    Limit { line: u64 },
    /// Each line is right, and something is missing.
    Missing { what: Missing },
    /// There was no memory for the trace.
    NoMemory,
}

/// Why a line is refused that is spelled right.
#[derive(Clone, Copy)]
pub enum Refusal {
    /// It names a thing that no earlier line declares.
    UnknownName,
    /// It says what an earlier line has said.
    Twice,
    /// A number is out of its range.
    OutOfRange,
    /// It makes more things than a trace may have.
    Limit,
}

/// Why a line is not taken.
#[derive(Clone, Copy)]
pub enum AcceptError {
    Refused(Refusal),
    NoMemory,
}

impl<T: Drop> From<AllocFailed<T>> for AcceptError {
    ghost use Rattle.wbt_trace_text.specs.declared.fault.AcceptError.TheVariants.{NoMemory};

    ghost from_gives = { λ _ error. error ≡ NoMemory };

    fn from(_error: AllocFailed<T>) -> AcceptError {
        AcceptError::NoMemory
    }
}
