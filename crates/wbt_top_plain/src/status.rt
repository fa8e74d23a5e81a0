//! How a call of the program ends.

ghost use Rattle.std.specs.Prelude.{Some};
ghost use Rattle.wbt_top_plain.specs.StatusText.{status_text};

use std::fmt;
use wbt_num::Items;
use wbt_trace_text::{Missing, TraceFault};

/// The words after the program's name.
#[derive(Drop)]
pub struct Words {
    /// The words, in order.
    pub list: Items<String>,
}

/// What the words ask for.
#[derive(Clone, Copy, Debug, PartialEq, Eq)]
pub enum Command {
    /// The journal of a trace's own order.
    Replay,
    /// A trace in its normal form.
    Check,
    /// The decision of a check on given numbers.
    Law,
    /// The journal of a trace's run over threads.
    Run,
    /// Whether a journal is lawful for a trace.
    Audit,
    /// The forecast of a trace's own order, by intervals of so many ticks.
    Forecast {
        /// The ticks of an interval.
        every: u64,
    },
    /// What became of the pages of a bulk run of so many.
    Bulk {
        /// The pages.
        n: u64,
    },
}

/// Which call serves the words.
#[derive(Clone, Copy, Debug, PartialEq, Eq)]
pub enum Route {
    /// `plain_top`.
    Plain,
    /// `run_top`.
    Threads,
    /// None: the words are no command.
    Bad,
}

/// How a call ended. The words are looked at first, then the input is read whole, then its text, and last the output is
/// written; a forecast is written while it is made. Want of memory may come at any point.
#[derive(Clone, Copy, Debug, PartialEq, Eq)]
pub enum Status {
    /// All was written.
    Good,
    /// The words are no command of the call. Nothing was written.
    BadWords,
    /// The text is no trace, or no law text; that of `audit` begins with none. Nothing was written.
    BadTrace(TraceFault),
    /// There is a trace, and no journal after it: this is the line at which there is none, counted from the one after the line `journal`; 0
    /// where that line isn't there. Nothing was written.
    BadJournal {
        /// The line.
        line: u64,
    },
    /// Whether the journal is lawful isn't settled, since its trace leaves open where a task ends. The verdict was written, or a part of it
    /// where the sink failed too.
    Unsettled,
    /// The journal isn't lawful for the trace. The verdict was written, or a part of it where the sink failed too.
    Unlawful,
    /// The source failed. Nothing was written.
    ReadFault,
    /// The sink failed. It holds a part of the text, from the first byte on.
    WriteFault,
    /// A disk failed eight writes of its flusher in a run over threads. The text was written, or a part of it where the sink failed too.
    DiskFault,
    /// There was no memory. Nothing was written, but by a forecast: what it had written before stays, which is a part of the text, from the
    /// first byte on.
    NoMemory,
    /// The replay has a further step to make after 2^22 steps; or a CPU of a run over threads made 2^33 page steps. The text was
    /// written, or a part of it where the sink failed too. Or the run of a forecast has a further step to make after all that it may make,
    /// and the text was written.
    Spent,
    /// The source gave more than 2^26 bytes. Nothing was written.
    TooLong,
}

impl fmt::Display for Status {
    ghost output = { λ status. Some (status_text status) };

    fn fmt<W: fmt::Write>(&self, f: &mut fmt::Formatter<W>) -> fmt::Result {
        match self {
            Status::Good => write!(f, "wbsim: ok"),
            Status::BadWords => write!(
                f,
                "wbsim: usage: wbsim replay, check, law, run, audit, bulk N or forecast EVERY"
            ),
            Status::BadTrace(TraceFault::BadLine { line }) => {
                write!(f, "wbsim: line {line}: bad line")
            }
            Status::BadTrace(TraceFault::UnknownName { line }) => {
                write!(f, "wbsim: line {line}: unknown name")
            }
            Status::BadTrace(TraceFault::Twice { line }) => {
                write!(f, "wbsim: line {line}: given twice")
            }
            Status::BadTrace(TraceFault::OutOfRange { line }) => {
                write!(f, "wbsim: line {line}: out of range")
            }
            Status::BadTrace(TraceFault::Limit { line }) => {
                write!(f, "wbsim: line {line}: too many")
            }
            Status::BadTrace(
                TraceFault::Missing {
                    what: Missing::Cpus,
                },
            ) => write!(f, "wbsim: missing cpus"),
            Status::BadTrace(
                TraceFault::Missing {
                    what: Missing::Avail,
                },
            ) => write!(f, "wbsim: missing avail"),
            Status::BadTrace(
                TraceFault::Missing {
                    what: Missing::Flusher,
                },
            ) => write!(f, "wbsim: missing flusher"),
            Status::BadTrace(TraceFault::NoMemory) => write!(f, "wbsim: no memory"),
            Status::BadJournal { line } => write!(f, "wbsim: journal line {line}: bad line"),
            Status::Unsettled => write!(f, "wbsim: unsettled"),
            Status::Unlawful => write!(f, "wbsim: unlawful"),
            Status::ReadFault => write!(f, "wbsim: read fault"),
            Status::WriteFault => write!(f, "wbsim: write fault"),
            Status::DiskFault => write!(f, "wbsim: disk fault"),
            Status::NoMemory => write!(f, "wbsim: no memory"),
            Status::Spent => write!(f, "wbsim: spent"),
            Status::TooLong => write!(f, "wbsim: input too long"),
        }
    }
}
