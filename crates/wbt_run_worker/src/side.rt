//! A CPU's side of a run.

use wbt_flusher::Flusher;
use wbt_journal::CpuJournal;
use wbt_writer::WriterCpu;

/// Whether a flusher is turned in the drain.
#[derive(Clone, Copy, Debug, PartialEq, Eq)]
pub enum Stand {
    /// It is.
    Open,
    /// It found its queue empty.
    Done,
    /// It is turned no more, since it ended so.
    Out { end: End },
}

/// A flusher of a CPU.
pub struct Post<D> {
    /// Its number.
    pub number: u32,
    pub flusher: Flusher<D>,
    pub stand: Stand,
}

/// Who takes a turn of a CPU's side.
#[derive(Clone, Copy, Debug, PartialEq, Eq)]
pub enum Job {
    Writers,
    /// The flusher of the post of this place.
    Flusher(usize),
}

/// How a CPU's side ended.
#[derive(Clone, Copy, Debug, PartialEq, Eq)]
pub enum End {
    /// All tasks of all CPUs have ended.
    Ended,
    /// The gate answered false.
    Halted,
    /// A disk failed for the eighth time.
    Faulted,
    /// The CPU has made as many page steps as it may.
    Spent,
    /// Memory was refused.
    Refused,
    /// It was told to stop.
    Stopped,
}

/// A CPU's writers and flushers, and what they told.
pub struct CpuSide<'t, D> {
    pub writers: WriterCpu<'t>,
    /// By number.
    pub posts: Vec<Post<D>>,
    /// Whose turn is next.
    pub next: Job,
    pub log: CpuJournal,
    pub end: End,
}
