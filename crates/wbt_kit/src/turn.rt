//! What a turn of a thread's writers, of a flusher or of the timer answers.

/// What came of a turn.
#[derive(Clone, Copy, Debug, PartialEq, Eq)]
pub enum Turn {
    /// Something was done.
    Stepped,
    /// Nothing is to be done before the moment `until`; `now` is what the clock answered. Both are in ticks.
    Resting { now: u64, until: u64 },
    /// Nothing is to be done any more.
    Done,
    /// The gate answered false.
    Halted,
    /// The disk failed.
    Faulted,
    /// The CPU has made as many page steps as it may.
    Spent,
    /// Memory was refused.
    NoMemory,
}
