//! Turns to take: whose, and after how many ticks.

/// Who takes a turn.
#[derive(Clone, Copy)]
pub enum By {
    Writers,
    Flusher,
    /// The flusher, in the drain.
    Drain,
}

/// A turn, after so many ticks.
#[derive(Clone, Copy)]
pub struct Move {
    pub rest: u64,
    pub by: By,
}

pub const WRITES: Move = Move {
    rest: 0,
    by: By::Writers,
};

pub const FLUSHES: Move = Move {
    rest: 0,
    by: By::Flusher,
};

/// The flusher, after as long as it rests.
pub const FLUSHES_AFTER_A_REST: Move = Move {
    rest: 100,
    by: By::Flusher,
};

pub const DRAINS: Move = Move {
    rest: 0,
    by: By::Drain,
};
