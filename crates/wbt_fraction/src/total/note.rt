//! What a seat notes of each step on the totals, and the step's place among all steps.

use std::collections::LinkedList;

/// One step on a context's total, with the number that it found.
#[derive(Clone, Copy)]
pub enum TotalNote {
    /// A load.
    Saw {
        /// The context.
        at: u64,
        /// The total that was found.
        word: u64,
    },
    /// `n` pages were counted in.
    Wrote {
        /// The context.
        at: u64,
        /// The total that the addition found.
        word: u64,
        /// The pages that were counted.
        n: u64,
    },
}

/// One step in its place in the history of all steps on the totals. No value of it is made.
pub struct Tally {
    /// As many steps were made before it, by anyone.
    pub place: u64,
    /// What it noted.
    pub note: TotalNote,
}

/// The steps of a seat at the totals. No value of it is made.
pub struct TotalTrail {
    /// Its own steps, the newest first.
    pub own: LinkedList<Tally>,
    /// All that anyone had made when the seat last made a step, the newest first.
    pub known: LinkedList<Tally>,
}
