//! What a seat notes of each step, and the step's place among all steps.

use std::collections::LinkedList;

/// One step on a domain's words, with the word that it found. Place 0 is the domain's word, place `1 + i` that of part `i`.
#[derive(Clone, Copy)]
pub enum Note {
    /// A load, or an exchange that left the number what it was.
    Found {
        /// The place of the word.
        at: u64,
        /// The word that was found.
        word: u64,
    },
    /// `n` events were added.
    Added {
        /// The place of the word.
        at: u64,
        /// The word that the addition found.
        word: u64,
        /// The events that were added.
        n: u64,
    },
    /// `k` periods of the domain began.
    Period {
        /// The domain's word that the exchange found.
        word: u64,
        /// How many periods began at once.
        k: u64,
    },
}

/// One step in its place in the history of all steps on a domain's words. No value of it is made.
pub struct Made {
    /// As many steps were made before it, by anyone.
    pub place: u64,
    /// What it noted.
    pub note: Note,
    /// The word that it left.
    pub left: u64,
}

/// The steps of a seat. No value of it is made.
pub struct Trail {
    /// Its own steps, the newest first.
    pub own: LinkedList<Made>,
    /// All that anyone had made when the seat last made a step, the newest first.
    pub known: LinkedList<Made>,
}
