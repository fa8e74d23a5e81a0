//! Where a flusher stands, and what it keeps.

use crate::tally::Tallies;
use wbt_expiry::Wheel;
use wbt_rules::Scan;

/// How far a flight has come.
#[derive(Clone, Copy)]
pub struct Flight {
    /// The moment, in ticks, at which the disk has written the batch.
    pub until: u64,
    /// The inode of the batch.
    pub inode: u32,
    /// How many of its pages are completed.
    pub landed: usize,
}

/// How far a batch that the disk failed to write has been given back.
#[derive(Clone, Copy)]
pub struct Return {
    /// The inode of the batch.
    pub inode: u32,
    /// How many of its pages are given back.
    pub returned: usize,
}

/// Where a flusher stands between two turns.
#[derive(Clone, Copy)]
pub enum Phase {
    /// It rests until a moment, in ticks; a rest that is kept isn't dropped in the drain.
    Idle { until: u64, kept: bool },
    /// It claims pages of an inode.
    Scanning { scan: Scan },
    /// The disk has its batch.
    Flying { flight: Flight },
    /// Its disk failed to write its batch, which it gives back.
    Returning { giving: Return },
    /// Its disk failed for the last time.
    Failed,
}

/// What a flusher keeps from turn to turn.
#[derive(Drop)]
pub struct FlusherWork {
    pub phase: Phase,
    /// The pages claimed, in order, from the scan to the end of the flight, or of the return.
    pub batch: Vec<u32>,
    /// How many batches its disk failed to write since the flusher was made.
    pub faults: u32,
    /// The hard limit of the global domain that was loaded last, in pages.
    pub hard: u64,
    /// By inode: whether it waits, as its queue was full.
    pub waiting: Vec<bool>,
    /// Whether one waits. Where none does it is false.
    pub some_wait: bool,
    /// By context.
    pub tallies: Vec<Tallies>,
    /// The inodes that it noticed and that wait to be written, by the moment at which each is due. None where its device's inodes
    /// aren't written for their age.
    pub wheel: Option<Wheel>,
    /// By inode: the place at which its next scan begins, where the device is cyclic.
    pub places: Vec<u32>,
}
