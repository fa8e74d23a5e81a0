//! What a voice knows of the signals, their rule, and what each kind of step tells.

use atomic_table::{Join, Play, Split, TableRule};
use std::collections::LinkedList;

/// An operation on the words, with its answer.
#[derive(Clone, Copy)]
pub enum Act {
    /// The bell was rung.
    Ring,
    /// The bell was looked at: whether it was rung.
    Listen(bool),
    /// It was said of one more worker that it writes no more.
    Stop,
    /// The count of those that write was looked at: whether nobody does.
    Count(bool),
    /// It was said of one more worker that it leaves.
    Leave,
    /// The count of those that are there was looked at: whether all have left.
    Look(bool),
}

/// An operation in the one history of all operations on the words.
#[derive(Clone, Copy)]
pub struct Note {
    /// How many came before it, of all voices.
    pub place: u64,
    pub act: Act,
}

/// What a voice knows. No value of it is made.
pub struct View {
    /// Its part of 2^32: who has them all has all rings.
    pub stakes: u64,
    /// Of how many workers the signals are.
    pub workers: u64,
    /// How often it rang the bell.
    pub rings: u64,
    /// Whether the bell was rung when it looked last.
    pub heard: bool,
    /// Of how many workers it may still say that they write no more.
    pub writes: u64,
    /// Whether nobody wrote any more when it looked last.
    pub quiet: bool,
    /// Of how many workers it may still say that they leave.
    pub there: u64,
    /// Whether all had left when it looked last.
    pub gone: bool,
    /// Its operations, the newest first.
    pub notes: LinkedList<Note>,
}

// The bell was rung exactly where a voice rang it, the counts are those of the workers of which nobody said that they write no more, or that
// they leave, and all operations stand in one history.
pub struct Law;

impl TableRule<(), View, u64> for Law {
    ghost use Rattle.wbt_signals.specs.Signals.{Kept, first_view};

    ghost holds = { Kept };

    ghost first = { first_view };
}

// The bell was rung.
pub struct Rings;

impl Play<(), View> for Rings {
    ghost use Rattle.wbt_signals.specs.Signals.{Rang};

    ghost then = { Rang };
}

// The bell was looked at.
pub struct Listens;

impl Play<(), View> for Listens {
    ghost use Rattle.wbt_signals.specs.Signals.{Listened};

    ghost then = { Listened };
}

// A worker writes no more.
pub struct Stops;

impl Play<(), View> for Stops {
    ghost use Rattle.wbt_signals.specs.Signals.{Stopped};

    ghost then = { Stopped };
}

// The count of those that write was looked at.
pub struct Counts;

impl Play<(), View> for Counts {
    ghost use Rattle.wbt_signals.specs.Signals.{Counted};

    ghost then = { Counted };
}

// A worker leaves.
pub struct Leaves;

impl Play<(), View> for Leaves {
    ghost use Rattle.wbt_signals.specs.Signals.{Left};

    ghost then = { Left };
}

// The count of those that are there was looked at.
pub struct Looks;

impl Play<(), View> for Looks {
    ghost use Rattle.wbt_signals.specs.Signals.{Looked};

    ghost then = { Looked };
}

// A voice with all stakes learns that it rang where it heard, and that its notes are all that was done.
pub struct Learns;

impl Play<(), View> for Learns {
    ghost use Rattle.wbt_signals.specs.Signals.{Learned};

    ghost then = { Learned };
}

// A new voice gets one stake, and speaks for one worker.
pub struct Parts;

impl Split<View> for Parts {
    ghost use Rattle.wbt_signals.specs.Signals.{left_view, right_view};

    ghost left = { left_view };

    ghost right = { right_view };
}

// One voice gets what another had.
pub struct Together;

impl Join<View> for Together {
    ghost use Rattle.wbt_signals.specs.Signals.{joined, spent};

    ghost both = { joined };

    ghost spent = { spent };
}
