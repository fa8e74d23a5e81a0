//! What a seat knows of the totals, their rule, and what each kind of step tells.

use crate::total::note::TotalTrail;
use atomic_table::{Join, Play, Split, TableRule};
use std::collections::LinkedList;

/// What a seat knows. No value of it is made.
pub struct TotalView {
    /// What it made, and what it knows of all that was made.
    pub trail: TotalTrail,
    /// Its part of 2^32: who has them all has all notes.
    pub stakes: u64,
    /// What it may still count into each total.
    pub rooms: LinkedList<u64>,
}

/// How many totals there are.
#[derive(Clone, Copy)]
pub struct Contexts {
    /// Their number.
    pub contexts: u64,
}

// One history of all steps made the totals.
pub struct Law;

impl TableRule<(), TotalView, Contexts> for Law {
    ghost use Rattle.wbt_fraction.specs.Totals.{Kept, first_view};

    ghost holds = { Kept };

    ghost first = { first_view };
}

// A total was loaded.
pub struct Loads;

impl Play<(), TotalView> for Loads {
    ghost use Rattle.wbt_fraction.specs.Totals.{Loaded};

    ghost then = { Loaded };
}

// Pages were counted in.
pub struct Counts;

impl Play<(), TotalView> for Counts {
    ghost use Rattle.wbt_fraction.specs.Totals.{Counted};

    ghost then = { Counted };
}

// Nothing is noted; a seat with all stakes learns that it has all notes.
pub struct Tells;

impl Play<(), TotalView> for Tells {
    ghost use Rattle.wbt_fraction.specs.Totals.{Told};

    ghost then = { Told };
}

// A new seat gets one stake and some of each room.
pub struct Parts;

impl Split<TotalView> for Parts {
    ghost use Rattle.wbt_fraction.specs.Totals.{left_view, right_view};

    ghost left = { left_view };

    ghost right = { right_view };
}

// One seat gets what another had.
pub struct Together;

impl Join<TotalView> for Together {
    ghost use Rattle.wbt_fraction.specs.Totals.{joined, spent};

    ghost both = { joined };

    ghost spent = { spent };
}
