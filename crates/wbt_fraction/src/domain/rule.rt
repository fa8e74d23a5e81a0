//! What a seat knows, the rule of a domain's words, and what each kind of step tells.

use crate::domain::note::Trail;
use atomic_table::{Join, Play, Split, TableRule};

/// What a seat knows. No value of it is made.
pub struct View {
    /// What it made, and what it knows of all that was made.
    pub trail: Trail,
    /// Its part of 2^32: who has them all has all notes.
    pub stakes: u64,
    /// Events that it may still add to the domain's word.
    pub domain_room: u64,
    /// Events that it may still add to the words of parts.
    pub part_room: u64,
}

/// How many parts the domain has.
#[derive(Clone, Copy)]
pub struct Layout {
    /// Their number.
    pub parts: u64,
}

// One history of all steps made the words.
pub struct Law;

impl TableRule<(), View, Layout> for Law {
    ghost use Rattle.wbt_fraction.specs.Rule.{Kept, first_view};

    ghost holds = { Kept };

    ghost first = { λ key. first_view };
}

// A word was loaded.
pub struct Loads;

impl Play<(), View> for Loads {
    ghost use Rattle.wbt_fraction.specs.Steps.{Loaded};

    ghost then = { Loaded };
}

// A part's word was brought to a later period, or another was found.
pub struct Ages;

impl Play<(), View> for Ages {
    ghost use Rattle.wbt_fraction.specs.Steps.{Aged};

    ghost then = { Aged };
}

// Events were added to a part.
pub struct AddsPart;

impl Play<(), View> for AddsPart {
    ghost use Rattle.wbt_fraction.specs.Steps.{PartAdded};

    ghost then = { PartAdded };
}

// Events were added to the domain.
pub struct AddsDomain;

impl Play<(), View> for AddsDomain {
    ghost use Rattle.wbt_fraction.specs.Steps.{DomainAdded};

    ghost then = { DomainAdded };
}

// Periods began, or another word was found.
pub struct Begins;

impl Play<(), View> for Begins {
    ghost use Rattle.wbt_fraction.specs.Steps.{Begun};

    ghost then = { Begun };
}

// Nothing is noted; a seat with all stakes learns that it has all notes.
pub struct Tells;

impl Play<(), View> for Tells {
    ghost use Rattle.wbt_fraction.specs.Steps.{Told};

    ghost then = { Told };
}

// A new seat gets one stake and some room.
pub struct Parts;

impl Split<View> for Parts {
    ghost use Rattle.wbt_fraction.specs.Rule.{left_view, right_view};

    ghost left = { left_view };

    ghost right = { right_view };
}

// One seat gets what another had.
pub struct Together;

impl Join<View> for Together {
    ghost use Rattle.wbt_fraction.specs.Rule.{joined, spent};

    ghost both = { joined };

    ghost spent = { spent };
}
