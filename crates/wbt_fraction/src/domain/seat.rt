//! A domain, and a seat at it, as contracts see them.

use crate::domain::words::{Place, Words};
use std::marker::Model;

/// One domain and its parts. Threads share it by reference.
#[derive(Drop)]
pub struct Domain {
    pub(crate) words: Words,
}

impl Model for Domain {
    ghost use Rattle.wbt_fraction.specs.Seat.{Shape};

    ghost Value = { Shape };

    ghost view = { λ t. record { table = t.words.table.shared.table_id; parts = t.words.parts } };
}

/// What one thread noted of a domain, and how much it may still add.
#[derive(Drop)]
pub struct DomainSeat {
    pub(crate) place: Place,
}

impl Model for DomainSeat {
    ghost use Rattle.std.specs.Prelude.{◌≡◌, ◌≤◌, []};
    ghost use Rattle.wbt_fraction.specs.History.{notes_of};
    ghost use Rattle.wbt_fraction.specs.Seat.{Seated};

    ghost Value = { Seated };

    ghost view = { λ s. record { table = s.place.table_id; notes = notes_of s.place.me.0.trail.own; trail = s.place.me.0.trail; stakes = s.place.me.0.stakes; room = s.place.me.0.domain_room } };

    ghost invariant = { λ s. (s.place.me.1 ≡ []) × (1 ≤ s.place.me.0.stakes) × (s.place.me.0.part_room ≡ s.place.me.0.domain_room) };
}
