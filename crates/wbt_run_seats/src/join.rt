//! Parts that are brought together.

ghost use Rattle.std.specs.Prelude.{ℕ, ◌<◌, length, get_or};
ghost use Rattle.wbt_kit.specs.Kit.{AreSeatsOf};
ghost use Rattle.wbt_kit.specs.declared.kit.Seats.{Seats as Parts};
ghost use Rattle.wbt_run_seats.specs.Together.{AreTogether};

use std::sync::Wait;
use wbt_kit::{Kit, Seats};

/// Takes the parts in, one after another: the seats have then what all had. It may wait for a thread that is about to publish.
pub fn join_each<R: Wait>(rt: &R, kit: &Kit, seats: &mut Seats, parts: Vec<Seats>)
    requires seats { AreSeatsOf kit.now seats.old }
    requires parts { (k : ℕ) (other : Parts) → k < length parts.items → AreSeatsOf kit.now (get_or parts.items k other) }
    ensures together { AreTogether kit.now seats.old parts.items seats.new }
{
    for part in parts {
        kit.join(rt, seats, part);
    }
}
