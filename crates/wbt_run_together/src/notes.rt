//! The timer's notes take in those of the CPUs.

ghost use Rattle.std.specs.Prelude.{◌≡◌, ℕ, ◌<◌, true};
ghost use Rattle.wbt_run_seats.specs.Apart.{IsApart};
ghost use Rattle.wbt_run_seats.specs.Gathered.{AreGathered, no_notes};
ghost use Rattle.wbt_run_seats.specs.Parts.{noted, owner_of};
ghost use Rattle.wbt_fraction.specs.Several.{AllJoined};
ghost use Rattle.wbt_journal.specs.Machine.{contexts};
ghost use Rattle.wbt_kit.specs.Kit.{AreSeatsOf, IsKitOf};
ghost use Rattle.wbt_published.specs.Passes.{known_of};
ghost use Rattle.wbt_published.specs.Publishing.{IsComplete};
ghost use Rattle.wbt_trace.specs.Lawful.{IsLawful};
ghost use Rattle.wbt_run_laws.specs.Notes.{Notes};
ghost use Rattle.wbt_run_first.specs.Seated.{PublishesNone};

use std::sync::Wait;
use wbt_kit::{Kit, Seats};
use wbt_run_seats::laws::gathered::notes_are_gathered;
use wbt_run_seats::{Apart, publishes_all, take_notes};
use wbt_trace::Trace;

/// Takes the notes of the seats into the timer's, which stood apart: the seats have then what all noted, and of each context for
/// which they publish they know all estimates.
///
/// Requires: a lawful trace with its kit; seats at the kit, and notes that stand apart at it without a right to publish.
pub fn gather_notes<R: Wait>(rt: &R, trace: &Trace, kit: &Kit, seats: &mut Seats, apart: Apart)
    requires lawful { IsLawful trace.now }
    requires kit { IsKitOf trace.now kit.now.published.moment kit.now }
    requires seats { AreSeatsOf kit.now seats.old }
    requires apart { IsApart kit.now apart }
    requires rights { PublishesNone trace.now apart.est }

    // They stay seats at the kit, with the records and the queues that they had.
    ensures seats { AreSeatsOf kit.now seats.new }
    ensures records { seats.new.cpu ≡ seats.old.cpu }
    ensures queue { seats.new.queue ≡ seats.old.queue }

    // They have their own notes with those that stood apart, and know all estimates for which they publish.
    ensures joined { AllJoined apart.share.domains seats.old.share.domains seats.new.share.domains }
    ensures gathered { (notes : ℕ → Notes) → AreGathered trace.now trace.now.cpus (owner_of kit.now) notes no_notes seats.old → AreGathered trace.now trace.now.cpus (owner_of kit.now) notes (λ domain. noted apart.share domain) seats.new }
    ensures known { (context : ℕ) → context < contexts trace.now → (known_of context seats.new.est).publishes ≡ true → IsComplete (known_of context seats.new.est) }
{
    notes_are_gathered();
    take_notes(rt, kit, seats, apart);
    let _all = publishes_all(&seats.est, trace.contexts.as_slice().len() as u32);
}
