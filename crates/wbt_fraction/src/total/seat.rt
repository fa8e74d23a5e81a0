//! The totals and their seats: how they begin, are split and joined, and the two calls.

ghost use Rattle.std.specs.Prelude.{◌≡◌, ◌+◌, ◌-◌, ◌<◌, ◌≤◌, ◌^◌, ◌∷◌, ◌++◌, [], length, map, IfOk, replicate};
ghost use Rattle.wbt_fraction.specs.declared.total.note.TotalNote.TheVariants.{Saw, Wrote};
ghost use Rattle.wbt_fraction.specs.Sums.{total};
ghost use Rattle.wbt_fraction.specs.Totals.{room_of, lowered, NoneAbove, HasEachTally, HasEachStep, NotesTallies, MakesTally, no_tallies, total_fresh, total_joined, sums, wrote_at};

use crate::total::rule::{Contexts, Parts, Together};
use crate::total::words::{Counters, Place};
use atomic_table::Table;
use std::alloc::{AllocError, Global};
use std::marker::Model;

/// The totals. Threads share them by reference.
#[derive(Drop)]
pub struct Totals {
    pub(crate) words: Counters,
}

impl Model for Totals {
    ghost use Rattle.wbt_fraction.specs.Totals.{TotalShape};

    ghost Value = { TotalShape };

    ghost view = { λ t. record { table = t.words.table.shared.table_id; contexts = t.words.contexts } };
}

/// What one thread noted of the totals, and how much it may still count.
#[derive(Drop)]
pub struct TotalSeat {
    pub(crate) place: Place,
}

impl Model for TotalSeat {
    ghost use Rattle.std.specs.Prelude.{◌≡◌, ◌≤◌, []};
    ghost use Rattle.wbt_fraction.specs.Totals.{TotalSeated, total_notes};

    ghost Value = { TotalSeated };

    ghost view = { λ s. record { table = s.place.table_id; notes = total_notes s.place.me.0.trail.own; trail = s.place.me.0.trail; stakes = s.place.me.0.stakes; rooms = s.place.me.0.rooms } };

    ghost invariant = { λ s. (s.place.me.1 ≡ []) × (1 ≤ s.place.me.0.stakes) };
}

impl Totals {
    // So many totals of 0, and their first seat.
    pub fn make(alloc: Global, contexts: u64) -> Result<(Totals, TotalSeat), AllocError>
        requires { (1 ≤ contexts) × (contexts ≤ 64) }
        ensures { IfOk result (λ t. (t.0.contexts ≡ contexts) × (t.1.table ≡ t.0.table) × (t.1.notes ≡ []) × (t.1.stakes ≡ 2 ^ 32) × (t.1.rooms ≡ replicate contexts (2 ^ 39)) × (t.1.trail ≡ no_tallies)) }
    {
        let words = vec![in alloc; 0u64; contexts as usize]?;
        let (table, place) = Table::of_words(alloc, words.as_slice(), &Contexts { contexts })?;
        Ok((
            Totals {
                words: Counters { table, contexts },
            },
            TotalSeat { place },
        ))
    }

    // Moves one stake and 2^33 of each room to a new seat.
    pub fn split(&self, seat: &mut TotalSeat) -> TotalSeat
        requires seat { seat.old.table ≡ self.now.table }
        requires stakes { 2 ≤ seat.old.stakes }
        requires room { (i : _) → i < self.now.contexts → 2 ^ 33 ≤ room_of i seat.old.rooms }
        ensures old { (seat.new.table ≡ seat.old.table) × (seat.new.notes ≡ seat.old.notes) × (seat.new.stakes ≡ seat.old.stakes - 1) × (seat.new.rooms ≡ map (λ r. r - 2 ^ 33) seat.old.rooms) × (seat.new.trail ≡ seat.old.trail) }
        ensures new { (result.table ≡ seat.old.table) × (result.notes ≡ []) × (result.stakes ≡ 1) × (result.rooms ≡ map (λ r. 2 ^ 33) seat.old.rooms) × (result.trail ≡ total_fresh seat.old.trail) }
    {
        TotalSeat {
            place: self.words.table.shared.split_seat::<Parts>(&mut seat.place),
        }
    }

    // Brings notes, stakes and rooms together. With all stakes the seat then has all notes, and all steps in their places.
    pub fn join(&self, into: &mut TotalSeat, from: TotalSeat)
        requires seats { (into.old.table ≡ self.now.table) × (from.table ≡ self.now.table) }
        ensures table { into.new.table ≡ into.old.table }
        ensures notes { into.new.notes ≡ from.notes ++ into.old.notes }
        ensures stakes { into.new.stakes ≡ into.old.stakes + from.stakes }
        ensures rooms { into.new.rooms ≡ sums into.old.rooms from.rooms }
        ensures trail { into.new.trail ≡ total_joined into.old.trail from.trail }
        ensures complete { HasEachTally into.new }
        ensures whole { HasEachStep into.new }
    {
        let TotalSeat { place } = from;
        self.words
            .table
            .shared
            .join_seat::<Together>(&mut into.place, place);
        self.words.tell(&mut into.place, 0);
    }

    // Counts `n` pages into the context's total.
    pub fn wrote(&self, seat: &mut TotalSeat, context: u64, n: u64)
        requires seat { seat.old.table ≡ self.now.table }
        requires context { context < self.now.contexts }
        requires room { n ≤ room_of context seat.old.rooms }
        ensures same { (seat.new.table ≡ seat.old.table) × (seat.new.stakes ≡ seat.old.stakes) }
        ensures room { seat.new.rooms ≡ lowered context n seat.old.rooms }
        ensures noted { (word : _) × (seat.new.notes ≡ Wrote context word n ∷ seat.old.notes) }
        ensures made { (word : _) × MakesTally (Wrote context word n) seat.old.trail seat.new.trail }
        ensures notes { NotesTallies seat.new }
        ensures complete { HasEachTally seat.new }
        ensures whole { HasEachStep seat.new }
    {
        self.words.count(&mut seat.place, context, n);
    }

    // The context's total, which never goes back for a seat.
    pub fn written(&self, seat: &mut TotalSeat, context: u64) -> u64
        requires seat { seat.old.table ≡ self.now.table }
        requires context { context < self.now.contexts }
        ensures same { (seat.new.table ≡ seat.old.table) × (seat.new.stakes ≡ seat.old.stakes) × (seat.new.rooms ≡ seat.old.rooms) }
        ensures noted { seat.new.notes ≡ Saw context result ∷ seat.old.notes }
        ensures made { MakesTally (Saw context result) seat.old.trail seat.new.trail }
        ensures notes { NotesTallies seat.new }
        ensures never_back { NoneAbove context result seat.old.notes }
        ensures own { total (wrote_at context) seat.old.notes ≤ result }
        ensures all { seat.old.stakes ≡ 2 ^ 32 → result ≡ total (wrote_at context) seat.old.notes }
        ensures bound { result ≤ 2 ^ 39 }
        ensures complete { HasEachTally seat.new }
        ensures whole { HasEachStep seat.new }
    {
        self.words.load(&mut seat.place, context)
    }
}
