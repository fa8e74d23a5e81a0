//! The steps on the totals, one function for each kind.

ghost use Rattle.std.specs.Prelude.{◌≡◌, ◌<◌, ◌≤◌, ◌^◌};
ghost use Rattle.wbt_fraction.specs.declared.total.note.TotalNote.TheVariants.{Saw, Wrote};
ghost use Rattle.wbt_fraction.specs.Sums.{total};
ghost use Rattle.wbt_fraction.specs.Totals.{room_of, lowered, NoneAbove, HasAllTallies, IsEachTally, MakesTally, total_notes, KnowsAll, wrote_at};

use crate::total::rule::{Contexts, Counts, Law, Loads, Tells, TotalView};
use atomic_table::{Seat, Table};
use std::alloc::Global;

// The words, and how many there are.
#[derive(Drop)]
pub(crate) struct Counters {
    pub(crate) table: Table<(), TotalView, Contexts, Law, Global>,
    pub(crate) contexts: u64,
    ghost key: { table.shared.key.contexts ≡ contexts },
    ghost wide: { table.shared.table_id.words ≡ contexts },
    ghost some: { 1 ≤ contexts },
}

// The place of a seat at them.
pub(crate) type Place = Seat<(), TotalView>;

impl Counters {
    // The total, and a note of it.
    pub(crate) fn load(&self, place: &mut Place, at: u64) -> u64
        requires seat { place.old.table_id ≡ self.now.table.shared.table_id }
        requires stake { 1 ≤ place.old.me.0.stakes }
        requires at { at < self.now.contexts }
        ensures seat { (place.new.table_id ≡ place.old.table_id) × (place.new.id ≡ place.old.id) }
        ensures made { MakesTally (Saw at result) place.old.me.0.trail place.new.me.0.trail }
        ensures same { place.new.me ≡ (record { trail = place.new.me.0.trail; stakes = place.old.me.0.stakes; rooms = place.old.me.0.rooms }, place.old.me.1) }
        ensures never_back { NoneAbove at result (total_notes place.old.me.0.trail.own) }
        ensures own { total (wrote_at at) (total_notes place.old.me.0.trail.own) ≤ result }
        ensures all { place.old.me.0.stakes ≡ 2 ^ 32 → result ≡ total (wrote_at at) (total_notes place.old.me.0.trail.own) }
        ensures bound { result ≤ 2 ^ 39 }
        ensures complete { KnowsAll place.new.me }
    {
        self.table.shared.load::<Loads>(place, at as usize)
    }

    // Notes nothing. A seat with all stakes learns that it has all notes, and that the total is their sum.
    pub(crate) fn tell(&self, place: &mut Place, at: u64) -> u64
        requires seat { place.old.table_id ≡ self.now.table.shared.table_id }
        requires at { at < self.now.contexts }
        ensures seat { (place.new.table_id ≡ place.old.table_id) × (place.new.id ≡ place.old.id) × (place.new.me ≡ place.old.me) }
        ensures complete { place.old.me.0.stakes ≡ 2 ^ 32 → HasAllTallies (total_notes place.old.me.0.trail.own) × IsEachTally place.old.me.0.trail × (result ≡ total (wrote_at at) (total_notes place.old.me.0.trail.own)) }
    {
        self.table.shared.load::<Tells>(place, at as usize)
    }

    // Counts pages in, and answers the total before.
    pub(crate) fn count(&self, place: &mut Place, at: u64, n: u64) -> u64
        requires seat { place.old.table_id ≡ self.now.table.shared.table_id }
        requires stake { 1 ≤ place.old.me.0.stakes }
        requires at { at < self.now.contexts }
        requires room { n ≤ room_of at place.old.me.0.rooms }
        ensures seat { (place.new.table_id ≡ place.old.table_id) × (place.new.id ≡ place.old.id) }
        ensures made { MakesTally (Wrote at result n) place.old.me.0.trail place.new.me.0.trail }
        ensures same { place.new.me ≡ (record { trail = place.new.me.0.trail; stakes = place.old.me.0.stakes; rooms = lowered at n place.old.me.0.rooms }, place.old.me.1) }
        ensures complete { KnowsAll place.new.me }
    {
        self.table.shared.fetch_add::<Counts>(place, at as usize, n)
    }
}
