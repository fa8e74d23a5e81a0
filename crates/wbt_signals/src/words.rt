//! The steps on the words of signals, one function for each kind.

ghost use Rattle.std.specs.Prelude.{◌≡◌, ◌+◌, ◌-◌, ◌^◌, ◌≤◌, true};
ghost use Rattle.wbt_signals.specs.History.{IsHistory, IsNoted};
ghost use Rattle.wbt_signals.specs.declared.rule.Act.TheVariants.{Ring, Listen, Stop, Count, Leave, Look};

use crate::rule::{Counts, Law, Learns, Leaves, Listens, Looks, Rings, Stops, View};
use atomic_table::{Seat, Table};
use std::alloc::Global;

// The bell's word, which is 0 until it is rung.
const BELL: usize = 0;

// The count of the workers that still write.
const WRITERS: usize = 1;

// The count of those that are still there.
const THERE: usize = 2;

// Three words.
#[derive(Drop)]
pub(crate) struct Words {
    pub(crate) table: Table<(), View, u64, Law, Global>,
    ghost three: { table.shared.table_id.words ≡ 3 },
}

// The place of a voice at them.
pub(crate) type Place = Seat<(), View>;

impl Words {
    pub(crate) fn ring(&self, place: &mut Place)
        requires seat { place.old.table_id ≡ self.now.table.shared.table_id }
        requires stake { 1 ≤ place.old.me.0.stakes }
        ensures seat { (place.new.table_id ≡ place.old.table_id) × (place.new.id ≡ place.old.id) }
        ensures rang { place.new.me ≡ (record place.old.me.0 { rings = place.old.me.0.rings + 1; notes = place.new.me.0.notes }, place.old.me.1) }
        ensures noted { IsNoted place.old.me.0.workers Ring place.old.me.0.notes place.new.me.0.notes }
    {
        self.table.shared.store::<Rings>(place, BELL, 1)
    }

    // Whether the bell was rung.
    pub(crate) fn listen(&self, place: &mut Place) -> bool
        requires seat { place.old.table_id ≡ self.now.table.shared.table_id }
        requires stake { 1 ≤ place.old.me.0.stakes }
        ensures seat { (place.new.table_id ≡ place.old.table_id) × (place.new.id ≡ place.old.id) }
        ensures listened { place.new.me ≡ (record place.old.me.0 { heard = result; notes = place.new.me.0.notes }, place.old.me.1) }
        ensures noted { IsNoted place.old.me.0.workers (Listen result) place.old.me.0.notes place.new.me.0.notes }
        ensures still { place.old.me.0.heard ≡ true → result ≡ true }
        ensures rang { 1 ≤ place.old.me.0.rings → result ≡ true }
        ensures cause { result ≡ true → place.old.me.0.stakes ≡ 2 ^ 32 → 1 ≤ place.old.me.0.rings }
    {
        self.table.shared.load::<Listens>(place, BELL) != 0
    }

    // A worker writes no more.
    pub(crate) fn stop(&self, place: &mut Place)
        requires seat { place.old.table_id ≡ self.now.table.shared.table_id }
        requires stake { 1 ≤ place.old.me.0.stakes }
        requires writes { 1 ≤ place.old.me.0.writes }
        ensures seat { (place.new.table_id ≡ place.old.table_id) × (place.new.id ≡ place.old.id) }
        ensures stopped { place.new.me ≡ (record place.old.me.0 { writes = place.old.me.0.writes - 1; notes = place.new.me.0.notes }, place.old.me.1) }
        ensures noted { IsNoted place.old.me.0.workers Stop place.old.me.0.notes place.new.me.0.notes }
    {
        self.table.shared.fetch_sub::<Stops>(place, WRITERS, 1);
    }

    // Whether nobody writes any more.
    pub(crate) fn count(&self, place: &mut Place) -> bool
        requires seat { place.old.table_id ≡ self.now.table.shared.table_id }
        requires stake { 1 ≤ place.old.me.0.stakes }
        ensures seat { (place.new.table_id ≡ place.old.table_id) × (place.new.id ≡ place.old.id) }
        ensures counted { place.new.me ≡ (record place.old.me.0 { quiet = result; notes = place.new.me.0.notes }, place.old.me.1) }
        ensures noted { IsNoted place.old.me.0.workers (Count result) place.old.me.0.notes place.new.me.0.notes }
        ensures still { place.old.me.0.quiet ≡ true → result ≡ true }
        ensures none { result ≡ true → place.old.me.0.writes ≡ 0 }
        ensures all { place.old.me.0.stakes ≡ 2 ^ 32 → place.old.me.0.writes ≡ 0 → result ≡ true }
    {
        self.table.shared.load::<Counts>(place, WRITERS) == 0
    }

    // A worker leaves.
    pub(crate) fn leave(&self, place: &mut Place)
        requires seat { place.old.table_id ≡ self.now.table.shared.table_id }
        requires stake { 1 ≤ place.old.me.0.stakes }
        requires there { 1 ≤ place.old.me.0.there }
        ensures seat { (place.new.table_id ≡ place.old.table_id) × (place.new.id ≡ place.old.id) }
        ensures left { place.new.me ≡ (record place.old.me.0 { there = place.old.me.0.there - 1; notes = place.new.me.0.notes }, place.old.me.1) }
        ensures noted { IsNoted place.old.me.0.workers Leave place.old.me.0.notes place.new.me.0.notes }
    {
        self.table.shared.fetch_sub::<Leaves>(place, THERE, 1);
    }

    // Whether all have left.
    pub(crate) fn look(&self, place: &mut Place) -> bool
        requires seat { place.old.table_id ≡ self.now.table.shared.table_id }
        requires stake { 1 ≤ place.old.me.0.stakes }
        ensures seat { (place.new.table_id ≡ place.old.table_id) × (place.new.id ≡ place.old.id) }
        ensures looked { place.new.me ≡ (record place.old.me.0 { gone = result; notes = place.new.me.0.notes }, place.old.me.1) }
        ensures noted { IsNoted place.old.me.0.workers (Look result) place.old.me.0.notes place.new.me.0.notes }
        ensures still { place.old.me.0.gone ≡ true → result ≡ true }
        ensures none { result ≡ true → place.old.me.0.there ≡ 0 }
        ensures all { place.old.me.0.stakes ≡ 2 ^ 32 → place.old.me.0.there ≡ 0 → result ≡ true }
    {
        self.table.shared.load::<Looks>(place, THERE) == 0
    }

    // Notes nothing. With all stakes it learns that it rang where it heard, and that its notes are all that was done.
    pub(crate) fn learn(&self, place: &mut Place)
        requires seat { place.old.table_id ≡ self.now.table.shared.table_id }
        requires stake { 1 ≤ place.old.me.0.stakes }
        ensures seat { (place.new.table_id ≡ place.old.table_id) × (place.new.id ≡ place.old.id) × (place.new.me ≡ place.old.me) }
        ensures cause { place.old.me.0.heard ≡ true → place.old.me.0.stakes ≡ 2 ^ 32 → 1 ≤ place.old.me.0.rings }
        ensures none { place.old.me.0.quiet ≡ true → place.old.me.0.writes ≡ 0 }
        ensures left { place.old.me.0.gone ≡ true → place.old.me.0.there ≡ 0 }
        ensures history { place.old.me.0.stakes ≡ 2 ^ 32 → IsHistory place.old.me.0.workers place.old.me.0.notes }
    {
        self.table.shared.load::<Learns>(place, BELL);
    }
}
