//! The steps on a domain's words, one function for each kind.

ghost use Rattle.std.specs.Prelude.{◌≡◌, ◌≢◌, ◌+◌, ◌-◌, ◌<◌, ◌≤◌, ◌^◌, ◌==◌, suc, cond};
ghost use Rattle.wbt_flex.specs.Eager.{halved};
ghost use Rattle.wbt_fraction.specs.declared.domain.note.Note.TheVariants.{Found, Added, Period};
ghost use Rattle.wbt_fraction.specs.Words.{period_of, events_of, word_of};
ghost use Rattle.wbt_fraction.specs.Notes.{NoneAfter, IsReached};
ghost use Rattle.wbt_fraction.specs.History.{Makes, notes_of};
ghost use Rattle.wbt_fraction.specs.Steps.{with_trail, KnowsAll};

use crate::domain::rule::{AddsDomain, AddsPart, Ages, Begins, Law, Layout, Loads, Tells, View};
use atomic_table::{Seat, Table};
use std::alloc::Global;

/// Another thread came between: two words that a call found, which differ.
#[derive(Clone, Copy, Debug, PartialEq, Eq)]
pub struct Again {
    /// The word that was found first.
    pub first: u64,
    /// The word that was found later.
    pub second: u64,
}

// The words, and how many parts have one.
#[derive(Drop)]
pub(crate) struct Words {
    pub(crate) table: Table<(), View, Layout, Law, Global>,
    pub(crate) parts: u64,
    ghost key: { table.shared.key.parts ≡ parts },
    ghost wide: { table.shared.table_id.words ≡ parts + 1 },
    ghost few: { parts ≤ 64 },
}

// The place of a seat at them.
pub(crate) type Place = Seat<(), View>;

impl Words {
    pub(crate) fn load_domain(&self, place: &mut Place) -> u64
        requires seat { place.old.table_id ≡ self.now.table.shared.table_id }
        requires stake { 1 ≤ place.old.me.0.stakes }
        ensures seat { (place.new.table_id ≡ place.old.table_id) × (place.new.id ≡ place.old.id) }
        ensures made { Makes (Found 0 result) result place.old.me.0.trail place.new.me.0.trail }
        ensures same { place.new.me ≡ with_trail place.new.me.0.trail place.old.me }
        ensures newest { NoneAfter (period_of result) (notes_of place.old.me.0.trail.own) }
        ensures complete { KnowsAll place.new.me }
    {
        self.table.shared.load::<Loads>(place, 0)
    }

    pub(crate) fn load_part(&self, place: &mut Place, part: u64) -> u64
        requires seat { place.old.table_id ≡ self.now.table.shared.table_id }
        requires stake { 1 ≤ place.old.me.0.stakes }
        requires part { part < self.now.parts }
        ensures seat { (place.new.table_id ≡ place.old.table_id) × (place.new.id ≡ place.old.id) }
        ensures made { Makes (Found (suc part) result) result place.old.me.0.trail place.new.me.0.trail }
        ensures same { place.new.me ≡ with_trail place.new.me.0.trail place.old.me }
        ensures complete { KnowsAll place.new.me }
    {
        self.table.shared.load::<Loads>(place, (part + 1) as usize)
    }

    // Where the part's word is still `old`, it becomes `new`, the same number at a later period. The answer is the word found.
    pub(crate) fn age(&self, place: &mut Place, part: u64, old: u64, new: u64, period: u64) -> u64
        requires seat { place.old.table_id ≡ self.now.table.shared.table_id }
        requires stake { 1 ≤ place.old.me.0.stakes }
        requires part { part < self.now.parts }
        requires later { period_of old ≤ period }
        requires reached { IsReached period (notes_of place.old.me.0.trail.own) }
        requires new { new ≡ word_of period (halved (period - period_of old) (events_of old)) }
        ensures seat { (place.new.table_id ≡ place.old.table_id) × (place.new.id ≡ place.old.id) }
        ensures made { Makes (Found (suc part) result) (cond (result == old) new result) place.old.me.0.trail place.new.me.0.trail }
        ensures same { place.new.me ≡ with_trail place.new.me.0.trail place.old.me }
        ensures complete { KnowsAll place.new.me }
    {
        self.table
            .shared
            .compare_exchange::<Ages>(place, (part + 1) as usize, old, new)
    }

    pub(crate) fn add_part(&self, place: &mut Place, part: u64, n: u64) -> u64
        requires seat { place.old.table_id ≡ self.now.table.shared.table_id }
        requires stake { 1 ≤ place.old.me.0.stakes }
        requires part { part < self.now.parts }
        requires room { n ≤ place.old.me.0.part_room }
        ensures seat { (place.new.table_id ≡ place.old.table_id) × (place.new.id ≡ place.old.id) }
        ensures made { Makes (Added (suc part) result n) (result + n) place.old.me.0.trail place.new.me.0.trail }
        ensures same { place.new.me ≡ (record { trail = place.new.me.0.trail; stakes = place.old.me.0.stakes; domain_room = place.old.me.0.domain_room; part_room = place.old.me.0.part_room - n }, place.old.me.1) }
        ensures complete { KnowsAll place.new.me }
    {
        self.table
            .shared
            .fetch_add::<AddsPart>(place, (part + 1) as usize, n)
    }

    pub(crate) fn add_domain(&self, place: &mut Place, n: u64) -> u64
        requires seat { place.old.table_id ≡ self.now.table.shared.table_id }
        requires stake { 1 ≤ place.old.me.0.stakes }
        requires room { n ≤ place.old.me.0.domain_room }
        ensures seat { (place.new.table_id ≡ place.old.table_id) × (place.new.id ≡ place.old.id) }
        ensures made { Makes (Added 0 result n) (result + n) place.old.me.0.trail place.new.me.0.trail }
        ensures same { place.new.me ≡ (record { trail = place.new.me.0.trail; stakes = place.old.me.0.stakes; domain_room = place.old.me.0.domain_room - n; part_room = place.old.me.0.part_room }, place.old.me.1) }
        ensures complete { KnowsAll place.new.me }
    {
        self.table.shared.fetch_add::<AddsDomain>(place, 0, n)
    }

    // Where the domain's word is still `old`, it becomes `new`, that of `k` periods later. The answer is the word found.
    pub(crate) fn begin(&self, place: &mut Place, old: u64, new: u64, k: u64) -> u64
        requires seat { place.old.table_id ≡ self.now.table.shared.table_id }
        requires stake { 1 ≤ place.old.me.0.stakes }
        requires may { (1 ≤ k) × (1 < events_of old) × (period_of old + k < 2 ^ 24) }
        requires new { new ≡ word_of (period_of old + k) (halved k (events_of old)) }
        ensures seat { (place.new.table_id ≡ place.old.table_id) × (place.new.id ≡ place.old.id) }
        ensures made { Makes (cond (result == old) (Period result k) (Found 0 result)) (cond (result == old) new result) place.old.me.0.trail place.new.me.0.trail }
        ensures same { place.new.me ≡ with_trail place.new.me.0.trail place.old.me }
        ensures complete { KnowsAll place.new.me }
    {
        self.table
            .shared
            .compare_exchange::<Begins>(place, 0, old, new)
    }

    // Notes nothing. A seat with all stakes learns that it has all notes.
    pub(crate) fn tell(&self, place: &mut Place)
        requires seat { place.old.table_id ≡ self.now.table.shared.table_id }
        ensures seat { (place.new.table_id ≡ place.old.table_id) × (place.new.id ≡ place.old.id) × (place.new.me ≡ place.old.me) }
        ensures complete { KnowsAll place.old.me }
    {
        self.table.shared.load::<Tells>(place, 0);
    }
}
