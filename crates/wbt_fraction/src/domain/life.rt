//! How a domain begins, and how its seats are split and joined.

ghost use Rattle.std.specs.Prelude.{◌≡◌, ◌+◌, ◌-◌, ◌^◌, ◌++◌, ◌∷◌, ◌<◌, ◌≤◌, IfOk, [], replicate};
ghost use Rattle.wbt_fraction.specs.Notes.{IsComplete};
ghost use Rattle.wbt_fraction.specs.History.{no_trail, fresh_trail, joined_trail, IsWhole};

use crate::domain::rule::{Layout, Parts, Together};
use crate::domain::seat::{Domain, DomainSeat};
use crate::domain::words::Words;
use atomic_table::Table;
use std::alloc::{AllocError, Global};

impl Domain {
    // A domain of so many parts, and its first seat.
    pub fn make(alloc: Global, parts: u64) -> Result<(Domain, DomainSeat), AllocError>
        requires { parts ≤ 64 }
        ensures { IfOk result (λ t. (t.0.parts ≡ parts) × (t.1.table ≡ t.0.table) × (t.1.notes ≡ []) × (t.1.stakes ≡ 2 ^ 32) × (t.1.room ≡ 2 ^ 39) × (t.1.trail ≡ no_trail)) }
    {
        let words = first_words(alloc, parts as usize)?;
        let (table, place) = Table::of_words(alloc, words.as_slice(), &Layout { parts })?;
        Ok((
            Domain {
                words: Words { table, parts },
            },
            DomainSeat { place },
        ))
    }

    // Moves one stake and 2^33 of the room to a new seat.
    pub fn split(&self, seat: &mut DomainSeat) -> DomainSeat
        requires seat { seat.old.table ≡ self.now.table }
        requires stakes { 2 ≤ seat.old.stakes }
        requires room { 2 ^ 33 ≤ seat.old.room }
        ensures old { (seat.new.table ≡ seat.old.table) × (seat.new.notes ≡ seat.old.notes) × (seat.new.stakes ≡ seat.old.stakes - 1) × (seat.new.room ≡ seat.old.room - 2 ^ 33) × (seat.new.trail ≡ seat.old.trail) }
        ensures new { (result.table ≡ seat.old.table) × (result.notes ≡ []) × (result.stakes ≡ 1) × (result.room ≡ 2 ^ 33) × (result.trail ≡ fresh_trail seat.old.trail) }
    {
        DomainSeat {
            place: self.words.table.shared.split_seat::<Parts>(&mut seat.place),
        }
    }

    // Brings notes, stakes and room together. With all stakes the seat then has all notes, and all steps in their places.
    pub fn join(&self, into: &mut DomainSeat, from: DomainSeat)
        requires seats { (into.old.table ≡ self.now.table) × (from.table ≡ self.now.table) }
        ensures table { into.new.table ≡ into.old.table }
        ensures notes { into.new.notes ≡ from.notes ++ into.old.notes }
        ensures trail { into.new.trail ≡ joined_trail into.old.trail from.trail }
        ensures stakes { into.new.stakes ≡ into.old.stakes + from.stakes }
        ensures room { into.new.room ≡ into.old.room + from.room }
        ensures complete { into.new.stakes ≡ 2 ^ 32 → IsComplete into.new.notes }
        ensures whole { into.new.stakes ≡ 2 ^ 32 → IsWhole into.new.trail }
    {
        let DomainSeat { place } = from;
        self.words
            .table
            .shared
            .join_seat::<Together>(&mut into.place, place);
        self.words.tell(&mut into.place);
    }
}

// A domain begins with one event, each part with none.
fn first_words(alloc: Global, parts: usize) -> Result<Vec<u64>, AllocError>
    ensures { IfOk result (λ v. v.items ≡ 1 ∷ replicate parts 0) }
{
    let mut words = Vec::new(alloc);
    words.push(1)?;
    for _i in 0..parts {
        words.push(0)?;
    }
    Ok(words)
}
