//! One context's cell, and the place of a pass at it.

ghost use Rattle.std.specs.Prelude.{◌≡◌, ◌≤◌, ◌↔◌, true, IfOk, IsTrue};
ghost use Rattle.wbt_estimate.specs.Estimate.{IsSound};
ghost use Rattle.wbt_published.specs.Known.{opening, next_version, after_publish, left_with, handed_on, knows_both};
ghost use Rattle.wbt_published.specs.Publishing.{HasRead, HasPublished, IsComplete};

use crate::known::Known;
use crate::rule::{
    Handing, Keeping, Learning, Publishing, Reading, Rising, Stored, Together, Whole,
};
use crossbeam_utils::atomic::seq_cell::{Pass, RuledSeqCell};
use std::alloc::{AllocError, Global};
use std::marker::Model;
use std::sync::Wait;
use wbt_estimate::{Estimate, first_estimate};

// A context's cell under the rule.
pub type Cell = RuledSeqCell<Stored, Known, Rising, 8>;

/// The place of a pass at one context's cell.
#[derive(Drop)]
pub struct Place {
    pass: Pass<Stored, Known>,
    publishes: bool,
}

impl Model for Place {
    ghost use Rattle.std.specs.Prelude.{◌≡◌, true};
    ghost use Rattle.crossbeam_utils.specs.Seq.{cell_view};
    ghost use Rattle.wbt_published.specs.Passes.{Seat};
    ghost use Rattle.wbt_published.specs.Publishing.{IsComplete};

    ghost Value = { Seat };

    ghost view = { λ place. record { name = place.pass.table_id; known = cell_view place.pass } };

    ghost invariant = { λ place. (place.publishes ≡ (cell_view place.pass).publishes) × ((cell_view place.pass).publishes ≡ true → IsComplete (cell_view place.pass)) };
}

impl Place {
    // A cell with the first estimate, and the place of its first pass.
    pub fn open(alloc: Global) -> Result<(Cell, Place), AllocError>
        ensures { IfOk result (λ made. (made.1.name ≡ made.0.table.shared.table_id) × (made.1.known ≡ opening)) }
    {
        let estimate = first_estimate(0);
        let (cell, pass) = Cell::ruled(alloc, Stored { estimate })?;
        Ok((
            cell,
            Place {
                pass,
                publishes: true,
            },
        ))
    }

    // Whether the pass publishes here. Then it knows all that was published.
    pub fn publishes(&self) -> bool
        ensures value { result ≡ self.now.known.publishes }
        ensures complete { IsTrue result → IsComplete self.now.known }
    {
        self.publishes
    }

    // Reads the newest estimate.
    pub fn read<R: Wait>(&mut self, rt: &R, cell: &Cell) -> Estimate
        requires { self.old.name ≡ cell.now.table.shared.table_id }
        ensures same { self.new.name ≡ self.old.name }
        ensures read { HasRead self.old.known (record { estimate = result }) (record { estimate = result }) self.new.known }
    {
        cell.load_as::<Reading, R>(rt, &mut self.pass).estimate
    }

    // Publishes the next estimate.
    pub fn publish<R: Wait>(&mut self, rt: &R, cell: &Cell, estimate: Estimate)
        requires cell { self.old.name ≡ cell.now.table.shared.table_id }
        requires right { self.old.known.publishes ≡ true }
        requires next { estimate.version ≡ next_version self.old.known }
        requires sound { IsSound estimate }
        ensures same { self.new.name ≡ self.old.name }
        ensures published { self.new.known ≡ after_publish estimate self.old.known }
    {
        cell.swap_as::<Publishing, R>(rt, &mut self.pass, Stored { estimate });
    }

    // A place for a further pass, which gets the right to publish where it goes to it.
    pub fn split(&mut self, cell: &Cell, goes: bool) -> Place
        requires { self.old.name ≡ cell.now.table.shared.table_id }
        ensures names { (self.new.name ≡ self.old.name) × (result.name ≡ self.old.name) }
        ensures old { self.new.known ≡ left_with goes self.old.known }
        ensures new { result.known ≡ handed_on goes self.old.known }
    {
        if goes {
            let publishes = self.publishes;
            self.publishes = false;
            Place {
                pass: cell.split_pass::<Handing>(&mut self.pass),
                publishes,
            }
        } else {
            Place {
                pass: cell.split_pass::<Keeping>(&mut self.pass),
                publishes: false,
            }
        }
    }

    // Takes in what another pass knows, with its right to publish.
    pub fn join<R: Wait>(&mut self, rt: &R, cell: &Cell, other: Place)
        requires { (self.old.name ≡ cell.now.table.shared.table_id) × (other.name ≡ cell.now.table.shared.table_id) }
        ensures name { self.new.name ≡ self.old.name }
        ensures known { self.new.known ≡ knows_both self.old.known other.known }
    {
        let Place {
            mut pass,
            publishes,
        } = other;
        let whole = cell.split_pass::<Whole>(&mut pass);
        cell.join_pass::<Together>(&mut self.pass, whole);
        cell.load_as::<Learning, R>(rt, &mut self.pass);
        self.publishes = self.publishes || publishes;
    }
}
