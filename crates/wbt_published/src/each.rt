//! One call on the cell of each context.

ghost use Rattle.std.specs.Prelude.{◌≡◌, ◌≤◌, [], length, replicate, IfOk};
ghost use Rattle.std.specs.Vec.{vec_capacity};
ghost use Rattle.wbt_published.specs.Known.{opening};
ghost use Rattle.wbt_published.specs.Passes.{cell_names, names_of, known_by, all_left, all_handed, all_joined};

use crate::place::{Cell, Place};
use std::alloc::{AllocError, Global};
use std::sync::Wait;

// So many cells, and the places of their first pass, put into the room that is there.
pub fn open_each(
    alloc: Global,
    contexts: u32,
    mut cells: Vec<Cell>,
    mut places: Vec<Place>,
) -> Result<(Vec<Cell>, Vec<Place>), AllocError>
    requires cells { (cells.items ≡ []) × (contexts ≤ vec_capacity cells) }
    requires places { (places.items ≡ []) × (contexts ≤ vec_capacity places) }
    ensures cells { IfOk result (λ made. length made.0.items ≡ contexts) }
    ensures names { IfOk result (λ made. names_of made.1.items ≡ cell_names made.0.items) }
    ensures known { IfOk result (λ made. known_by made.1.items ≡ replicate contexts opening) }
{
    for _context in 0..contexts {
        let (cell, place) = Place::open(alloc)?;
        cells.push_reserved(cell);
        places.push_reserved(place);
    }
    Ok((cells, places))
}

// The places of a further pass, put into the room that is there. It gets the right to publish for what this CPU owns.
pub fn split_each(
    cells: &[Cell],
    owners: &[u32],
    cpu: u32,
    places: &mut Vec<Place>,
    mut new: Vec<Place>,
) -> Vec<Place>
    requires names { names_of places.old.items ≡ cell_names cells.now }
    requires owners { length owners.now ≡ length cells.now }
    requires new { (new.items ≡ []) × (length cells.now ≤ vec_capacity new) }
    ensures names { (names_of places.new.items ≡ cell_names cells.now) × (names_of result.items ≡ cell_names cells.now) }
    ensures old { known_by places.new.items ≡ all_left owners.now cpu (known_by places.old.items) }
    ensures new { known_by result.items ≡ all_handed owners.now cpu (known_by places.old.items) }
{
    for context in 0..cells.len() {
        let goes = owners[context] == cpu;
        let place = places[context].split(&cells[context], goes);
        new.push_reserved(place);
    }
    new
}

// One pass comes to know what another knew of each cell, and gets its rights.
pub fn join_each<R: Wait>(rt: &R, cells: &[Cell], places: &mut Vec<Place>, others: Vec<Place>)
    requires names { (names_of places.old.items ≡ cell_names cells.now) × (names_of others.items ≡ cell_names cells.now) }
    ensures names { names_of places.new.items ≡ cell_names cells.now }
    ensures known { known_by places.new.items ≡ all_joined (known_by places.old.items) (known_by others.items) }
{
    let mut context = 0;
    for other in others {
        places[context].join(rt, &cells[context], other);
        context += 1;
    }
}
