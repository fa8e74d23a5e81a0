//! One call on the queue of each device.

ghost use Rattle.std.specs.Prelude.{◌≡◌, ◌≤◌, [], All, map, length, IfOk};
ghost use Rattle.std.specs.Vec.{vec_capacity};
ghost use Rattle.wbt_queue.specs.Known.{opening, newcomer, accompanied};
ghost use Rattle.wbt_queue.specs.Passes.{ArePlacesOf, known_by, ring_sizes, all_joined};

use crate::ring::{Place, Ring, fork, merge, ring_of};
use std::alloc::{AllocError, Global};

// An empty queue of each size, and its first pass, put into the room that is there.
pub fn ring_each(
    alloc: Global,
    sizes: &[u32],
    mut rings: Vec<Ring>,
    mut places: Vec<Place>,
) -> Result<(Vec<Ring>, Vec<Place>), AllocError>
    requires sizes { All (λ size. 1 ≤ size) sizes.now }
    requires rings { (rings.items ≡ []) × (length sizes.now ≤ vec_capacity rings) }
    requires places { (places.items ≡ []) × (length sizes.now ≤ vec_capacity places) }
    ensures sizes { IfOk result (λ made. ring_sizes made.0.items ≡ sizes.now) }
    ensures places { IfOk result (λ made. ArePlacesOf made.0.items made.1.items) }
    ensures known { IfOk result (λ made. known_by made.1.items ≡ map (λ _. opening) sizes.now) }
{
    for size in sizes {
        let (ring, place) = ring_of(alloc, *size)?;
        rings.push_reserved(ring);
        places.push_reserved(place);
    }
    Ok((rings, places))
}

// A pass for a further thread to each queue, put into the room that is there.
pub fn fork_each(rings: &[Ring], places: &mut Vec<Place>, mut new: Vec<Place>) -> Vec<Place>
    requires places { ArePlacesOf rings.now places.old.items }
    requires new { (new.items ≡ []) × (length rings.now ≤ vec_capacity new) }
    ensures places { ArePlacesOf rings.now places.new.items × ArePlacesOf rings.now result.items }
    ensures known { known_by places.new.items ≡ map accompanied (known_by places.old.items) }
    ensures new { known_by result.items ≡ map newcomer (known_by places.old.items) }
{
    for device in 0..rings.len() {
        let place = fork(&rings[device], &mut places[device]);
        new.push_reserved(place);
    }
    new
}

// One pass comes to know what another knew of each queue.
pub fn merge_each(rings: &[Ring], places: &mut Vec<Place>, others: Vec<Place>)
    requires places { ArePlacesOf rings.now places.old.items × ArePlacesOf rings.now others.items }
    ensures places { ArePlacesOf rings.now places.new.items }
    ensures known { known_by places.new.items ≡ all_joined (known_by places.old.items) (known_by others.items) }
{
    let mut device = 0;
    for other in others {
        merge(&rings[device], &mut places[device], other);
        device += 1;
    }
}
