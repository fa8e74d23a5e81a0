//! One device's queue: its two calls, each with what it tells.

ghost use Rattle.std.specs.Prelude.{◌≡◌, ◌≤◌, false, IfOk, IfErr, IfSome, IfNone};
ghost use Rattle.crossbeam_queue.specs.Passes.{view, IsPassOf, IsSamePass, ruled_capacity};
ghost use Rattle.wbt_queue.specs.Known.{opening, newcomer, accompanied, knows_both};
ghost use Rattle.wbt_queue.specs.Order.{HasPut, HasTaken};
ghost use Rattle.wbt_queue.specs.Passes.{Held};

use crate::known::Known;
use crate::rule::{Fresh, InOrder, Putting, Taking, Together};
use crossbeam_queue::{Pass, RuledArrayQueue};
use std::alloc::{AllocError, Global};
use std::sync::Wait;

/// The device's queue holds as many numbers as it can.
#[derive(Clone, Copy, Debug, PartialEq, Eq)]
pub struct Full;

// A device's queue under the rule.
pub type Ring = RuledArrayQueue<u32, Known, InOrder>;

// What one thread knows of a device's queue.
pub type Place = Pass<u32, Known>;

// An empty queue with its first pass.
pub fn ring_of(alloc: Global, size: u32) -> Result<(Ring, Place), AllocError>
    requires { 1 ≤ size }
    ensures { IfOk result (λ made. (ruled_capacity made.0 ≡ size) × IsPassOf made.0 made.1 × (view made.1 ≡ opening)) }
{
    Ring::ruled(alloc, size as usize)
}

// Puts a number behind all that wait.
pub fn put_in<R: Wait>(rt: &R, ring: &Ring, place: &mut Place, inode: u32) -> Result<(), Full>
    requires queue { IsPassOf ring.now place.old }
    requires here { (view place.old).gone ≡ false }
    ensures same { IsSamePass place.old place.new }
    ensures put { IfOk result (λ _. HasPut (view place.old) inode (view place.new)) }
    ensures full { IfErr result (λ _. (view place.new ≡ view place.old) × Held (ruled_capacity ring.now) (view place.old)) }
{
    match ring.push_as::<Putting, R>(rt, place, inode) {
        Ok(()) => Ok(()),
        Err(_) => Err(Full),
    }
}

// Takes the number that waited longest.
pub fn take_of<R: Wait>(rt: &R, ring: &Ring, place: &mut Place) -> Option<u32>
    requires queue { IsPassOf ring.now place.old }
    requires here { (view place.old).gone ≡ false }
    ensures same { IsSamePass place.old place.new }
    ensures taken { IfSome result (λ inode. HasTaken (view place.old) inode (view place.new)) }
    ensures empty { IfNone result ((view place.new ≡ view place.old) × Held 0 (view place.old)) }
{
    ring.pop_as::<Taking, R>(rt, place)
}

// A pass for a further thread.
pub fn fork(ring: &Ring, place: &mut Place) -> Place
    requires { IsPassOf ring.now place.old }
    ensures same { IsSamePass place.old place.new × IsPassOf ring.now result }
    ensures told { (view place.new ≡ accompanied (view place.old)) × (view result ≡ newcomer (view place.old)) }
{
    ring.another::<Fresh>(place)
}

// One pass comes to know what another knew.
pub fn merge(ring: &Ring, place: &mut Place, other: Place)
    requires { IsPassOf ring.now place.old × IsPassOf ring.now other }
    ensures same { IsSamePass place.old place.new }
    ensures told { view place.new ≡ knows_both (view place.old) (view other) }
{
    ring.absorb::<Together>(place, other);
}
