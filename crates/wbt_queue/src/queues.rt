//! The queues of all devices, and the passes to them.

ghost use Rattle.std.specs.Prelude.{◌≡◌, ◌<◌, ◌≤◌, ◌^◌, All, map, set, length, IfOk, IfErr, IfSome, IfNone};
ghost use Rattle.wbt_queue.specs.Known.{opening, newcomer, accompanied, after_put, after_take};
ghost use Rattle.wbt_queue.specs.Order.{HasPut, HasTaken};
ghost use Rattle.wbt_queue.specs.Passes.{IsPassOf, size_of, known_of, all_joined, Held, LeavesJust, AreAllTaken};

use crate::each::{fork_each, merge_each, ring_each};
use crate::ring::{Full, Place, Ring, put_in, take_of};
use std::alloc::Global;
use std::marker::Model;
use std::sync::Wait;
use wbt_io::NoMemory;

/// One queue of inode numbers a device. Threads share it by reference.
#[derive(Drop)]
pub struct Queues {
    rings: Vec<Ring>,
}

impl Model for Queues {
    ghost use Rattle.wbt_queue.specs.Passes.{Rings, ring_names, ring_sizes};

    ghost Value = { Rings };

    ghost view = { λ queues. record { names = ring_names queues.rings.items; sizes = ring_sizes queues.rings.items } };
}

/// What one thread knows of each device's queue. It has no content when the program runs.
#[derive(Drop)]
pub struct QueuePass {
    places: Vec<Place>,
}

impl Model for QueuePass {
    ghost use Rattle.wbt_queue.specs.Passes.{Seats, place_names, known_by, AreAtRest, AreHere};

    ghost Value = { Seats };

    ghost view = { λ pass. record { names = place_names pass.places.items; known = known_by pass.places.items } };

    ghost invariant = { λ pass. AreAtRest pass.places.items × AreHere (known_by pass.places.items) };
}

impl Queues {
    /// An empty queue for each size, and the one pass to them.
    ///
    /// Requires: sizes of at least 1.
    pub fn make(alloc: Global, sizes: &[u32]) -> Result<(Queues, QueuePass), NoMemory>
        requires { All (λ size. 1 ≤ size) sizes.now }
        ensures sizes { IfOk result (λ made. made.0.sizes ≡ sizes.now) }
        ensures pass { IfOk result (λ made. made.1 ≡ record { names = made.0.names; known = map (λ _. opening) sizes.now }) }
    {
        let rings = Vec::with_capacity(alloc, sizes.len())?;
        let places = Vec::with_capacity(alloc, sizes.len())?;
        let (rings, places) = ring_each(alloc, sizes, rings, places)?;
        Ok((Queues { rings }, QueuePass { places }))
    }

    /// A pass for a further thread. It knows nothing yet, and gets a stake of each queue; the old one knows what it knew, and
    /// keeps the other stakes. One that has a single stake loses it, and then nobody has all again. Without memory the old pass
    /// is as it was.
    ///
    /// Requires: a pass to these queues.
    pub fn split<R: Wait>(
        &self,
        _rt: &R,
        alloc: Global,
        pass: &mut QueuePass,
    ) -> Result<QueuePass, NoMemory>
        requires { IsPassOf self.now pass.old }
        ensures old { IfOk result (λ _. pass.new ≡ record pass.old { known = map accompanied pass.old.known }) }
        ensures new { IfOk result (λ new. new ≡ record pass.old { known = map newcomer pass.old.known }) }
        ensures refused { IfErr result (λ _. pass.new ≡ pass.old) }
    {
        let room = Vec::with_capacity(alloc, self.rings.len())?;
        let places = fork_each(self.rings.as_slice(), &mut pass.places, room);
        Ok(QueuePass { places })
    }

    /// Brings two passes together: the one knows then what both knew, each part apart, and has the stakes of both.
    ///
    /// Requires: two passes to these queues.
    pub fn join<R: Wait>(&self, _rt: &R, into: &mut QueuePass, from: QueuePass)
        requires { IsPassOf self.now into.old × IsPassOf self.now from }
        ensures { into.new ≡ record into.old { known = all_joined into.old.known from.known } }
    {
        let QueuePass { places } = from;
        merge_each(self.rings.as_slice(), &mut into.places, places);
    }

    /// Puts an inode number behind all that wait for the device's flushers. Full says to a pass with all stakes that the queue
    /// holds its size, and to any other that its own puts and takes agree with that. It may wait for a thread that is stopped in the
    /// middle of its own put or take.
    ///
    /// Requires: a pass to these queues. The device exists.
    pub fn put<R: Wait>(
        &self,
        rt: &R,
        pass: &mut QueuePass,
        device: u32,
        inode: u32,
    ) -> Result<(), Full>
        requires pass { IsPassOf self.now pass.old }
        requires device { device < length self.now.sizes }
        ensures put { IfOk result (λ _. HasPut (known_of device pass.old) inode (known_of device pass.new)) }
        ensures others { IfOk result (λ _. pass.new ≡ record pass.old { known = set pass.old.known device (after_put inode (known_of device pass.old)) }) }
        ensures full { IfErr result (λ _. (pass.new ≡ pass.old) × Held (size_of device self.now) (known_of device pass.old)) }
        ensures whole { IfErr result (λ _. (known_of device pass.old).stakes ≡ 2 ^ 32 → LeavesJust (size_of device self.now) (known_of device pass.old)) }
    {
        let at = device as usize;
        put_in(rt, &self.rings[at], &mut pass.places[at], inode)
    }

    /// Takes the inode number that waited longest for the device's flushers. None says to a pass with all stakes that each number
    /// that was put was taken, and to any other that its own puts and takes agree with an empty queue. It may wait for a thread that
    /// is stopped in the middle of its own put or take.
    ///
    /// Requires: a pass to these queues. The device exists.
    pub fn take<R: Wait>(&self, rt: &R, pass: &mut QueuePass, device: u32) -> Option<u32>
        requires pass { IsPassOf self.now pass.old }
        requires device { device < length self.now.sizes }
        ensures taken { IfSome result (λ inode. HasTaken (known_of device pass.old) inode (known_of device pass.new)) }
        ensures others { IfSome result (λ inode. pass.new ≡ record pass.old { known = set pass.old.known device (after_take inode (known_of device pass.old)) }) }
        ensures empty { IfNone result ((pass.new ≡ pass.old) × Held 0 (known_of device pass.old)) }
        ensures whole { IfNone result ((known_of device pass.old).stakes ≡ 2 ^ 32 → AreAllTaken (known_of device pass.old)) }
    {
        let at = device as usize;
        take_of(rt, &self.rings[at], &mut pass.places[at])
    }
}
