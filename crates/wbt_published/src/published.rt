//! The cells of all contexts, and the passes to them.

ghost use Rattle.std.specs.Prelude.{◌≡◌, ◌^◌, ◌<◌, ◌≤◌, true, All, set, length, replicate, IfOk, IfErr, IsTrue};
ghost use Rattle.wbt_estimate.specs.Estimate.{IsSound};
ghost use Rattle.wbt_published.specs.Known.{opening, first_in, first_one, IsFirst, next_version, note_of, after_read, after_publish};
ghost use Rattle.wbt_published.specs.Publishing.{IsComplete, IsNewest};
ghost use Rattle.wbt_published.specs.Passes.{IsPassOf, known_of, all_left, all_handed, all_joined};

use crate::each::{join_each, open_each, split_each};
use crate::place::{Cell, Place};
use std::alloc::Global;
use std::marker::Model;
use std::sync::Wait;
use wbt_estimate::Estimate;
use wbt_io::NoMemory;
use wbt_num::Items;

/// One cell a context with its newest estimate. Threads share it by reference.
#[derive(Drop)]
pub struct Published {
    cells: Vec<Cell>,
    /// By context: its first estimate.
    firsts: Items<Estimate>,
    /// The moment of each first estimate.
    moment: u64,
}

impl Model for Published {
    ghost use Rattle.std.specs.Prelude.{◌≡◌, ◌^◌, ◌<◌, All, length};
    ghost use Rattle.wbt_published.specs.Known.{IsFirst};
    ghost use Rattle.wbt_published.specs.Passes.{Cells, cell_names};

    ghost Value = { Cells };

    ghost view = { λ published. record { moment = published.moment; firsts = published.firsts; names = cell_names published.cells.items } };

    ghost invariant = { λ published. All IsFirst published.firsts × (length published.firsts ≡ length published.cells.items) };
}

/// What one thread knows of each context's estimates, and for which contexts it publishes.
#[derive(Drop)]
pub struct EstPass {
    places: Vec<Place>,
}

impl Model for EstPass {
    ghost use Rattle.wbt_published.specs.Passes.{Seats, names_of, known_by};

    ghost Value = { Seats };

    ghost view = { λ pass. record { names = names_of pass.places.items; known = known_by pass.places.items } };
}

impl Published {
    /// A cell a context with its first estimate, which is of this moment, and the one pass to them, which publishes for all.
    ///
    /// Requires: sound estimates of version 0.
    pub fn make(
        alloc: Global,
        firsts: Items<Estimate>,
        now: u64,
    ) -> Result<(Published, EstPass), NoMemory>
        requires firsts { All IsFirst firsts }
        requires few { length firsts < 2 ^ 32 }
        ensures cells { IfOk result (λ made. (made.0.moment ≡ now) × (made.0.firsts ≡ firsts) × (length made.0.names ≡ length firsts)) }
        ensures pass { IfOk result (λ made. made.1 ≡ record { names = made.0.names; known = replicate (length firsts) opening }) }
    {
        let contexts = firsts.as_slice().len() as u32;
        let cells = Vec::with_capacity(alloc, contexts as usize)?;
        let places = Vec::with_capacity(alloc, contexts as usize)?;
        let (cells, places) = open_each(alloc, contexts, cells, places)?;
        Ok((
            Published {
                cells,
                firsts,
                moment: now,
            },
            EstPass { places },
        ))
    }

    /// A pass for a further thread. The right to publish goes to it for each context that this CPU owns, where the old
    /// pass had it. Without memory the old pass is as it was.
    ///
    /// Requires: a pass to these estimates, and an owner for each context.
    pub fn split<R: Wait>(
        &self,
        _rt: &R,
        alloc: Global,
        pass: &mut EstPass,
        owners: &[u32],
        cpu: u32,
    ) -> Result<EstPass, NoMemory>
        requires pass { IsPassOf self.now pass.old }
        requires owners { length owners.now ≡ length self.now.names }
        ensures old { IfOk result (λ _. pass.new ≡ record pass.old { known = all_left owners.now cpu pass.old.known }) }
        ensures new { IfOk result (λ new. new ≡ record pass.old { known = all_handed owners.now cpu pass.old.known }) }
        ensures refused { IfErr result (λ _. pass.new ≡ pass.old) }
    {
        let room = Vec::with_capacity(alloc, self.cells.len())?;
        let places = split_each(self.cells.as_slice(), owners, cpu, &mut pass.places, room);
        Ok(EstPass { places })
    }

    /// Brings two passes together, with what both know and the rights of both. It may wait for a thread that is about to
    /// publish.
    ///
    /// Requires: two passes to these estimates.
    pub fn join<R: Wait>(&self, rt: &R, into: &mut EstPass, from: EstPass)
        requires { IsPassOf self.now into.old × IsPassOf self.now from }
        ensures { into.new ≡ record into.old { known = all_joined into.old.known from.known } }
    {
        let EstPass { places } = from;
        join_each(rt, self.cells.as_slice(), &mut into.places, places);
    }

    /// Publishes the context's next estimate. It may wait for a thread that is about to read.
    ///
    /// Requires: a pass to these estimates that has the right to publish the context's; a sound estimate, whose version follows the last
    /// one that the pass knows. The context exists.
    pub fn publish<R: Wait>(&self, rt: &R, pass: &mut EstPass, wb: u32, estimate: Estimate)
        requires pass { IsPassOf self.now pass.old }
        requires context { wb < length self.now.names }
        requires right { (known_of wb pass.old).publishes ≡ true }
        requires next { estimate.version ≡ next_version (known_of wb pass.old) }
        requires sound { IsSound estimate }
        ensures { pass.new ≡ record pass.old { known = set pass.old.known wb (after_publish estimate (known_of wb pass.old)) } }
    {
        let context = wb as usize;
        pass.places[context].publish(rt, &self.cells[context], estimate);
    }

    /// The context's newest estimate at a moment of the call, whole. Its version isn't below any that the pass saw. It may
    /// wait for a thread that is about to publish.
    ///
    /// Requires: a pass to these estimates. The context exists.
    pub fn read<R: Wait>(&self, rt: &R, pass: &mut EstPass, wb: u32) -> Estimate
        requires pass { IsPassOf self.now pass.old }
        requires context { wb < length self.now.names }
        ensures noted { pass.new ≡ record pass.old { known = set pass.old.known wb (after_read (note_of result) (known_of wb pass.old)) } }
        ensures first { result.version ≡ 0 → result ≡ first_in self.now.firsts wb }
        ensures sound { IsSound result }
        ensures fresh { ((known_of wb pass.old).seen ≤ result.version) × All (λ note. note.version ≤ result.version) (known_of wb pass.old).reads }
        ensures newest { (known_of wb pass.old).publishes ≡ true → IsNewest (known_of wb pass.old) (note_of result) }
    {
        let context = wb as usize;
        let found = pass.places[context].read(rt, &self.cells[context]);
        dated(found, self.firsts.as_slice()[context])
    }
}

// What a cell keeps, as it is read: the context's first estimate stands for the one that all cells begin with.
#[tactic(auto, using(crate::proofs::Places::note_first, crate::proofs::Places::note_other))]
fn dated(found: Estimate, first: Estimate) -> Estimate
    requires first { IsFirst first }
    requires known { found.version ≡ 0 → found ≡ first_one }
    requires sound { IsSound found }
    ensures note { note_of result ≡ found }
    ensures version { result.version ≡ found.version }
    ensures first { result.version ≡ 0 → result ≡ first }
    ensures sound { IsSound result }
{
    if found.version == 0 { first } else { found }
}

impl EstPass {
    /// Whether this pass publishes for the context. Then it knows all that was published for it, in order of version, and
    /// each estimate of the context in its notes is one of these.
    pub fn publishes(&self, wb: u32) -> bool
        requires { wb < length self.now.known }
        ensures value { result ≡ (known_of wb self.now).publishes }
        ensures complete { IsTrue result → IsComplete (known_of wb self.now) }
    {
        self.places[wb as usize].publishes()
    }
}
