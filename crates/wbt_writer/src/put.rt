//! Inodes go into their devices' queues.

ghost use Rattle.std.specs.Prelude.{◌≡◌, ◌<◌, length};
ghost use Rattle.wbt_writer.specs.Desk.{AreAt};
ghost use Rattle.wbt_writer.specs.Did.{OnlyPuts};
ghost use Rattle.wbt_writer.specs.Exact.{PutsBefore, PutsInode, PutsNext};
ghost use Rattle.wbt_writer.specs.Took.{IsPut};

use crate::work::{WriterPlace, WriterWork};
use std::sync::Wait;
use wbt_kit::{Hands, Seats};
use wbt_rules::device_of;
use wbt_run_steps::put_or_wait;

impl WriterWork {
    /// Puts an inode into its device's queue. Where that is full the inode waits for the next turn.
    pub fn put<R: Wait, C, G>(
        &mut self,
        hands: &Hands<R, C, G>,
        place: &WriterPlace,
        inode: u32,
        seats: &mut Seats,
    )
        requires at_kit { AreAt place.now.trace.now place.now.cpu hands.now.kit.now self.old seats.old }
        requires inode { inode < length place.now.trace.now.inodes }
        ensures at_kit { AreAt place.now.trace.now place.now.cpu hands.now.kit.now self.new seats.new }
        ensures only { OnlyPuts self.old self.new seats.old seats.new }
        ensures put { IsPut place.now.trace.now inode seats.old seats.new self.new }
        ensures puts { PutsInode place.now.trace.now hands.now.kit.now inode seats.old.queue seats.new.queue self.old.waiting.items self.new.waiting.items }
    {
        let device = device_of(place.trace, inode);
        put_or_wait(hands.rt, device, inode, &mut self.waiting, hands.kit, seats);
    }

    /// Puts the inodes that wait.
    pub fn put_waiting<R: Wait, C, G>(
        &mut self,
        hands: &Hands<R, C, G>,
        place: &WriterPlace,
        seats: &mut Seats,
    )
        requires at_kit { AreAt place.now.trace.now place.now.cpu hands.now.kit.now self.old seats.old }
        ensures at_kit { AreAt place.now.trace.now place.now.cpu hands.now.kit.now self.new seats.new }
        ensures only { OnlyPuts self.old self.new seats.old seats.new }
        ensures puts { PutsBefore place.now.trace.now hands.now.kit.now (length place.now.trace.now.inodes) seats.old.queue seats.new.queue self.old.waiting.items self.new.waiting.items }
    {
        for inode in 0..self.waiting.len() as u32 {
            self.put_next(hands, place, inode, seats);
        }
    }

    // Puts an inode where it waits.
    fn put_next<R: Wait, C, G>(
        &mut self,
        hands: &Hands<R, C, G>,
        place: &WriterPlace,
        inode: u32,
        seats: &mut Seats,
    )
        requires at_kit { AreAt place.now.trace.now place.now.cpu hands.now.kit.now self.old seats.old }
        requires inode { inode < length place.now.trace.now.inodes }
        ensures at_kit { AreAt place.now.trace.now place.now.cpu hands.now.kit.now self.new seats.new }
        ensures only { OnlyPuts self.old self.new seats.old seats.new }
        ensures next { PutsNext place.now.trace.now hands.now.kit.now inode seats.old.queue seats.new.queue self.old.waiting.items self.new.waiting.items }
    {
        if !self.waiting[inode as usize] {
            return;
        }
        self.put(hands, place, inode, seats);
    }
}
