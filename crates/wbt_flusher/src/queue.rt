//! What a flusher puts into its device's queue.

ghost use Rattle.std.specs.Prelude.{◌≡◌, ◌≢◌, ◌<◌, length, IsFalse, get_or, false};
ghost use Rattle.wbt_run_steps.specs.Inodes.{OnlyQueue};
ghost use Rattle.wbt_run_steps.specs.Queues.{OnlyDevice};
ghost use Rattle.wbt_flusher.specs.Answers.{GoesKept};
ghost use Rattle.wbt_flusher.specs.Did.{Fits};
ghost use Rattle.wbt_flusher.specs.Plans.{Suits};
ghost use Rattle.wbt_flusher.specs.Turns.{HasLists, OnlyWaiting, PutsBefore, PutsInode, PutsNext};

use crate::plan::FlusherPlan;
use crate::work::FlusherWork;
use std::sync::Wait;
use wbt_kit::{Hands, Seats};
use wbt_run_steps::put_or_wait;

impl FlusherPlan {
    /// Puts an inode into its device's queue. Where that is full the inode waits for the next turn.
    pub fn put<R: Wait, C, G>(
        &self,
        work: &mut FlusherWork,
        hands: &Hands<R, C, G>,
        seats: &mut Seats,
        inode: u32,
    )
        requires suits { Suits self.now hands.now.kit.now }
        requires fits { Fits self.now hands.now.kit.now seats.old }
        requires lists { HasLists self.now work.old }
        requires inode { inode < length self.now.inodes }
        ensures fits { Fits self.now hands.now.kit.now seats.new }
        ensures lists { HasLists self.now work.new }
        ensures goes { GoesKept self.now hands.now.kit.now seats.old seats.new work.old work.new }
        ensures only_queue { OnlyQueue seats.old seats.new }
        ensures device { OnlyDevice self.now.device seats.old.queue seats.new.queue }
        ensures only_waiting { OnlyWaiting self.now work.old work.new }
        ensures put { PutsInode self.now hands.now.kit.now inode seats.old.queue seats.new.queue work.old work.new }
    {
        if put_or_wait(
            hands.rt,
            self.device,
            inode,
            &mut work.waiting,
            hands.kit,
            seats,
        ) {
            work.some_wait = true;
        }
    }

    /// Puts the inodes that wait into the device's queue, in order.
    pub fn put_waiting<R: Wait, C, G>(
        &self,
        work: &mut FlusherWork,
        hands: &Hands<R, C, G>,
        seats: &mut Seats,
    )
        requires suits { Suits self.now hands.now.kit.now }
        requires fits { Fits self.now hands.now.kit.now seats.old }
        requires lists { HasLists self.now work.old }
        ensures fits { Fits self.now hands.now.kit.now seats.new }
        ensures lists { HasLists self.now work.new }
        ensures goes { GoesKept self.now hands.now.kit.now seats.old seats.new work.old work.new }
        ensures only_queue { OnlyQueue seats.old seats.new }
        ensures device { OnlyDevice self.now.device seats.old.queue seats.new.queue }
        ensures only_waiting { OnlyWaiting self.now work.old work.new }
        ensures puts { PutsBefore self.now hands.now.kit.now (length self.now.inodes) seats.old.queue seats.new.queue work.old.waiting.items work.new.waiting.items work.new.some_wait }
    {
        if !work.some_wait {
            return;
        }
        let some = self.put_each(work, hands, seats);
        work.some_wait = some;
    }

    // Whether one still waits.
    fn put_each<R: Wait, C, G>(
        &self,
        work: &mut FlusherWork,
        hands: &Hands<R, C, G>,
        seats: &mut Seats,
    ) -> bool
        requires suits { Suits self.now hands.now.kit.now }
        requires fits { Fits self.now hands.now.kit.now seats.old }
        requires long { length work.old.waiting.items ≡ length self.now.inodes }
        ensures fits { Fits self.now hands.now.kit.now seats.new }
        ensures only_queue { OnlyQueue seats.old seats.new }
        ensures device { OnlyDevice self.now.device seats.old.queue seats.new.queue }
        ensures only_waiting { OnlyWaiting self.now work.old work.new }
        ensures none { IsFalse result → (inode : _) → get_or work.new.waiting.items inode false ≡ false }
        ensures puts { PutsBefore self.now hands.now.kit.now (length self.now.inodes) seats.old.queue seats.new.queue work.old.waiting.items work.new.waiting.items result }
    {
        let mut some = false;
        for inode in 0..self.inodes.as_slice().len() as u32 {
            some = self.put_next(work, hands, seats, inode, some);
        }
        some
    }

    // Puts an inode where it waits. Whether it waits on, or one before it.
    fn put_next<R: Wait, C, G>(
        &self,
        work: &mut FlusherWork,
        hands: &Hands<R, C, G>,
        seats: &mut Seats,
        inode: u32,
        some_before: bool,
    ) -> bool
        requires suits { Suits self.now hands.now.kit.now }
        requires fits { Fits self.now hands.now.kit.now seats.old }
        requires long { length work.old.waiting.items ≡ length self.now.inodes }
        requires inode { inode < length self.now.inodes }
        ensures fits { Fits self.now hands.now.kit.now seats.new }
        ensures only_queue { OnlyQueue seats.old seats.new }
        ensures device { OnlyDevice self.now.device seats.old.queue seats.new.queue }
        ensures only_waiting { OnlyWaiting self.now work.old work.new }
        ensures before { IsFalse result → some_before ≡ false }
        ensures none { IsFalse result → get_or work.new.waiting.items inode false ≡ false }
        ensures others { (k : _) → k ≢ inode → get_or work.new.waiting.items k false ≡ get_or work.old.waiting.items k false }
        ensures next { PutsNext self.now hands.now.kit.now inode seats.old.queue seats.new.queue work.old.waiting.items work.new.waiting.items some_before result }
    {
        if !work.waiting[inode as usize] {
            return some_before;
        }
        if put_or_wait(
            hands.rt,
            self.device,
            inode,
            &mut work.waiting,
            hands.kit,
            seats,
        ) {
            return true;
        }
        some_before
    }
}
