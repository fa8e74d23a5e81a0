//! An inode is marked, and put into its device's queue.

ghost use Rattle.std.specs.Prelude.{◌≡◌, ◌<◌, length, set};
ghost use Rattle.wbt_kit.specs.Kit.{AreSeatsOf};
ghost use Rattle.wbt_table.specs.Rule.{Has};
ghost use Rattle.wbt_run_steps.specs.Inodes.{MarksInode, OnlyQueue, PutsWhere};
ghost use Rattle.wbt_run_steps.specs.Queues.{OnlyDevice};

use std::sync::Wait;
use wbt_kit::{Kit, Seats};

/// The step `mark`. Whether the inode had no mark.
pub fn mark(cpu: u32, inode: u32, kit: &Kit, seats: &mut Seats) -> bool
    requires seats { AreSeatsOf kit.now seats.old }
    requires held { (r : _) × Has seats.old.cpu.cpus cpu r }
    requires inode { inode < length kit.now.throttle.layout.inodes }
    ensures seats { AreSeatsOf kit.now seats.new }
    ensures marks { MarksInode kit.now cpu inode result seats.old seats.new }
{
    kit.throttle.mark_inode(&mut seats.cpu, cpu, inode)
}

/// Puts an inode into its device's queue. Where that is full the inode waits. Whether it waits.
pub fn put_or_wait<R: Wait>(
    rt: &R,
    device: u32,
    inode: u32,
    waiting: &mut Vec<bool>,
    kit: &Kit,
    seats: &mut Seats,
) -> bool
    requires seats { AreSeatsOf kit.now seats.old }
    requires device { device < length kit.now.queues.sizes }
    requires inode { inode < length waiting.old.items }
    ensures seats { AreSeatsOf kit.now seats.new }
    ensures only { OnlyQueue seats.old seats.new }
    ensures puts { PutsWhere kit.now device inode result seats.old.queue seats.new.queue }
    ensures device { OnlyDevice device seats.old.queue seats.new.queue }
    ensures waiting { waiting.new.items ≡ set waiting.old.items inode result }
{
    let full = kit.queues.put(rt, &mut seats.queue, device, inode).is_err();
    waiting[inode as usize] = full;
    full
}
