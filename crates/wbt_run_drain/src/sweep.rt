//! The sweep: after the drain each inode is looked at, and one that is still marked is cleaned.

ghost use Rattle.wbt_kit.specs.Kit.{AreSeatsOf, IsKitOf};
ghost use Rattle.wbt_run_steps.specs.Inodes.{OnlyQueue};
ghost use Rattle.wbt_run_steps.specs.Queues.{OnlyDevice};
ghost use Rattle.wbt_table.specs.Calls.{HasNoDirtyPage, HoldsAll, OwesInodeNothing};
ghost use Rattle.wbt_table.specs.Layout.{setting};
ghost use Rattle.wbt_trace.specs.Lawful.{IsLawful};
ghost use Rattle.wbt_run_drain.specs.Ends.{HaveEnded};
ghost use Rattle.wbt_run_drain.specs.Standing.{AreAllCleaned, AreAllDone, AreStanding, NoneWaitsForAge, NothingWaits, WentOn};
ghost use Rattle.wbt_run_drain.specs.Swept.{AreReopened, IsInodeCleaned, IsNextPut, IsQueued, PutsInOrder, StepsUntold, WasPut, reopened};
ghost use Rattle.std.specs.Prelude.{◌≡◌, ◌<◌, true, false, length, map};

use crate::drain::drain;
use crate::ending::all_ended;
use std::sync::Wait;
use wbt_io::{Clock, Disk, Gate};
use wbt_kit::{Hands, Seats};
use wbt_rules::device_of;
use wbt_run_worker::{CpuSide, Post, Stand};
use wbt_trace::Trace;

/// Looks at each inode in order: where its mark was clear it has no dirty page. Where it was set the inode is put into its device's queue,
/// and the device's flushers are turned until each is done again. It ends where a flusher was halted, faulted, spent or refused
/// memory. No step of its own asks the gate. Where none did, each number that was ever put into a device's queue was taken, and no inode
/// waits for its age.
pub fn sweep<R: Wait, C: Clock, G: Gate, D: Disk>(
    hands: &Hands<R, C, G>,
    trace: &Trace,
    seats: &mut Seats,
    sides: &mut [CpuSide<'_, D>],
)
    requires lawful { IsLawful trace.now }
    requires kit { IsKitOf trace.now hands.now.kit.now.published.moment hands.now.kit.now }
    requires standing { AreStanding (C.told hands.now.clock.now) (G.said hands.now.gate.now) D.written D.faults trace.now hands.now.kit.now sides.old seats.old }
    requires ended { HaveEnded sides.old }
    requires done { AreAllDone sides.old }
    ensures standing { AreStanding (C.told hands.now.clock.now) (G.said hands.now.gate.now) D.written D.faults trace.now hands.now.kit.now sides.new seats.new }
    ensures went { WentOn trace.now sides.old sides.new seats.old seats.new }
    ensures done { HaveEnded sides.new → AreAllDone sides.new }
    ensures cleaned { HaveEnded sides.new → AreAllCleaned trace.now seats.new }
    ensures emptied { HaveEnded sides.new → NothingWaits trace.now seats.new }
    ensures aged { HaveEnded sides.new → NoneWaitsForAge sides.new }

    // What it put into queues were inodes of the trace in order, each into that of its own device.
    ensures puts { PutsInOrder trace.now hands.now.kit.now (HaveEnded sides.new) seats.old.queue seats.new.queue }
{
    'inodes: for inode in 0..trace.inodes.as_slice().len() as u32 {
        if !clean(hands, trace, seats, sides, inode) {
            return;
        }
    }
}

// Has an inode cleaned as long as it is marked. False where a flusher ended before.
fn clean<R: Wait, C: Clock, G: Gate, D: Disk>(
    hands: &Hands<R, C, G>,
    trace: &Trace,
    seats: &mut Seats,
    sides: &mut [CpuSide<'_, D>],
    inode: u32,
) -> bool
    requires lawful { IsLawful trace.now }
    requires kit { IsKitOf trace.now hands.now.kit.now.published.moment hands.now.kit.now }
    requires standing { AreStanding (C.told hands.now.clock.now) (G.said hands.now.gate.now) D.written D.faults trace.now hands.now.kit.now sides.old seats.old }
    requires ended { HaveEnded sides.old }
    requires done { AreAllDone sides.old }
    requires inode { inode < length trace.now.inodes }
    ensures standing { AreStanding (C.told hands.now.clock.now) (G.said hands.now.gate.now) D.written D.faults trace.now hands.now.kit.now sides.new seats.new }
    ensures went { WentOn trace.now sides.old sides.new seats.old seats.new }
    ensures done { result ≡ true → HaveEnded sides.new × AreAllDone sides.new }
    ensures cleaned { result ≡ true → IsInodeCleaned trace.now hands.now.kit.now inode seats.new }
    ensures ended { result ≡ false → HaveEnded sides.new → ⊥ }
    ensures puts { WasPut trace.now hands.now.kit.now inode seats.old.queue seats.new.queue }
{
    'marked: for _ in hands.rt.forever() {
        if look(hands, trace, seats, inode) {
            return true;
        }
        turn_device(hands, trace, seats, sides, device_of(trace, inode), inode);
        if !all_ended(sides) {
            return false;
        }
    }
    unreachable!()
}

// Whether the inode's mark was clear. It is set then. The step is one of the first CPU.
fn look<R, C, G>(hands: &Hands<R, C, G>, trace: &Trace, seats: &mut Seats, inode: u32) -> bool
    requires lawful { IsLawful trace.now }
    requires kit { IsKitOf trace.now hands.now.kit.now.published.moment hands.now.kit.now }
    requires seats { AreSeatsOf hands.now.kit.now seats.old }
    requires all { HoldsAll seats.old.cpu }
    requires inode { inode < length trace.now.inodes }
    ensures untold { StepsUntold 0 hands.now.kit.now seats.old seats.new }
    ensures queue { seats.new.queue ≡ seats.old.queue }
    ensures clean { OwesInodeNothing (setting hands.now.kit.now.throttle.layout) inode seats.old.cpu → result ≡ true → HasNoDirtyPage (setting hands.now.kit.now.throttle.layout) inode seats.old.cpu }
{
    hands.kit.throttle.mark_inode(&mut seats.cpu, 0, inode)
}

// The inode goes into its device's queue, and the device's flushers are turned until each is done again: one of them cleans it. `trace` serves
// the contract alone.
fn turn_device<R: Wait, C: Clock, G: Gate, D: Disk>(
    hands: &Hands<R, C, G>,
    trace: &Trace,
    seats: &mut Seats,
    sides: &mut [CpuSide<'_, D>],
    device: u32,
    inode: u32,
)
    requires lawful { IsLawful trace.now }
    requires kit { IsKitOf trace.now hands.now.kit.now.published.moment hands.now.kit.now }
    requires device { device < length hands.now.kit.now.queues.sizes }
    requires standing { AreStanding (C.told hands.now.clock.now) (G.said hands.now.gate.now) D.written D.faults trace.now hands.now.kit.now sides.old seats.old }
    requires ended { HaveEnded sides.old }
    requires done { AreAllDone sides.old }
    ensures standing { AreStanding (C.told hands.now.clock.now) (G.said hands.now.gate.now) D.written D.faults trace.now hands.now.kit.now sides.new seats.new }
    ensures went { WentOn trace.now sides.old sides.new seats.old seats.new }
    ensures over { HaveEnded sides.new → AreAllDone sides.new }
    ensures puts { IsNextPut hands.now.kit.now device inode seats.old.queue seats.new.queue }
{
    open_flushers(sides, device);
    put_back(hands, seats, device, inode);
    drain(hands, trace, seats, sides);
}

// A queue that is full is drained, and the next look finds the mark again.
fn put_back<R: Wait, C, G>(hands: &Hands<R, C, G>, seats: &mut Seats, device: u32, inode: u32)
    requires seats { AreSeatsOf hands.now.kit.now seats.old }
    requires device { device < length hands.now.kit.now.queues.sizes }
    ensures seats { AreSeatsOf hands.now.kit.now seats.new }
    ensures only { OnlyQueue seats.old seats.new }
    ensures device { OnlyDevice device seats.old.queue seats.new.queue }
    ensures queued { IsQueued hands.now.kit.now device inode seats.old seats.new }
{
    let _full = hands
        .kit
        .queues
        .put(hands.rt, &mut seats.queue, device, inode)
        .is_err();
}

// The device's flushers are open again.
fn open_flushers<D>(sides: &mut [CpuSide<'_, D>], device: u32)
    ensures { AreReopened device sides.old sides.new }
{
    for cpu in 0..sides.len() {
        open_posts(&mut sides[cpu].posts, device);
    }
}

fn open_posts<D>(posts: &mut [Post<D>], device: u32)
    ensures { posts.new ≡ map (reopened device) posts.old }
{
    for at in 0..posts.len() {
        if posts[at].flusher.plan.device == device {
            posts[at].stand = Stand::Open;
        }
    }
}
