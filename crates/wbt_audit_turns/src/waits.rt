//! Point 10: each flusher's notices, and the inodes that it takes, keep a list of those that wait, in order of the moment at which they
//! are due.

ghost use Rattle.std.specs.Prelude.{ℕ, ◌≡◌, ◌+◌, ◌<◌, [], true, not, IfOk, length};
ghost use Rattle.wbt_expiry.specs.Kept.{reach};
ghost use Rattle.wbt_expiry.specs.Waiting.{has_inode, with_pair};
ghost use Rattle.wbt_journal.specs.Effects.{ages, notices, takes_first};
ghost use Rattle.wbt_journal.specs.Verdict as spec;
ghost use Rattle.wbt_journal.specs.Waits.{lists_after, wait_fault};
ghost use Rattle.wbt_journal.specs.Walk.{unless};
ghost use Rattle.wbt_rules.specs.Age.{due_after as due_at};
ghost use Rattle.wbt_trace.specs.Lawful.{IsLawful};
ghost use Rattle.wbt_audit_turns.specs.Waited.{AreAgeing, AreListsOf, AreWheelsOf, IsOf, Keep, Moved, emptied, may_be_noticed, wheel_at};
ghost use Rattle.wbt_audit_walk.specs.Walking.{Judges};
ghost use Rattle.wbt_audit_walk.specs.Walks.{item_of};

use std::alloc::Global;
use wbt_audit_walk::act::Act;
use wbt_audit_walk::things::is_own_flusher;
use wbt_audit_walk::walk::{Step, Walk};
use wbt_expiry::{REACH, Wheel};
use wbt_journal::Journal;
use wbt_num::NoMemory;
use wbt_rules::{device_of, due_after, flusher_device, is_ageing};
use wbt_trace::Trace;

/// The moments of a run, in ticks, are before this one: 146 million years.
pub const END_OF_TIME: u64 = 1 << 62;

/// The line of the first entry that breaks the point; None where there is none. An entry in the part of another CPU than its flusher's is
/// passed over. It takes 24 bytes for each pair of a flusher and an inode.
pub fn waits_fault(alloc: Global, trace: &Trace, journal: &Journal) -> Result<Option<u64>, NoMemory>
    requires lawful { IsLawful trace.now }
    ensures { IfOk result (λ found. found ≡ spec.waits_fault trace.now journal.now) }
{
    let mut lists = Lists::make(alloc, trace)?;
    let mut walk = Walk::start(journal)?;
    while let Some(step) = walk.next()? {
        if !lists.pass(trace, &step) {
            return Ok(Some(step.line));
        }
    }
    Ok(None)
}

/// The waiting lists of all flushers.
#[derive(Drop)]
pub struct Lists {
    /// The CPU whose part was begun last.
    pub cpu: usize,
    /// The wheel of each flusher.
    pub wheels: Vec<Wheel>,
    /// Whether each flusher's device is ageing.
    pub ageing: Vec<bool>,
}

impl Lists {
    fn make(alloc: Global, trace: &Trace) -> Result<Lists, NoMemory>
        requires lawful { IsLawful trace.now }
        ensures lists { IfOk result (λ lists. AreListsOf trace.now lists) }
        ensures empty { IfOk result (λ lists. (flusher : ℕ) → flusher < length trace.now.flushers → (wheel_at lists.wheels.items flusher).pairs ≡ []) }
        ensures cpu { IfOk result (λ lists. lists.cpu ≡ 0) }
    {
        Ok(Lists {
            cpu: 0,
            wheels: wheels_of(alloc, trace)?,
            ageing: ageing_of(alloc, trace)?,
        })
    }

    // Passes a step. It tells whether it may stand there.
    fn pass(&mut self, trace: &Trace, step: &Step) -> bool
        requires lawful { IsLawful trace.now }
        requires lists { AreListsOf trace.now self.old }
        requires here { IsOf self.old.cpu (item_of step.now) }
        ensures lists { AreListsOf trace.now self.new }
        ensures judged { Judges (wait_fault trace.now) (lists_after trace.now) (Keep trace.now self.old.cpu self.old.wheels.items) (Keep trace.now self.new.cpu self.new.wheels.items) (item_of step.now) (unless result 0) }
        ensures cpu { self.new.cpu ≡ step.now.cpu }
    {
        match step.act {
            None => {
                self.cpu = step.cpu;
                empty_all(&mut self.wheels);
                true
            }
            Some(
                Act::Notice {
                    flusher,
                    inode,
                    since,
                },
            ) => {
                !is_own_flusher(trace, step.cpu, flusher)
                    || notice(trace, &mut self.wheels, &self.ageing, flusher, inode, since)
            }
            Some(
                Act::Age {
                    flusher,
                    inode,
                    due,
                    now,
                },
            ) => {
                !is_own_flusher(trace, step.cpu, flusher)
                    || age(trace, &mut self.wheels, flusher, inode, due, now)
            }
            Some(Act::Take { flusher, inode }) => {
                !is_own_flusher(trace, step.cpu, flusher)
                    || take(trace, &mut self.wheels, flusher, inode)
            }
            Some(_) => true,
        }
    }
}

fn wheels_of(alloc: Global, trace: &Trace) -> Result<Vec<Wheel>, NoMemory>
    requires lawful { IsLawful trace.now }
    ensures wheels { IfOk result (λ wheels. AreWheelsOf trace.now wheels.items) }
    ensures empty { IfOk result (λ wheels. (flusher : ℕ) → flusher < length trace.now.flushers → (wheel_at wheels.items flusher).pairs ≡ []) }
{
    let inodes = trace.inodes.as_slice().len() as u32;
    let mut wheels = Vec::new(alloc);
    for _flusher in trace.flushers.as_slice() {
        wheels.push(Wheel::make(alloc, inodes, 0)?)?;
    }
    Ok(wheels)
}

fn ageing_of(alloc: Global, trace: &Trace) -> Result<Vec<bool>, NoMemory>
    ensures { IfOk result (λ ageing. AreAgeing trace.now ageing.items) }
{
    let mut ageing = Vec::new(alloc);
    for flusher in trace.flushers.as_slice() {
        ageing.push(is_ageing(trace, flusher.device))?;
    }
    Ok(ageing)
}

// A part begins, with empty lists.
fn empty_all(wheels: &mut [Wheel])
    ensures long { length wheels.new ≡ length wheels.old }
    ensures each { (flusher : ℕ) → wheel_at wheels.new flusher ≡ emptied (wheel_at wheels.old flusher) }
{
    for flusher in 0..wheels.len() {
        empty(&mut wheels[flusher]);
    }
}

fn empty(wheel: &mut Wheel)
    ensures { wheel.new ≡ emptied wheel.old }
{
    while let Some(_pair) = wheel.first() {}
}

// The flusher notices an inode of its ageing device that doesn't wait yet.
fn notice(
    trace: &Trace,
    wheels: &mut [Wheel],
    ageing: &[bool],
    flusher: u32,
    inode: u32,
    since: u64,
) -> bool
    requires lawful { IsLawful trace.now }
    requires wheels { AreWheelsOf trace.now wheels.old }
    requires ageing { AreAgeing trace.now ageing.now }
    requires there { flusher < length trace.now.flushers }
    ensures { Moved trace.now flusher (notices inode since) result wheels.old wheels.new }
{
    if since >= END_OF_TIME || !may_be_noticed(trace, ageing, flusher, inode) {
        return false;
    }
    put(
        &mut wheels[flusher as usize],
        inode,
        due_of(trace, inode, since),
    )
}

// When the inode is due that was noticed at a moment.
fn due_of(trace: &Trace, inode: u32, since: u64) -> u64
    requires lawful { IsLawful trace.now }
    requires there { inode < length trace.now.inodes }
    requires since { since < END_OF_TIME }
    ensures value { result ≡ due_at trace.now inode since }
    ensures near { result < END_OF_TIME + reach }
{
    due_after(trace, inode, since)
}

// Whether the inode is one of the flusher's device, which is ageing.
fn may_be_noticed(trace: &Trace, ageing: &[bool], flusher: u32, inode: u32) -> bool
    requires lawful { IsLawful trace.now }
    requires ageing { AreAgeing trace.now ageing.now }
    requires there { flusher < length trace.now.flushers }
    ensures { result ≡ may_be_noticed trace.now flusher inode }
{
    (inode as usize) < trace.inodes.as_slice().len()
        && device_of(trace, inode) == flusher_device(trace, flusher)
        && ageing[flusher as usize]
}

// Puts an inode where it doesn't wait yet. The wheel is told a moment that is near enough.
fn put(wheel: &mut Wheel, inode: u32, due: u64) -> bool
    requires inode { inode < wheel.old.inodes }
    requires due { due < END_OF_TIME + reach }
    ensures answer { result ≡ not (has_inode inode wheel.old.pairs) }
    ensures puts { result ≡ true → wheel.new.pairs ≡ with_pair (record { due = due; inode = inode }) wheel.old.pairs }
    ensures inodes { wheel.new.inodes ≡ wheel.old.inodes }
{
    if due > wheel.horizon() {
        wheel.move_to(due - REACH);
    }
    wheel.put(inode, due)
}

// The flusher takes the first inode, which is due by now.
fn age(trace: &Trace, wheels: &mut [Wheel], flusher: u32, inode: u32, due: u64, now: u64) -> bool
    requires wheels { AreWheelsOf trace.now wheels.old }
    requires there { flusher < length trace.now.flushers }
    ensures { Moved trace.now flusher (ages inode due now) result wheels.old wheels.new }
{
    let _trace = trace;
    match wheels[flusher as usize].first() {
        None => false,
        Some(pair) => pair.inode == inode && pair.due == due && due <= now,
    }
}

// The flusher takes the first inode, due or not.
fn take(trace: &Trace, wheels: &mut [Wheel], flusher: u32, inode: u32) -> bool
    requires wheels { AreWheelsOf trace.now wheels.old }
    requires there { flusher < length trace.now.flushers }
    ensures { Moved trace.now flusher (takes_first inode) result wheels.old wheels.new }
{
    let _trace = trace;
    match wheels[flusher as usize].first() {
        None => false,
        Some(pair) => pair.inode == inode,
    }
}
