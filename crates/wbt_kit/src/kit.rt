//! A kit and the seats at it: how they are made, split and joined.

ghost use Rattle.std.specs.Prelude.{◌≡◌, ◌<◌, ◌^◌, [], length, map, replicate, IfOk, IfErr};
ghost use Rattle.wbt_trace.specs.Lawful.{IsLawful};
ghost use Rattle.wbt_fraction.specs.Several.{AllFirst, CanSplit, HasRoom, HasTotalRoom, IsSeatOf};
ghost use Rattle.wbt_fraction.specs.Totals.{room_of};
ghost use Rattle.wbt_journal.specs.Machine.{domains, contexts};
ghost use Rattle.wbt_published.specs.Known.{opening};
ghost use Rattle.wbt_published.specs.Passes.{IsPassOf};
ghost use Rattle.wbt_queue.specs.Known.{opening as empty};
ghost use Rattle.wbt_queue.specs.Passes.{IsPassOf as IsPassOfQueues};
ghost use Rattle.wbt_rules.specs.First.{first_estimates};
ghost use Rattle.wbt_table.specs.Calls.{IsFirst};
ghost use Rattle.wbt_table.specs.Seat.{IsAt};
ghost use Rattle.wbt_kit.specs.Opening as spec;
ghost use Rattle.wbt_kit.specs.Kit.{IsKitOf, AreSeatsOf, AreFirst, HasOwners, IsHeldBy, CpusSplit, SharesSplit, PassesSplit, AreJoined};

use crate::devices::{first_estimates_of, homes_of, owners_of, queue_sizes};
use crate::layout::layout_of;
use std::alloc::Global;
use std::sync::Wait;
use wbt_fraction::{ShareSeat, Shares};
use wbt_io::NoMemory;
use wbt_num::Items;
use wbt_published::{EstPass, Published};
use wbt_queue::{QueuePass, Queues};
use wbt_rules::domains_of;
use wbt_table::{CpuSeat, Throttle};
use wbt_trace::Trace;

/// All that threads share. They share it by reference.
#[derive(Drop)]
pub struct Kit {
    /// The words of pages, marks, counters, limits and peaks.
    pub throttle: Throttle,
    /// The proportions of the contexts in their domains, and the pages that each context wrote.
    pub shares: Shares,
    /// The newest estimate of each context.
    pub published: Published,
    /// The inode numbers that wait for each device's flushers.
    pub queues: Queues,
    /// By context: the CPU of the first flusher of its device, which publishes for it.
    pub owners: Items<u32>,
}

/// One thread's seat at each part of a kit.
#[derive(Drop)]
pub struct Seats {
    /// The records of the CPUs that it steps for, and of the timer where it has it.
    pub cpu: CpuSeat,
    /// Its notes of proportions and written totals, with its stakes and rooms.
    pub share: ShareSeat,
    /// What it knows of estimates, and for which contexts it publishes.
    pub est: EstPass,
    /// What it put into the queues and took.
    pub queue: QueuePass,
}

impl Kit {
    /// The kit of a trace, and the seats that hold every CPU, the timer and all rights. At the moment `now` of the opening, in
    /// ticks, the first limits and estimates stand published.
    pub fn make(alloc: Global, trace: &Trace, now: u64) -> Result<(Kit, Seats), NoMemory>
        requires lawful { IsLawful trace.now }
        requires moment { now < 2 ^ 62 }
        ensures kit { IfOk result (λ made. IsKitOf trace.now now made.0) }
        ensures owners { IfOk result (λ made. HasOwners made.0) }
        ensures seats { IfOk result (λ made. AreSeatsOf made.0 made.1) }
        ensures first { IfOk result (λ made. AreFirst made.0 made.1) }
    {
        let owners = owners_of(alloc, trace)?;
        let (throttle, cpu) = make_throttle(alloc, trace, now)?;
        let (shares, share) = make_shares(alloc, trace)?;
        let (published, est) = make_published(alloc, trace, now)?;
        let (queues, queue) = make_queues(alloc, trace)?;
        Ok((
            Kit {
                throttle,
                shares,
                published,
                queues,
                owners,
            },
            Seats {
                cpu,
                share,
                est,
                queue,
            },
        ))
    }

    /// Moves a CPU, or the timer, whose number comes after the last CPU's, to seats of its own, with one stake and 2^33 of each
    /// room, and with the right to publish for each context that the CPU owns. Where memory is refused what was split is joined
    /// again, and the seats are as they were.
    pub fn split<R: Wait>(
        &self,
        rt: &R,
        alloc: Global,
        seats: &mut Seats,
        cpu: u32,
    ) -> Result<Seats, NoMemory>
        requires owners { HasOwners self.now }
        requires seats { AreSeatsOf self.now seats.old }
        requires held { IsHeldBy seats.old cpu }
        requires room { HasRoom seats.old.share.domains × HasTotalRoom self.now.shares.totals seats.old.share.totals }
        ensures seats { IfOk result (λ new. AreSeatsOf self.now seats.new × AreSeatsOf self.now new) }
        ensures cpus { IfOk result (λ new. CpusSplit cpu seats.old.cpu seats.new.cpu new.cpu) }
        ensures shares { IfOk result (λ new. SharesSplit self.now seats.old.share seats.new.share new.share) }
        ensures passes { IfOk result (λ new. PassesSplit self.now cpu seats.old.est seats.new.est new.est seats.old.queue seats.new.queue new.queue) }
        ensures refused { IfErr result (λ _. seats.new ≡ seats.old) }
    {
        let Seats {
            cpu: mine,
            share,
            est,
            queue,
        } = seats;
        let one = self.throttle.split(alloc, mine, cpu)?;
        match self.split_shares(rt, alloc, share, est, queue, cpu) {
            Ok((share, est, queue)) => Ok(Seats {
                cpu: one,
                share,
                est,
                queue,
            }),
            Err(_) => {
                self.throttle.join(mine, one);
                Err(NoMemory)
            }
        }
    }

    /// Brings the seats of two threads together: they have then what both had. It may wait for a thread that is about to
    /// publish.
    pub fn join<R: Wait>(&self, rt: &R, into: &mut Seats, from: Seats)
        requires seats { AreSeatsOf self.now into.old × AreSeatsOf self.now from }
        ensures seats { AreSeatsOf self.now into.new }
        ensures joined { AreJoined into.old from into.new }
    {
        let Seats {
            cpu,
            share,
            est,
            queue,
        } = from;
        self.throttle.join(&mut into.cpu, cpu);
        self.shares.join(&mut into.share, share);
        self.published.join(rt, &mut into.est, est);
        self.queues.join(rt, &mut into.queue, queue);
    }

    // The split of what isn't the throttle's. It is joined again where memory is refused.
    fn split_shares<R: Wait>(
        &self,
        rt: &R,
        alloc: Global,
        share: &mut ShareSeat,
        est: &mut EstPass,
        queue: &mut QueuePass,
        cpu: u32,
    ) -> Result<(ShareSeat, EstPass, QueuePass), NoMemory>
        requires owners { HasOwners self.now }
        requires share { IsSeatOf self.now.shares share.old × HasRoom share.old.domains × HasTotalRoom self.now.shares.totals share.old.totals }
        requires est { IsPassOf self.now.published est.old × (length est.old.known ≡ length self.now.published.names) }
        requires queue { IsPassOfQueues self.now.queues queue.old }
        ensures split { IfOk result (λ new. SharesSplit self.now share.old share.new new.0 × PassesSplit self.now cpu est.old est.new new.1 queue.old queue.new new.2) }
        ensures refused { IfErr result (λ _. (share.new ≡ share.old) × (est.new ≡ est.old) × (queue.new ≡ queue.old)) }
    {
        let one = self.shares.split(alloc, share)?;
        match self.split_passes(rt, alloc, est, queue, cpu) {
            Ok((est, queue)) => Ok((one, est, queue)),
            Err(_) => {
                self.shares.join(share, one);
                Err(NoMemory)
            }
        }
    }

    // That of estimates and queues. The queues come last, since a pass that was split and joined again isn't what it was.
    fn split_passes<R: Wait>(
        &self,
        rt: &R,
        alloc: Global,
        est: &mut EstPass,
        queue: &mut QueuePass,
        cpu: u32,
    ) -> Result<(EstPass, QueuePass), NoMemory>
        requires owners { HasOwners self.now }
        requires est { IsPassOf self.now.published est.old × (length est.old.known ≡ length self.now.published.names) }
        requires queue { IsPassOfQueues self.now.queues queue.old }
        ensures split { IfOk result (λ new. PassesSplit self.now cpu est.old est.new new.0 queue.old queue.new new.1) }
        ensures refused { IfErr result (λ _. (est.new ≡ est.old) × (queue.new ≡ queue.old)) }
    {
        let one = self
            .published
            .split(rt, alloc, est, self.owners.as_slice(), cpu)?;
        match self.queues.split(rt, alloc, queue) {
            Ok(queue) => Ok((one, queue)),
            Err(_) => {
                self.published.join(rt, est, one);
                Err(NoMemory)
            }
        }
    }
}

// The words of a trace's pages, marks, counters, limits and peaks, and the seat that holds every CPU and the timer.
fn make_throttle(alloc: Global, trace: &Trace, now: u64) -> Result<(Throttle, CpuSeat), NoMemory>
    requires lawful { IsLawful trace.now }
    ensures layout { IfOk result (λ made. made.0.layout ≡ spec.layout_of trace.now now) }
    ensures seat { IfOk result (λ made. IsAt made.0 made.1 × IsFirst made.1) }
{
    let layout = layout_of(alloc, trace, now)?;
    Throttle::make(alloc, layout)
}

// The proportions of a trace's contexts in their domains, and the seat that has all stakes and rooms.
fn make_shares(alloc: Global, trace: &Trace) -> Result<(Shares, ShareSeat), NoMemory>
    requires lawful { IsLawful trace.now }
    ensures domains { IfOk result (λ made. length made.0.domains ≡ domains trace.now) }
    ensures homes { IfOk result (λ made. made.0.homes ≡ spec.homes_of trace.now) }
    ensures seat { IfOk result (λ made. IsSeatOf made.0 made.1) }
    ensures first { IfOk result (λ made. AllFirst made.1.domains × (made.1.totals.notes ≡ []) × (made.1.totals.stakes ≡ 2 ^ 32)) }
    ensures rooms { IfOk result (λ made. (context : _) → context < length made.0.homes → room_of context made.1.totals.rooms ≡ 2 ^ 39) }
    ensures shares_room { IfOk result (λ made. HasRoom made.1.domains × HasTotalRoom made.0.totals made.1.totals) }
    ensures splits { IfOk result (λ made. CanSplit 64 made.0 made.1) }
{
    let homes = homes_of(alloc, trace)?;
    Shares::make(alloc, domains_of(trace), homes.as_slice())
}

// The cells of a trace's estimates with the first ones of its contexts, and the pass that publishes for each context.
fn make_published(alloc: Global, trace: &Trace, now: u64) -> Result<(Published, EstPass), NoMemory>
    requires lawful { IsLawful trace.now }
    requires moment { now < 2 ^ 62 }
    ensures cells { IfOk result (λ made. (made.0.moment ≡ now) × (made.0.firsts ≡ first_estimates trace.now now) × (length made.0.names ≡ contexts trace.now)) }
    ensures pass { IfOk result (λ made. made.1 ≡ record { names = made.0.names; known = replicate (contexts trace.now) opening }) }
{
    let firsts = first_estimates_of(alloc, trace, now)?;
    Published::make(alloc, firsts, now)
}

// A queue for each device of a trace, and the pass that has put nothing.
fn make_queues(alloc: Global, trace: &Trace) -> Result<(Queues, QueuePass), NoMemory>
    requires lawful { IsLawful trace.now }
    ensures sizes { IfOk result (λ made. made.0.sizes ≡ spec.queue_sizes trace.now) }
    ensures pass { IfOk result (λ made. made.1 ≡ record { names = made.0.names; known = map (λ _. empty) made.0.sizes }) }
{
    let sizes = queue_sizes(alloc, trace)?;
    Queues::make(alloc, sizes.as_slice())
}
