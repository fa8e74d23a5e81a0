//! The timer's notes beside those of the CPUs.

ghost use Rattle.std.specs.Prelude.{◌≡◌, ℕ, None};
ghost use Rattle.wbt_grant.specs.declared.record.CpuRecord.{CpuRecord};
ghost use Rattle.wbt_fraction.specs.Several.{AllJoined, IsTotalJoined, AreAdded};
ghost use Rattle.wbt_published.specs.Passes.{all_joined};
ghost use Rattle.wbt_queue.specs.Passes.{all_joined as all_parts};
ghost use Rattle.wbt_table.specs.Calls.{joined_seat};
ghost use Rattle.wbt_kit.specs.Kit.{AreSeatsOf, HasCpu};
ghost use Rattle.wbt_run_seats.specs.Apart.{IsApart};

use std::mem;
use std::sync::Wait;
use wbt_fraction::ShareSeat;
use wbt_kit::{Kit, Seats};
use wbt_published::EstPass;

/// Seats at the shares and the estimates of a kit.
#[derive(Drop)]
pub struct Apart {
    /// At the shares and written totals.
    pub share: ShareSeat,
    /// At the estimates.
    pub est: EstPass,
}

/// Moves the records of the CPUs to the seats that hold the timer, joins their passes to the queues with its own, and puts the
/// CPUs' notes in place of the timer's, which are answered. So flushers can go on with the notes of their CPUs, where one seat
/// holds all records, and one pass has the stakes of both in each queue.
pub fn take_records<R: Wait>(rt: &R, kit: &Kit, seats: &mut Seats, mut cpus: Seats) -> Apart
    requires seats { AreSeatsOf kit.now seats.old × AreSeatsOf kit.now cpus }
    ensures seats { AreSeatsOf kit.now seats.new }
    ensures records { seats.new.cpu ≡ joined_seat seats.old.cpu cpus.cpu }
    ensures came { (c : ℕ) (r : CpuRecord) → HasCpu c r cpus → HasCpu c r seats.new }
    ensures stayed { cpus.cpu.timer ≡ None → seats.new.cpu.timer ≡ seats.old.cpu.timer }
    ensures notes { (seats.new.share ≡ cpus.share) × (seats.new.est ≡ cpus.est) }
    ensures queue { seats.new.queue ≡ record seats.old.queue { known = all_parts seats.old.queue.known cpus.queue.known } }
    ensures apart { IsApart kit.now result }
    ensures timer { (result.share ≡ seats.old.share) × (result.est ≡ seats.old.est) }
{
    mem::swap(&mut seats.share, &mut cpus.share);
    mem::swap(&mut seats.est, &mut cpus.est);
    let Seats {
        cpu,
        share,
        est,
        queue,
    } = cpus;
    kit.throttle.join(&mut seats.cpu, cpu);
    kit.queues.join(rt, &mut seats.queue, queue);
    Apart { share, est }
}

/// The timer's notes take in the CPUs': the seats have then what all had. With all stakes back all notes are there. It may wait
/// for a thread that is about to publish.
pub fn take_notes<R: Wait>(rt: &R, kit: &Kit, seats: &mut Seats, apart: Apart)
    requires seats { AreSeatsOf kit.now seats.old × IsApart kit.now apart }
    ensures seats { AreSeatsOf kit.now seats.new }
    ensures records { seats.new.cpu ≡ seats.old.cpu }
    ensures shares { AllJoined apart.share.domains seats.old.share.domains seats.new.share.domains }
    ensures totals { IsTotalJoined apart.share.totals seats.old.share.totals seats.new.share.totals }
    ensures added { AreAdded apart.share seats.old.share seats.new.share }
    ensures est { seats.new.est ≡ record apart.est { known = all_joined apart.est.known seats.old.est.known } }
    ensures queue { seats.new.queue ≡ seats.old.queue }
{
    let Apart { mut share, mut est } = apart;
    mem::swap(&mut seats.share, &mut share);
    mem::swap(&mut seats.est, &mut est);
    kit.shares.join(&mut seats.share, share);
    kit.published.join(rt, &mut seats.est, est);
}
