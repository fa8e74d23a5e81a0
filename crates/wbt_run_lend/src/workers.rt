//! The workers of all CPUs before their first turn, and what they leave.

ghost use Rattle.std.specs.Prelude.{◌≡◌, ◌+◌, ◌++◌, ◌<◌, ◌≤◌, ◌^◌, length, Some, IfOk, IfErr};
ghost use Rattle.std.specs.Vec.{vec_capacity, vec_len};
ghost use Rattle.wbt_run_seats.specs.Parts.{AreBack, IsLeft};
ghost use Rattle.wbt_io.specs.Pages.{Grows};
ghost use Rattle.wbt_kit.specs.Kit.{AreFirst, AreSeatsOf, HasOwners, IsKitOf};
ghost use Rattle.wbt_trace.specs.Lawful.{IsLawful};
ghost use Rattle.wbt_run_drain.specs.Teams.{faults_by_all, logs_of, teams_of, written_by_all};
ghost use Rattle.wbt_run_first.specs.Back.{NotFallen, WereGiven};
ghost use Rattle.wbt_journal.specs.Each.{Each};
ghost use Rattle.wbt_run_first.specs.Lent.{AreFirstWorkers, ArePut};
ghost use Rattle.wbt_run_first.specs.Voiced.{AreVoiced, IsVoiced, handed_out};

use crate::lend::{give_all, give_posts, make_sides};
use std::sync::Wait;
use wbt_io::{Disk, NoMemory, Rack};
use wbt_journal::CpuJournal;
use wbt_kit::{Hands, Seats};
use wbt_rules::first_limits;
use wbt_run_seats::split_each;
use wbt_run_worker::{Condition, CpuSide, Worker};
use wbt_signals::Voice;
use wbt_trace::Trace;

/// A worker for each CPU in order, with the CPU's part of `seats`, which are as `Kit::make` gave them for the trace and the moment
/// `now`, in ticks. What is left in `seats` has the timer. `voice` speaks for as many workers as there are CPUs, and hands each of them its own. Where
/// memory is refused the seats are as they were, and the disks are given back.
pub fn make_workers<'t, H: Wait, C, G, R: Rack>(
    hands: &Hands<H, C, G>,
    trace: &'t Trace,
    now: u64,
    seats: &mut Seats,
    rack: &mut R,
    condition: &Condition,
    voice: &mut Voice,
) -> Result<Vec<Worker<'t, R::D>>, NoMemory>
    requires lawful { IsLawful trace.now }
    requires in_range { now < 2 ^ 62 }
    requires kit { IsKitOf trace.now now hands.now.kit.now }
    requires owners { HasOwners hands.now.kit.now }
    requires seats { AreSeatsOf hands.now.kit.now seats.old }
    requires first { AreFirst hands.now.kit.now seats.old }
    requires voice { (voice.old.signals ≡ condition.now.signals) × (voice.old.stakes ≡ 2 ^ 32) × (voice.old.rings ≡ 0) }
    requires counted { (voice.old.writes ≡ trace.now.cpus) × (voice.old.there ≡ trace.now.cpus) }
    ensures made { IfOk result (λ workers. AreFirstWorkers R.D.written R.D.faults trace.now now hands.now.kit.now seats.old workers.items) }
    ensures voiced { IfOk result (λ workers. AreVoiced condition.now.signals voice.new workers.items) }
    ensures handed { IfOk result (λ _. (voice.new.writes ≡ 0) × (voice.new.there ≡ 0)) }
    ensures left { IfOk result (λ _. IsLeft hands.now.kit.now trace.now.cpus seats.old seats.new) }
    ensures back { IfErr result (λ _. AreBack seats.old seats.new) }
    ensures written { Grows (Some 0) (R.written rack.old) (R.written rack.new) }
    ensures fallen { NotFallen (R.faults rack.old) (R.faults rack.new) }
{
    let workers = Vec::with_capacity(hands.alloc, trace.cpus as usize)?;
    match make_sides(hands.alloc, trace, now, &first_limits(trace, now, 0), rack) {
        Err(refused) => {
            workers.destroy_empty();
            Err(refused)
        }
        Ok(sides) => match split_each(hands.rt, hands.alloc, hands.kit, seats, trace.cpus) {
            Err(refused) => {
                workers.destroy_empty();
                give_all(sides, rack);
                Err(refused)
            }
            Ok(parts) => Ok(seat_each(parts, sides, workers, condition, voice)),
        },
    }
}

// A worker of each part and each side, in order. There is room for them.
fn seat_each<'t, D: Disk>(
    parts: Vec<Seats>,
    sides: Vec<CpuSide<'t, D>>,
    mut workers: Vec<Worker<'t, D>>,
    condition: &Condition,
    voice: &mut Voice,
) -> Vec<Worker<'t, D>>
    requires many { vec_len sides ≡ vec_len parts }
    requires none { vec_len workers ≡ 0 }
    requires room { vec_len parts ≤ vec_capacity workers }
    requires voice { (voice.old.signals ≡ condition.now.signals) × (vec_len parts + 2 ≤ voice.old.stakes) × (vec_len parts ≤ voice.old.writes) × (vec_len parts ≤ voice.old.there) }
    ensures put { ArePut parts.items sides.entry.items result.items }
    ensures voiced { Each (IsVoiced condition.now.signals) result.items }
    ensures voice { voice.new ≡ handed_out (length result.items) voice.old }
{
    let mut rest = sides.into_iter();
    for seats in parts {
        if let Some(side) = rest.next() {
            workers.push_reserved(Worker {
                seats,
                side,
                voice: condition.signals.split(voice),
                writes: true,
                in_turn: false,
            });
        }
    }
    rest.destroy_empty();
    workers
}

/// Adds the logs of all sides in order, and gives their disks back. There is room for the logs.
pub fn take_logs<R: Rack>(
    sides: Vec<CpuSide<'_, R::D>>,
    mut logs: Vec<CpuJournal>,
    rack: &mut R,
) -> Vec<CpuJournal>
    requires room { vec_len logs + vec_len sides ≤ vec_capacity logs }
    ensures logs { result.items ≡ logs.items ++ logs_of sides.entry.items }
    ensures given { WereGiven (written_by_all (teams_of R.D.written R.D.faults sides.entry.items)) (faults_by_all (teams_of R.D.written R.D.faults sides.entry.items)) (R.written rack.old) (R.written rack.new) (R.faults rack.old) (R.faults rack.new) }
{
    let mut rest = sides.into_iter();
    while let Some(side) = rest.next() {
        let CpuSide {
            writers: _,
            posts,
            next: _,
            log,
            end: _,
        } = side;
        give_posts(posts, rack);
        logs.push_reserved(log);
    }
    rest.destroy_empty();
    logs
}
