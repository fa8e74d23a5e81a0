//! The work of a run: what is between the making of a kit and the closing of its throttle.

ghost use Rattle.std.specs.Prelude.{◌≡◌, ◌⊎◌, ◌+◌, ◌<◌, ◌≤◌, ◌^◌, [], false, Ok, Some, IfOk};
ghost use Rattle.std.specs.Vec.{vec_capacity, vec_len};
ghost use Rattle.wbt_run_drain.specs.Ends.{EndingIs, HaveEnded};
ghost use Rattle.wbt_run_drain.specs.Standing.{AreAllCleaned, AreAllDone, AreStanding, NoneStopped, NothingWaits, WentOn};
ghost use Rattle.wbt_run_drain.specs.Teams.{faults_by_all, faults_told, handed_over, logs_of, teams_of, written_by_all};
ghost use Rattle.wbt_io.specs.Faults.{HasRisenBy};
ghost use Rattle.wbt_io.specs.Pages.{Grows};
ghost use Rattle.wbt_journal.specs.declared.journal.Ending.{Ending as EndingValue};
ghost use Rattle.wbt_kit.specs.Kit.{AreFirst, AreSeatsOf, HasOwners, IsKitOf};
ghost use Rattle.wbt_rules.specs.declared.moments.TheConstants.{MOST_FAULTS};
ghost use Rattle.wbt_table.specs.Calls.{HoldsAll};
ghost use Rattle.wbt_trace.specs.Lawful.{IsLawful};
ghost use Rattle.wbt_run_drain.specs.Whole.{HaveWorked};
ghost use Rattle.wbt_run_first.specs.Back.{NotFallen, WereGiven};
ghost use Rattle.wbt_run.specs.Finished.{HasFinished};
ghost use Rattle.wbt_run.specs.Running.{AreHalted, HaveTakenTurns, PauseShortly, TellMoments};
ghost use Rattle.wbt_run_first.specs.Seated.{AreSeated, IsFirstTimer};
ghost use Rattle.wbt_run_first.specs.Voiced.{AreVoiced, OutForCause, StopsForCause};

use std::sync::Wait;
use std::thread::Threads;
use wbt_io::{Clock, Disk, Gate, NoMemory, Rack};
use wbt_journal::CpuJournal;
use wbt_kit::{Hands, Seats};
use wbt_num::Items;
use wbt_run_close::Worked;
use wbt_run_drain::drain::drain;
use wbt_run_drain::ending::{all_ended, ending_of};
use wbt_run_drain::sweep::sweep;
use wbt_run_lend::{make_workers, take_logs};
use wbt_run_together::{gather_notes, work_together};
use wbt_run_worker::{Condition, CpuSide, TimerWorker, Worker};
use wbt_timer::TimerSide;
use wbt_trace::Trace;

/// Has workers for each CPU and the timer work beside each other until all tasks have ended, and then cleans what is left. `kit` and
/// `seats` are as `Kit::make` gave them for the trace and the moment `now`, in ticks. All seats, writers, flushers and disks are
/// made before the first step. The seats hold each CPU and the timer again, and the disks are given back.
#[tactic(auto, using(crate::proofs::Holding::first_holds, crate::proofs::Holding::back_holds))]
pub fn work<H: Threads + Wait + Sync, C: Clock + Sync, G: Gate + Sync, R: Rack>(
    hands: &Hands<H, C, G>,
    trace: &Trace,
    now: u64,
    seats: &mut Seats,
    rack: &mut R,
) -> Result<Worked, NoMemory>
    requires lawful { IsLawful trace.now }
    requires moment { C.told hands.now.clock.now now }
    requires in_range { now < 2 ^ 62 }
    requires kit { IsKitOf trace.now now hands.now.kit.now }
    requires owners { HasOwners hands.now.kit.now }
    requires seats { AreSeatsOf hands.now.kit.now seats.old }
    requires first { AreFirst hands.now.kit.now seats.old }
    ensures seats { AreSeatsOf hands.now.kit.now seats.new }
    ensures all { HoldsAll seats.new.cpu }

    // The workers have worked so; no check that they tell pauses longer than 200 ticks, and the clock told each moment in their logs.
    ensures worked { IfOk result (λ worked. HaveWorked trace.now now hands.now.kit.now worked.cpus worked.timer worked.ending seats.new) }
    ensures pauses { IfOk result (λ worked. PauseShortly worked.cpus) }
    ensures moments { IfOk result (λ worked. TellMoments (C.told hands.now.clock.now) worked.cpus worked.timer) }

    // The disks that were given back have written just the pages of the batches, and the rack's count of faults has risen by as many faults
    // as are told at least.
    ensures disks { IfOk result (λ worked. Grows (Some (handed_over worked.cpus)) (R.written rack.old) (R.written rack.new)) }
    ensures failures { IfOk result (λ worked. HasRisenBy (faults_told worked.cpus) (R.faults rack.old) (R.faults rack.new)) }
    ensures fallen { NotFallen (R.faults rack.old) (R.faults rack.new) }

    // Each ending has its cause. That a CPU is spent its log tells.
    ensures faulted { IfOk result (λ worked. worked.ending ≡ EndingValue.Faulted → HasRisenBy MOST_FAULTS (R.faults rack.old) (R.faults rack.new)) }
    ensures halted { IfOk result (λ worked. worked.ending ≡ EndingValue.Halted → AreHalted (G.said hands.now.gate.now) trace.now seats.new worked.cpus) }

    // Where all is done each number that was ever put into a device's queue was taken, just as often.
    ensures emptied { IfOk result (λ worked. worked.ending ≡ EndingValue.Done → NothingWaits trace.now seats.new) }

    // Each CPU and the timer took turns, one after another, of which the last one may be cut off.
    ensures turns { IfOk result (λ _. HaveTakenTurns trace.now seats.new) }
{
    let (condition, voice) = Condition::make(hands.alloc, trace.cpus)?;
    let mut lines = Vec::new(hands.alloc);
    let side = TimerSide::make(hands.alloc, trace, now, &mut lines)?;
    let mut timer = TimerWorker {
        side,
        log: lines,
        refused: false,
        halted: false,
        in_turn: false,
        voice,
    };
    let logs = Vec::with_capacity(hands.alloc, trace.cpus as usize)?;
    let mut sides = Vec::with_capacity(hands.alloc, trace.cpus as usize)?;
    match make_workers(hands, trace, now, seats, rack, &condition, &mut timer.voice) {
        Err(refused) => {
            sides.destroy_empty();
            Err(refused)
        }
        Ok(workers) => {
            finish(
                hands, trace, now, &condition, seats, &mut timer, workers, &mut sides,
            );
            end(timer, sides, logs, rack)
        }
    }
}

// All turns: those of the workers beside each other, and then, on the seats that were brought together, the drain and the sweep, where all
// have ended. There is room for the sides. `now` serves the contract alone: it is the moment of the opening.
fn finish<'t, H: Threads + Wait + Sync, C: Clock + Sync, G: Gate + Sync, D: Disk + Send>(
    hands: &Hands<H, C, G>,
    trace: &Trace,
    now: u64,
    condition: &Condition,
    seats: &mut Seats,
    timer: &mut TimerWorker,
    workers: Vec<Worker<'t, D>>,
    sides: &mut Vec<CpuSide<'t, D>>,
)
    requires lawful { IsLawful trace.now }
    requires moment { C.told hands.now.clock.now now }
    requires kit { IsKitOf trace.now now hands.now.kit.now }
    requires seated { AreSeated D.written D.faults trace.now now hands.now.kit.now workers.items seats.old }
    requires timer { IsFirstTimer trace.now now timer.old.side timer.old.log.items }
    requires voiced { AreVoiced condition.now.signals timer.old.voice workers.items }
    requires counted { (timer.old.voice.writes ≡ 0) × (timer.old.voice.there ≡ 0) }
    requires not_refused { timer.old.refused ≡ false }
    requires not_halted { timer.old.halted ≡ false }
    requires none { sides.old.items ≡ [] }
    requires room { vec_len workers ≤ vec_capacity sides.old }
    ensures stopped { StopsForCause timer.new.refused sides.new.items }
    ensures unnamed { OutForCause sides.new.items }
    ensures seats { AreSeatsOf hands.now.kit.now seats.new }
    ensures all { HoldsAll seats.new.cpu }
    ensures room { vec_len sides.new ≡ trace.now.cpus }
    ensures finished { HasFinished (C.told hands.now.clock.now) (G.said hands.now.gate.now) D.written D.faults trace.now now hands.now.kit.now sides.new.items timer.new.log.items timer.new.refused seats.new }
{
    let apart = work_together(hands, trace, now, condition, seats, timer, workers, sides);
    clean_up(hands, trace, seats, sides.as_mut_slice(), timer.refused);
    gather_notes(hands.rt, trace, hands.kit, seats, apart);
}

// The drain and the sweep, where all tasks have ended and the timer wasn't refused memory.
#[tactic(auto, using(crate::proofs::Ending::none_stopped))]
fn clean_up<R: Wait, C: Clock, G: Gate, D: Disk>(
    hands: &Hands<R, C, G>,
    trace: &Trace,
    seats: &mut Seats,
    sides: &mut [CpuSide<'_, D>],
    refused: bool,
)
    requires lawful { IsLawful trace.now }
    requires kit { IsKitOf trace.now hands.now.kit.now.published.moment hands.now.kit.now }
    requires standing { AreStanding (C.told hands.now.clock.now) (G.said hands.now.gate.now) D.written D.faults trace.now hands.now.kit.now sides.old seats.old }
    ensures standing { AreStanding (C.told hands.now.clock.now) (G.said hands.now.gate.now) D.written D.faults trace.now hands.now.kit.now sides.new seats.new }
    ensures went { WentOn trace.now sides.old sides.new seats.old seats.new }
    ensures stopped { NoneStopped sides.old ⊎ (sides.new ≡ sides.old) }
    ensures done { refused ≡ false → HaveEnded sides.new → AreAllDone sides.new }
    ensures cleaned { refused ≡ false → HaveEnded sides.new → AreAllCleaned trace.now seats.new }
{
    if refused || !all_ended(sides) {
        return;
    }
    drain(hands, trace, seats, sides);
    if !all_ended(sides) {
        return;
    }
    sweep(hands, trace, seats, sides);
}

// What all sides told, and how they ended. Their disks are given back. There is room for the logs.
#[tactic(auto, using(crate::proofs::Ending::has_cause))]
fn end<R: Rack>(
    timer: TimerWorker,
    sides: Vec<CpuSide<'_, R::D>>,
    logs: Vec<CpuJournal>,
    rack: &mut R,
) -> Result<Worked, NoMemory>
    requires stopped { StopsForCause timer.refused sides.items }
    requires unnamed { OutForCause sides.items }
    requires none { logs.items ≡ [] }
    requires room { vec_len logs + vec_len sides ≤ vec_capacity logs }
    ensures told { IfOk result (λ worked. (worked.cpus ≡ logs_of sides.entry.items) × (worked.timer ≡ timer.log.items)) }
    ensures ending { IfOk result (λ worked. EndingIs sides.entry.items (Ok worked.ending) × (timer.refused ≡ false)) }
    ensures given { WereGiven (written_by_all (teams_of R.D.written R.D.faults sides.entry.items)) (faults_by_all (teams_of R.D.written R.D.faults sides.entry.items)) (R.written rack.old) (R.written rack.new) (R.faults rack.old) (R.faults rack.new) }
{
    let ending = ending_of(sides.as_slice());
    let cpus = take_logs(sides, logs, rack);
    let TimerWorker {
        side: _,
        log,
        refused,
        halted: _,
        in_turn: _,
        voice: _,
    } = timer;
    if refused {
        return Err(NoMemory);
    }
    Ok(Worked {
        cpus: Items::from_vec(cpus),
        timer: Items::from_vec(log),
        ending: ending?,
    })
}
