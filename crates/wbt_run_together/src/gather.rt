//! Workers in parts: their sides in order, and their seats together.

ghost use Rattle.std.specs.Prelude.{◌≡◌, ◌+◌, ◌++◌, ◌≤◌, length};
ghost use Rattle.std.specs.Vec.{vec_capacity, vec_len};
ghost use Rattle.std.specs.Vec.Iter.{into_iter_items, into_iter_len};
ghost use Rattle.wbt_run_seats.specs.Together.{AreTogether};
ghost use Rattle.wbt_kit.specs.Kit.{AreSeatsOf};
ghost use Rattle.wbt_journal.specs.Each.{Each};
ghost use Rattle.wbt_run_together.specs.Gather.{AllAtKit, CameTogether, seats_of, sides_of};
ghost use Rattle.wbt_run_first.specs.Voiced.{all_voices, voices_of};
ghost use Rattle.wbt_signals.specs.Signals.{both_voices};

use std::sync::Wait;
use std::vec::IntoIter;
use wbt_io::Disk;
use wbt_kit::{Kit, Seats};
use wbt_run_worker::{Condition, CpuSide, Worker};
use wbt_signals::Voice;

/// Parts the workers: adds their sides in order, and the first one's seats take in those of the others. There is room for the sides.
/// The voice takes in theirs. It may wait for a thread that is about to publish.
pub fn part_workers<'t, R: Wait, D: Disk>(
    rt: &R,
    kit: &Kit,
    mut workers: Vec<Worker<'t, D>>,
    sides: &mut Vec<CpuSide<'t, D>>,
    condition: &Condition,
    voice: &mut Voice,
) -> Seats
    requires some { 1 ≤ vec_len workers }
    requires seats { AllAtKit kit.now workers.items }
    requires room { vec_len sides.old + vec_len workers ≤ vec_capacity sides.old }
    requires voices { (voice.old.signals ≡ condition.now.signals) × Each (λ known. known.signals ≡ condition.now.signals) (voices_of workers.items) }
    ensures sides { sides.new.items ≡ sides.old.items ++ sides_of workers.entry.items }
    ensures together { CameTogether kit.now workers.entry.items result }
    ensures voice { voice.new ≡ all_voices voice.old (voices_of workers.entry.items) }
{
    let Worker {
        seats,
        side,
        voice: its,
        writes: _,
        in_turn: _,
    } = workers.remove(0);
    let others = workers.into_iter();
    take_in(condition, voice, its);
    sides.push_reserved(side);
    part_others(rt, kit, seats, others, sides, condition, voice)
}

// The seats take in those of other workers.
fn part_others<'t, R: Wait, D: Disk>(
    rt: &R,
    kit: &Kit,
    seats: Seats,
    mut rest: IntoIter<Worker<'t, D>>,
    sides: &mut Vec<CpuSide<'t, D>>,
    condition: &Condition,
    voice: &mut Voice,
) -> Seats
    requires seats { AreSeatsOf kit.now seats }
    requires others { AllAtKit kit.now (into_iter_items rest) }
    requires many { into_iter_len rest ≡ length (into_iter_items rest) }
    requires room { vec_len sides.old + into_iter_len rest ≤ vec_capacity sides.old }
    requires voices { (voice.old.signals ≡ condition.now.signals) × Each (λ known. known.signals ≡ condition.now.signals) (voices_of (into_iter_items rest)) }
    ensures sides { sides.new.items ≡ sides.old.items ++ sides_of (into_iter_items rest.entry) }
    ensures together { AreTogether kit.now seats (seats_of (into_iter_items rest.entry)) result }
    ensures voice { voice.new ≡ all_voices voice.old (voices_of (into_iter_items rest.entry)) }
{
    let mut all = seats;
    while let Some(worker) = rest.next() {
        let Worker {
            seats,
            side,
            voice: its,
            writes: _,
            in_turn: _,
        } = worker;
        kit.join(rt, &mut all, seats);
        take_in(condition, voice, its);
        sides.push_reserved(side);
    }
    rest.destroy_empty();
    all
}

// The voice takes in another one.
fn take_in(condition: &Condition, voice: &mut Voice, its: Voice)
    requires voices { (voice.old.signals ≡ condition.now.signals) × (its.signals ≡ condition.now.signals) }
    ensures { voice.new ≡ both_voices voice.old its }
{
    condition.signals.join(voice, its);
}
