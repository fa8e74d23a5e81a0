//! Turns of a CPU's side, each from where the one before it left the side and its seats.

ghost use Rattle.std.specs.Prelude.{IfOk};
ghost use Rattle.wbt_run_worker.specs.Side.{IsSide};
ghost use Rattle.wbt_run_worker.specs.Team.{team_of};

use crate::moves::{By, Move};
use std::sync::Wait;
use wbt_io::{Clock, Disk, Gate, NoMemory};
use wbt_kit::{Hands, Seats, Turn};
use wbt_run_worker::CpuSide;

// A turn of the writers. Err where no turn may follow.
fn turn_writers<H: Wait, C: Clock, G: Gate, D: Disk>(
    hands: &Hands<H, C, G>,
    side: &mut CpuSide<'_, D>,
    seats: &mut Seats,
) -> Result<Turn, Turn>
    requires side { IsSide side.old.writers.trace side.old.writers.cpu hands.now.kit.now (team_of D.written D.faults side.old) seats.old }
    ensures side { IfOk result (λ _. IsSide side.new.writers.trace side.new.writers.cpu hands.now.kit.now (team_of D.written D.faults side.new) seats.new) }
{
    let turn = side.writers.turn(hands, seats, &mut side.log);
    match turn {
        Turn::Stepped => Ok(turn),
        Turn::Resting { now: _, until: _ } => Ok(turn),
        Turn::Done => Ok(turn),
        Turn::Halted | Turn::Faulted | Turn::Spent | Turn::NoMemory => Err(turn),
    }
}

// A turn of the first flusher.
fn turn_flusher<H: Wait, C: Clock, G: Gate, D: Disk>(
    hands: &Hands<H, C, G>,
    side: &mut CpuSide<'_, D>,
    seats: &mut Seats,
    drain: bool,
) -> Result<Turn, Turn>
    requires side { IsSide side.old.writers.trace side.old.writers.cpu hands.now.kit.now (team_of D.written D.faults side.old) seats.old }
    ensures side { IfOk result (λ _. IsSide side.new.writers.trace side.new.writers.cpu hands.now.kit.now (team_of D.written D.faults side.new) seats.new) }
{
    if side.posts.as_slice().is_empty() {
        return Err(Turn::Done);
    }
    let post = &mut side.posts[0];
    let turn = post.flusher.turn(hands, seats, drain, &mut side.log);
    match turn {
        Turn::Stepped => Ok(turn),
        Turn::Resting { now: _, until: _ } => Ok(turn),
        Turn::Done => Ok(turn),
        Turn::Halted | Turn::Faulted | Turn::Spent | Turn::NoMemory => Err(turn),
    }
}

fn make_move<H: Wait, C: Clock, G: Gate, D: Disk>(
    hands: &Hands<H, C, G>,
    side: &mut CpuSide<'_, D>,
    seats: &mut Seats,
    next: Move,
) -> Result<Turn, Turn>
    requires side { IsSide side.old.writers.trace side.old.writers.cpu hands.now.kit.now (team_of D.written D.faults side.old) seats.old }
    ensures side { IfOk result (λ _. IsSide side.new.writers.trace side.new.writers.cpu hands.now.kit.now (team_of D.written D.faults side.new) seats.new) }
{
    hands.clock.rest(next.rest);
    match next.by {
        By::Writers => turn_writers(hands, side, seats),
        By::Flusher => turn_flusher(hands, side, seats, false),
        By::Drain => turn_flusher(hands, side, seats, true),
    }
}

// One turn after another, as long as one may follow.
pub(super) fn make_moves<H: Wait, C: Clock, G: Gate, D: Disk>(
    hands: &Hands<H, C, G>,
    side: &mut CpuSide<'_, D>,
    seats: &mut Seats,
    moves: &[Move],
) -> Result<Vec<Turn>, NoMemory>
    requires side { IsSide side.old.writers.trace side.old.writers.cpu hands.now.kit.now (team_of D.written D.faults side.old) seats.old }
{
    let mut turns = Vec::new(hands.alloc);
    'moves: for next in moves {
        match make_move(hands, side, seats, *next) {
            Ok(turn) => turns.push(turn)?,
            Err(turn) => {
                turns.push(turn)?;
                return Ok(turns);
            }
        }
    }
    Ok(turns)
}
