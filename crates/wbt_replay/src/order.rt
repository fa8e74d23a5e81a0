//! The order of a run: who makes the next move, and when the run ends.

ghost use Rattle.std.specs.Prelude.{◌≡◌, ◌<◌, ◌^◌, ◌≤◌, length, drop, OnOk, Some};
ghost use Rattle.wbt_num.specs.Front.{first};
ghost use Rattle.wbt_replay_order.specs.Definition.Order as spec;
ghost use Rattle.wbt_replay_order.specs.Kept.Facts.{Facts};
ghost use Rattle.wbt_replay_order.specs.Kept.Round.{IsRound};
ghost use Rattle.wbt_replay_order.specs.Kept.Sound.{Sound, HasRoom};
ghost use Rattle.wbt_replay_moves.specs.Seen.{seen};

use crate::clock::move_clock;
use crate::ready::{ahead, next_actor, turn_at};
use crate::turns::{begin, go_on};
use std::alloc::AllocError;
use wbt_replay_moves::{Actor, Machine, Stretch};
use wbt_replay_order::{Ahead, Chance};
use wbt_trace::Trace;

// The most moves of a run.
const MOST_MOVES: u64 = 1 << 40;

/// Makes moves until the run has ended. `round` tells for each place of the rotation the next one whose CPU has jobs.
pub fn run(machine: &mut Machine, trace: &Trace, round: &[u32]) -> Result<(), AllocError>
    requires facts { Facts trace.now }
    requires sound { Sound trace.now (seen machine.old) }
    requires room { HasRoom trace.now (seen machine.old) }
    requires round { IsRound trace.now round.now }
    ensures { OnOk result (seen machine.new ≡ spec.run trace.now (2 ^ 40) (seen machine.old)) }
{
    for _ in 0..MOST_MOVES {
        if is_ended(machine) {
            return Ok(());
        }
        advance(machine, trace, round)?;
    }
    Ok(())
}

/// Whether the run has ended: every CPU is stopped, or all tasks have ended and the flushers of all other CPUs are finished, or a step was
/// to be made after the last one that the run may have.
pub fn is_ended(machine: &Machine) -> bool
    ensures { result ≡ spec.is_ended (seen machine.now) }
{
    machine.spent
        || machine.stopped == machine.cpus.len() as u64
        || (machine.running == 0 && machine.working == 0)
}

/// Makes the next move of a run that hasn't ended: a step of an actor's turn, a move between two steps, the beginning of a turn, or a move
/// of the clock. It goes by the order lines as long as one is left, and then by rotation. `round` tells for each place of the rotation
/// the next one whose CPU has jobs.
///
/// It fails where memory is refused.
pub fn advance(machine: &mut Machine, trace: &Trace, round: &[u32]) -> Result<(), AllocError>
    requires facts { Facts trace.now }
    requires sound { Sound trace.now (seen machine.old) }
    requires room { HasRoom trace.now (seen machine.old) }
    requires round { IsRound trace.now round.now }
    ensures { OnOk result (seen machine.new ≡ spec.advance trace.now (seen machine.old)) }
{
    match machine.orders.front() {
        None => rotate(machine, trace, round),
        Some(Stretch::Tick { ticks }) => {
            let _tick = machine.orders.pop_front();
            machine.clock += ticks;
            Ok(())
        }
        Some(Stretch::Steps { actor, steps }) => follow(machine, trace, actor, steps),
    }
}

// The actor of the first order line goes on, or the line is done.
fn follow(machine: &mut Machine, trace: &Trace, actor: Actor, steps: u64) -> Result<(), AllocError>
    requires facts { Facts trace.now }
    requires sound { Sound trace.now (seen machine.old) }
    requires room { HasRoom trace.now (seen machine.old) }
    requires first { first (seen machine.old).orders ≡ Some (Stretch.Steps actor steps) }
    ensures { OnOk result (seen machine.new ≡ spec.advance trace.now (seen machine.old)) }
{
    match ahead(machine, actor) {
        Ahead::Silent => go_on(machine, trace, actor),
        Ahead::Step => {
            let _line = machine.orders.pop_front();
            if steps == 0 {
                return Ok(());
            }
            machine.orders.push_front(Stretch::Steps {
                actor,
                steps: steps - 1,
            })?;
            go_on(machine, trace, actor)
        }
        Ahead::Nothing => {
            if steps == 0 {
                let _line = machine.orders.pop_front();
                return Ok(());
            }
            begin_or_drop(machine, trace, actor)
        }
    }
}

// The actor begins a turn, or the first order line is done.
fn begin_or_drop(machine: &mut Machine, trace: &Trace, actor: Actor) -> Result<(), AllocError>
    requires facts { Facts trace.now }
    requires sound { Sound trace.now (seen machine.old) }
    requires room { HasRoom trace.now (seen machine.old) }
    ensures { OnOk result (seen machine.new ≡ spec.begin_or_drop trace.now actor (spec.turn_at actor (seen machine.old)) (drop 1 (seen machine.old).orders) (seen machine.old)) }
{
    match turn_at(machine, actor) {
        Chance::Nothing => {
            let _line = machine.orders.pop_front();
            Ok(())
        }
        Chance::GoesOn => go_on(machine, trace, actor),
        Chance::Begins { job, place } => begin(machine, trace, actor, job, place),
        Chance::TimerBegins => machine.begin_timer(),
    }
}

// The actor whose turn it is finishes it before the next one has its own.
fn rotate(machine: &mut Machine, trace: &Trace, round: &[u32]) -> Result<(), AllocError>
    requires facts { Facts trace.now }
    requires sound { Sound trace.now (seen machine.old) }
    requires room { HasRoom trace.now (seen machine.old) }
    requires round { IsRound trace.now round.now }
    ensures { OnOk result (seen machine.new ≡ spec.rotate trace.now (seen machine.old)) }
{
    match machine.rotation {
        None => next_turn(machine, trace, round),
        Some(actor) => finish_turn(machine, trace, round, actor),
    }
}

fn finish_turn(
    machine: &mut Machine,
    trace: &Trace,
    round: &[u32],
    actor: Actor,
) -> Result<(), AllocError>
    requires facts { Facts trace.now }
    requires sound { Sound trace.now (seen machine.old) }
    requires room { HasRoom trace.now (seen machine.old) }
    requires round { IsRound trace.now round.now }
    ensures { OnOk result (seen machine.new ≡ spec.finish_turn trace.now actor (spec.ahead_of actor (seen machine.old)) (seen machine.old)) }
{
    match ahead(machine, actor) {
        Ahead::Step | Ahead::Silent => go_on(machine, trace, actor),
        Ahead::Nothing => next_turn(machine, trace, round),
    }
}

// The next actor that can goes on. Where none can, the clock moves.
fn next_turn(machine: &mut Machine, trace: &Trace, round: &[u32]) -> Result<(), AllocError>
    requires facts { Facts trace.now }
    requires sound { Sound trace.now (seen machine.old) }
    requires room { HasRoom trace.now (seen machine.old) }
    requires round { IsRound trace.now round.now }
    ensures { OnOk result (seen machine.new ≡ spec.next_turn trace.now (seen machine.old)) }
{
    match next_actor(machine, round) {
        None => {
            move_clock(machine);
            Ok(())
        }
        Some(found) => {
            machine.rotation = Some(found.actor);
            take(machine, trace, found.actor, found.chance)
        }
    }
}

fn take(
    machine: &mut Machine,
    trace: &Trace,
    actor: Actor,
    chance: Chance,
) -> Result<(), AllocError>
    requires facts { Facts trace.now }
    requires sound { Sound trace.now (seen machine.old) }
    requires room { HasRoom trace.now (seen machine.old) }
    requires found { spec.chance_of actor (seen machine.old) ≡ chance }
    ensures { OnOk result (seen machine.new ≡ spec.take trace.now actor chance (seen machine.old)) }
{
    match chance {
        Chance::Nothing => Ok(()),
        Chance::GoesOn => go_on(machine, trace, actor),
        Chance::Begins { job, place } => begin(machine, trace, actor, job, place),
        Chance::TimerBegins => machine.begin_timer(),
    }
}
