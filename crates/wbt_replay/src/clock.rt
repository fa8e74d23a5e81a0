//! The clock of a run: the next moment at which something ends.

ghost use Rattle.std.specs.Prelude.{◌≡◌, ◌<◌, ◌^◌, None, length};
ghost use Rattle.wbt_replay_order.specs.Definition.Order as spec;
ghost use Rattle.wbt_replay_moves.specs.Seen.{seen};

use wbt_replay_moves::{Flusher, Machine, ReplayPhase, ReplayTask};

/// The clock moves to the next moment at which a rest, a flight or the timer's wait ends, and the rotation starts again.
pub fn move_clock(machine: &mut Machine)
    ensures { seen machine.new ≡ spec.move_clock (seen machine.old) }
{
    if let Some(moment) = next_moment(machine) {
        machine.clock = moment;
        machine.rotation = None;
    }
}

fn next_moment(machine: &Machine) -> Option<u64>
    ensures { result ≡ spec.next_moment (seen machine.now) }
{
    let now = machine.clock;
    let rests = tasks_sooner(now, machine.tasks.as_slice());
    let found = flushers_sooner(now, rests, machine.flushers.as_slice());
    if machine.is_drained() {
        found
    } else {
        sooner(now, found, machine.timer.next)
    }
}

// The next moment at which a task's rest ends.
#[tactic(auto, unfolding(wbt_replay_order::specs::Definition::Order::tasks_sooner))]
fn tasks_sooner(now: u64, tasks: &[ReplayTask]) -> Option<u64>
    ensures { result ≡ spec.tasks_sooner now None tasks.now }
{
    let mut found = None;
    for task in tasks {
        found = task_sooner(now, found, task);
    }
    found
}

fn task_sooner(now: u64, found: Option<u64>, task: &ReplayTask) -> Option<u64>
    ensures { result ≡ spec.task_sooner now found task.now }
{
    if task.ended {
        found
    } else {
        sooner(now, found, task.rest)
    }
}

// The sooner of a moment that was found and the next one at which a flusher's rest or flight ends.
#[tactic(auto, unfolding(wbt_replay_order::specs::Definition::Order::flushers_sooner))]
fn flushers_sooner(now: u64, rests: Option<u64>, flushers: &[Flusher]) -> Option<u64>
    ensures { result ≡ spec.flushers_sooner now rests flushers.now }
{
    let mut found = rests;
    for flusher in flushers {
        found = phase_sooner(now, found, flusher.phase);
    }
    found
}

fn phase_sooner(now: u64, found: Option<u64>, phase: ReplayPhase) -> Option<u64>
    ensures { result ≡ spec.phase_sooner now found phase }
{
    match phase {
        ReplayPhase::Idle { until, .. } | ReplayPhase::Flying { until, .. } => sooner(
            now, found, until,
        ),
        ReplayPhase::Taken { .. } | ReplayPhase::Scanning { .. } | ReplayPhase::Finished => found,
    }
}

// The sooner of a moment that was found and another one, where that is after now.
fn sooner(now: u64, found: Option<u64>, until: u64) -> Option<u64>
    ensures { result ≡ spec.sooner now found until }
{
    if until <= now {
        return found;
    }
    match found {
        None => Some(until),
        Some(moment) => Some(until.min(moment)),
    }
}
