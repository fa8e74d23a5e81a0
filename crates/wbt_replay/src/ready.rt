//! What an actor has to do, and which turn it can begin.

ghost use Rattle.std.specs.Prelude.{◌≡◌, ◌<◌, ◌^◌, ◌+◌, length};
ghost use Rattle.wbt_replay_order.specs.Definition.Order as spec;
ghost use Rattle.wbt_replay_order.specs.Kept.Round.{CanPassAll};
ghost use Rattle.wbt_replay_order.specs.Kept.Seeks.{CanSeek, CanSeekAll, HasJob, seek_actor};
ghost use Rattle.wbt_replay_moves.specs.Definition.State.{cpu_of, task_of, flusher_of, is_drained};
ghost use Rattle.wbt_replay_moves.specs.Seen.{seen};

use wbt_replay_moves::{Actor, Cpu, Machine, ReplayJob, ReplayPhase, TimerTodo, Todo};
use wbt_replay_order::{Ahead, Chance, Found};
use wbt_rules::has_landed;

/// The next actor that can do something, after the one whose turn it was. `round` tells for each place the next one whose CPU has jobs.
pub fn next_actor(machine: &Machine, round: &[u32]) -> Option<Found>
    requires seeks { CanSeekAll (seen machine.now) }
    requires passes { CanPassAll (seen machine.now) round.now }
    ensures { result ≡ seek_actor (seen machine.now) (length (seen machine.now).cpus + 1) (spec.place_after (seen machine.now).rotation (seen machine.now)) }
{
    let count = machine.cpus.len() as u32 + 1;
    seek_actor(
        machine,
        round,
        count,
        place_after(machine, machine.rotation),
    )
}

// Who has a place in the rotation: the CPUs by number, and then the timer.
fn actor_at(machine: &Machine, place: u32) -> Actor
    ensures { result ≡ spec.actor_at place (seen machine.now) }
{
    if (place as usize) < machine.cpus.len() {
        Actor::Cpu(place)
    } else {
        Actor::Timer
    }
}

// The place that comes after a turn. After the timer's, and where it was nobody's, CPU 0 comes.
fn place_after(machine: &Machine, turn: Option<Actor>) -> u32
    requires { length (seen machine.now).cpus < 2 ^ 31 }
    ensures { result ≡ spec.place_after turn (seen machine.now) }
{
    match turn {
        Some(Actor::Cpu(cpu)) if (cpu as usize) < machine.cpus.len() => cpu + 1,
        _ => 0,
    }
}

// The first actor that can do something, of all, from one at a place of the rotation on. Those that are passed over can't.
fn seek_actor(machine: &Machine, round: &[u32], count: u32, from: u32) -> Option<Found>
    requires seeks { CanSeekAll (seen machine.now) }
    requires passes { CanPassAll (seen machine.now) round.now }
    requires count { count ≡ length (seen machine.now).cpus + 1 }
    requires from { from < count }
    ensures { result ≡ seek_actor (seen machine.now) count from }
{
    let mut place = from;
    let mut left = count;
    for _ in 0..count {
        let next = round[place as usize];
        let passed = next - place;
        if passed >= left {
            return None;
        }
        let actor = actor_at(machine, next);
        let chance = chance_of(machine, actor);
        if !is_nothing(chance) {
            return Some(Found { actor, chance });
        }
        place = after(count, next);
        left -= passed + 1;
    }
    None
}

// What an actor can do whose turn comes in the rotation.
fn chance_of(machine: &Machine, actor: Actor) -> Chance
    requires { CanSeekAll (seen machine.now) }
    ensures { result ≡ spec.chance_of actor (seen machine.now) }
{
    match ahead(machine, actor) {
        Ahead::Step | Ahead::Silent => Chance::GoesOn,
        Ahead::Nothing => turn_at(machine, actor),
    }
}

// Whether it can't do anything.
fn is_nothing(chance: Chance) -> bool
    ensures { result ≡ spec.is_nothing chance }
{
    matches!(chance, Chance::Nothing)
}

/// What comes next in the actor's turn. A stopped CPU has nothing to do, nor has the timer in the drain.
#[tactic(auto, using(wbt_replay_order::proofs::Facts::Actors::past_ahead))]
pub fn ahead(machine: &Machine, actor: Actor) -> Ahead
    ensures { result ≡ spec.ahead_of actor (seen machine.now) }
{
    match actor {
        Actor::Cpu(cpu) if (cpu as usize) < machine.cpus.len() => {
            cpu_ahead(&machine.cpus[cpu as usize])
        }
        Actor::Cpu(_) => Ahead::Nothing,
        Actor::Timer => timer_ahead(machine),
    }
}

fn cpu_ahead(at: &Cpu) -> Ahead
    ensures { result ≡ spec.cpu_ahead at.now }
{
    if at.stopped {
        return Ahead::Nothing;
    }
    match at.todo.front() {
        None => Ahead::Nothing,
        Some(Todo::Step(_)) => Ahead::Step,
        Some(Todo::Silent(_)) => Ahead::Silent,
    }
}

fn timer_ahead(machine: &Machine) -> Ahead
    ensures { result ≡ spec.timer_ahead (seen machine.now) }
{
    if machine.is_drained() {
        return Ahead::Nothing;
    }
    match machine.timer.todo.front() {
        None => Ahead::Nothing,
        Some(TimerTodo::Step(_)) => Ahead::Step,
        Some(TimerTodo::Silent(_)) => Ahead::Silent,
    }
}

/// The turn that the actor can begin, which has nothing to do in an earlier one.
pub fn turn_at(machine: &Machine, actor: Actor) -> Chance
    requires { CanSeekAll (seen machine.now) }
    ensures { result ≡ spec.turn_at actor (seen machine.now) }
{
    match actor {
        Actor::Cpu(cpu) if (cpu as usize) < machine.cpus.len() => cpu_turn(machine, cpu),
        Actor::Cpu(_) => Chance::Nothing,
        Actor::Timer => timer_turn(machine),
    }
}

fn timer_turn(machine: &Machine) -> Chance
    ensures { result ≡ spec.timer_turn (seen machine.now) }
{
    if !machine.is_drained() && machine.timer.next <= machine.clock {
        Chance::TimerBegins
    } else {
        Chance::Nothing
    }
}

fn cpu_turn(machine: &Machine, cpu: u32) -> Chance
    requires cpu { cpu < length (seen machine.now).cpus }
    requires seeks { CanSeek (seen machine.now) (cpu_of cpu (seen machine.now)) }
    ensures { result ≡ spec.cpu_turn (cpu_of cpu (seen machine.now)) (seen machine.now) }
{
    if machine.cpus[cpu as usize].stopped {
        return Chance::Nothing;
    }
    seek_job(machine, &machine.cpus[cpu as usize])
}

// The CPU's next job that is ready, from the job after that of its last turn.
fn seek_job(machine: &Machine, at: &Cpu) -> Chance
    requires { CanSeek (seen machine.now) at.now }
    ensures { result ≡ spec.seek_job at.now (seen machine.now) (length at.now.jobs) at.now.next }
{
    let jobs = at.jobs.as_slice();
    let count = jobs.len() as u32;
    let mut place = at.next;
    for _ in 0..count {
        let found = job_turn(machine, at, place, jobs[place as usize]);
        if !is_nothing(found) {
            return found;
        }
        place = after(count, place);
    }
    Chance::Nothing
}

// The turn that the job can begin, which has this place among the CPU's.
fn job_turn(machine: &Machine, at: &Cpu, place: u32, job: ReplayJob) -> Chance
    requires seeks { CanSeek (seen machine.now) at.now }
    requires job { HasJob (seen machine.now) job }
    ensures { result ≡ spec.job_turn at.now (seen machine.now) place job }
{
    match job {
        ReplayJob::Writer => task_turn(machine, at, place),
        ReplayJob::Flusher { flusher } => {
            if is_flusher_ready(machine, flusher) {
                Chance::Begins {
                    job: place,
                    place: 0,
                }
            } else {
                Chance::Nothing
            }
        }
    }
}

// The turn of the CPU's next task that is ready, from the task after that of its last turn.
fn task_turn(machine: &Machine, at: &Cpu, job: u32) -> Chance
    requires { CanSeek (seen machine.now) at.now }
    ensures { result ≡ spec.task_turn job at.now.tasks (seen machine.now) (length at.now.tasks) at.now.next_task }
{
    let tasks = at.tasks.as_slice();
    let count = tasks.len() as u32;
    let mut place = at.next_task;
    for _ in 0..count {
        if is_task_ready(machine, tasks[place as usize]) {
            return Chance::Begins { job, place };
        }
        place = after(count, place);
    }
    Chance::Nothing
}

fn is_task_ready(machine: &Machine, task: u32) -> bool
    requires { task < length (seen machine.now).tasks }
    ensures { result ≡ spec.is_task_ready (seen machine.now).now (task_of task (seen machine.now)) }
{
    let at = &machine.tasks[task as usize];
    !at.ended && at.rest <= machine.clock
}

// Whether the flusher can take a turn now. In the drain it drops a rest that isn't kept.
fn is_flusher_ready(machine: &Machine, flusher: u32) -> bool
    requires { flusher < length (seen machine.now).flushers }
    ensures { result ≡ spec.is_phase_ready (flusher_of flusher (seen machine.now)).phase (is_drained (seen machine.now)) (seen machine.now).now }
{
    match machine.phase(flusher) {
        ReplayPhase::Idle { until, kept } => {
            until <= machine.clock || (machine.is_drained() && !kept)
        }
        ReplayPhase::Taken { .. } | ReplayPhase::Scanning { .. } => true,
        ReplayPhase::Flying { until, .. } => has_landed(until, machine.clock),
        ReplayPhase::Finished => false,
    }
}

/// The number after this one, where so many go round.
pub fn after(count: u32, n: u32) -> u32
    requires { n < 2 ^ 31 }
    ensures { result ≡ spec.after count n }
{
    if n + 1 < count { n + 1 } else { 0 }
}
