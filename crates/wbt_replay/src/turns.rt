//! The moves of an actor: it begins a turn, and goes on with it.

ghost use Rattle.std.specs.Prelude.{◌≡◌, ◌≢◌, ◌<◌, ◌≤◌, ◌^◌, false, length, count_by, get_or, All, OnOk, Some};
ghost use Rattle.wbt_num.specs.Front.{first};
ghost use Rattle.wbt_replay_order.specs.Definition.Order as spec;
ghost use Rattle.wbt_replay_order.specs.Kept.Facts.{Facts};
ghost use Rattle.wbt_replay_order.specs.Kept.Seeks.{HasJob, JobBegins};
ghost use Rattle.wbt_replay_order.specs.Kept.Sound.{Sound, HasRoom};
ghost use Rattle.wbt_replay_moves.specs.Definition.State.{cpu_of, with_cpu};
ghost use Rattle.wbt_replay_moves.specs.Seen.{seen};

use crate::ready::after;
use std::alloc::AllocError;
use wbt_replay_moves::{Actor, Machine, ReplayJob, ReplayPhase, Step, TimerTodo, Todo, Whose};
use wbt_replay_order::{Ahead, Chance};
use wbt_trace::Trace;

/// The actor begins a turn of a job. The timer has none.
pub fn begin(
    machine: &mut Machine,
    trace: &Trace,
    actor: Actor,
    job: u32,
    place: u32,
) -> Result<(), AllocError>
    requires facts { Facts trace.now }
    requires sound { Sound trace.now (seen machine.old) }
    requires found { spec.turn_at actor (seen machine.old) ≡ Chance.Begins job place }
    ensures { OnOk result (seen machine.new ≡ spec.begin trace.now actor job place (seen machine.old)) }
{
    match actor {
        Actor::Cpu(cpu) => {
            let taken = take_job(machine, cpu, job);
            begin_job(machine, trace, cpu, place, taken)
        }
        Actor::Timer => Ok(()),
    }
}

// The CPU's job at the place, after which the next one is sought.
fn take_job(machine: &mut Machine, cpu: u32, place: u32) -> ReplayJob
    requires cpu { cpu < length (seen machine.old).cpus }
    requires place { place < length (cpu_of cpu (seen machine.old)).jobs }
    requires few { length (cpu_of cpu (seen machine.old)).jobs < 2 ^ 31 }
    ensures job { result ≡ spec.job_at place (cpu_of cpu (seen machine.old)) }
    ensures next { seen machine.new ≡ with_cpu cpu (record (cpu_of cpu (seen machine.old)) { next = spec.after (length (cpu_of cpu (seen machine.old)).jobs) place }) (seen machine.old) }
{
    let at = &mut machine.cpus[cpu as usize];
    let jobs = at.jobs.as_slice();
    let job = jobs[place as usize];
    let count = jobs.len() as u32;
    at.next = after(count, place);
    job
}

// The CPU begins a turn of the job, or of the task at the place among its tasks.
fn begin_job(
    machine: &mut Machine,
    trace: &Trace,
    cpu: u32,
    place: u32,
    job: ReplayJob,
) -> Result<(), AllocError>
    requires cpu { cpu < length (seen machine.old).cpus }
    requires fits { JobBegins trace.now cpu place job (seen machine.old) }
    ensures { OnOk result (seen machine.new ≡ spec.begin_job trace.now cpu place job (cpu_of cpu (seen machine.old)) (seen machine.old)) }
{
    match job {
        ReplayJob::Flusher { flusher } => machine.begin_turn(
            trace,
            cpu,
            Whose::Flusher { flusher },
        ),
        ReplayJob::Writer => {
            let task = take_task(machine, cpu, place);
            machine.begin_turn(trace, cpu, Whose::Task { task })
        }
    }
}

// The CPU's task at the place, after which the next one is sought.
fn take_task(machine: &mut Machine, cpu: u32, place: u32) -> u32
    requires cpu { cpu < length (seen machine.old).cpus }
    requires place { place < length (cpu_of cpu (seen machine.old)).tasks }
    requires few { length (cpu_of cpu (seen machine.old)).tasks < 2 ^ 31 }
    ensures task { result ≡ get_or (cpu_of cpu (seen machine.old)).tasks place 0 }
    ensures next { seen machine.new ≡ with_cpu cpu (record (cpu_of cpu (seen machine.old)) { next_task = spec.after (length (cpu_of cpu (seen machine.old)).tasks) place }) (seen machine.old) }
{
    let at = &mut machine.cpus[cpu as usize];
    let tasks = at.tasks.as_slice();
    let task = tasks[place as usize];
    let count = tasks.len() as u32;
    at.next_task = after(count, place);
    task
}

/// The actor makes the next move of its turn.
pub fn go_on(machine: &mut Machine, trace: &Trace, actor: Actor) -> Result<(), AllocError>
    requires facts { Facts trace.now }
    requires sound { Sound trace.now (seen machine.old) }
    requires room { HasRoom trace.now (seen machine.old) }
    requires going { spec.ahead_of actor (seen machine.old) ≢ Ahead.Nothing }
    ensures { OnOk result (seen machine.new ≡ spec.go_on trace.now actor (seen machine.old)) }
{
    match actor {
        Actor::Cpu(cpu) => cpu_on(machine, trace, cpu),
        Actor::Timer => timer_on(machine, trace),
    }
}

fn cpu_on(machine: &mut Machine, trace: &Trace, cpu: u32) -> Result<(), AllocError>
    requires facts { Facts trace.now }
    requires sound { Sound trace.now (seen machine.old) }
    requires room { HasRoom trace.now (seen machine.old) }
    requires cpu { cpu < trace.now.cpus }
    requires live { (cpu_of cpu (seen machine.old)).stopped ≡ false }
    ensures { OnOk result (seen machine.new ≡ spec.cpu_on trace.now cpu (cpu_of cpu (seen machine.old)).todo (seen machine.old)) }
{
    match machine.cpus[cpu as usize].todo.front() {
        None => Ok(()),
        Some(Todo::Silent(item)) => {
            let _item = machine.cpus[cpu as usize].todo.pop_front();
            machine.make_move(trace, cpu, item)
        }
        Some(Todo::Step(step)) => step_or_stop(machine, trace, cpu, step),
    }
}

// The CPU makes its step, unless its halt line stops it or no further step may be made. A CPU that is stopped makes none, so a
// full run isn't spent by it.
fn step_or_stop(
    machine: &mut Machine,
    trace: &Trace,
    cpu: u32,
    step: Step,
) -> Result<(), AllocError>
    requires facts { Facts trace.now }
    requires sound { Sound trace.now (seen machine.old) }
    requires room { HasRoom trace.now (seen machine.old) }
    requires cpu { cpu < trace.now.cpus }
    requires live { (cpu_of cpu (seen machine.old)).stopped ≡ false }
    requires next { first (cpu_of cpu (seen machine.old)).todo ≡ Some (Todo.Step step) }
    ensures { OnOk result (seen machine.new ≡ spec.cpu_on trace.now cpu (cpu_of cpu (seen machine.old)).todo (seen machine.old)) }
{
    if is_halted(trace, machine.cpus[cpu as usize].made) {
        stop(machine, cpu);
        return Ok(());
    }
    if is_full(machine) {
        machine.spent = true;
        return Ok(());
    }
    let at = &mut machine.cpus[cpu as usize];
    let _item = at.todo.pop_front();
    at.made += 1;
    machine.make_step(trace, cpu, step)
}

// No further step may be made.
fn is_full(machine: &Machine) -> bool
    ensures { result ≡ spec.is_full (seen machine.now) }
{
    machine.steps.is_at_least(machine.most)
}

// Whether a CPU that has made so many steps makes no more.
fn is_halted(trace: &Trace, made: u64) -> bool
    ensures { result ≡ spec.is_halted trace.now.halt made }
{
    match trace.halt {
        None => false,
        Some(most) => most <= made,
    }
}

// The CPU is stopped, with its flushers.
fn stop(machine: &mut Machine, cpu: u32)
    requires cpu { cpu < length (seen machine.old).cpus }
    requires jobs { All (HasJob (seen machine.old)) (cpu_of cpu (seen machine.old)).jobs }
    requires few { length (cpu_of cpu (seen machine.old)).jobs < 2 ^ 31 }
    requires stopped { (seen machine.old).stopped < 2 ^ 63 }
    requires working { count_by (spec.is_working (seen machine.old)) (cpu_of cpu (seen machine.old)).jobs ≤ (seen machine.old).working }
    ensures { seen machine.new ≡ spec.stop cpu (seen machine.old) }
{
    let working = working_on(machine, machine.cpus[cpu as usize].jobs.as_slice());
    machine.cpus[cpu as usize].stopped = true;
    machine.stopped += 1;
    machine.working -= working;
}

// How many flushers of the jobs aren't finished.
fn working_on(machine: &Machine, jobs: &[ReplayJob]) -> u64
    requires jobs { All (HasJob (seen machine.now)) jobs.now }
    requires few { length jobs.now < 2 ^ 31 }
    ensures { result ≡ count_by (spec.is_working (seen machine.now)) jobs.now }
{
    let mut count = 0u64;
    for job in jobs {
        if is_working(machine, *job) {
            count += 1;
        }
    }
    count
}

fn is_working(machine: &Machine, job: ReplayJob) -> bool
    requires { HasJob (seen machine.now) job }
    ensures { result ≡ spec.is_working (seen machine.now) job }
{
    match job {
        ReplayJob::Writer => false,
        ReplayJob::Flusher { flusher } => !is_finished(machine.phase(flusher)),
    }
}

fn is_finished(phase: ReplayPhase) -> bool
    ensures { result ≡ spec.is_finished phase }
{
    matches!(phase, ReplayPhase::Finished)
}

// The timer makes the next move of its turn.
fn timer_on(machine: &mut Machine, trace: &Trace) -> Result<(), AllocError>
    requires facts { Facts trace.now }
    requires sound { Sound trace.now (seen machine.old) }
    ensures { OnOk result (seen machine.new ≡ spec.timer_on trace.now (seen machine.old).timer.todo (seen machine.old)) }
{
    match machine.timer.todo.front() {
        None => Ok(()),
        Some(TimerTodo::Silent(item)) => {
            let _item = machine.timer.todo.pop_front();
            machine.make_timer_move(item)
        }
        Some(TimerTodo::Step(step)) => {
            if is_full(machine) {
                machine.spent = true;
                return Ok(());
            }
            let _item = machine.timer.todo.pop_front();
            machine.make_timer_step(trace, step)
        }
    }
}
