//! By how much the moments of a run may still grow, and the latest of them.

ghost use Rattle.std.specs.Prelude.{◌≡◌, ◌<◌, ◌^◌, true, List, [], ◌∷◌, ◌++◌, sum_by, IfOk, OnOk};
ghost use Rattle.wbt_forecast.specs.Ticks as next_credit;
ghost use Rattle.wbt_replay_order.specs.Definition.Order.{is_full};
ghost use Rattle.wbt_replay_order.specs.Kept.Further as further;
ghost use Rattle.wbt_replay_order.specs.Kept.Horizon as spec;
ghost use Rattle.wbt_replay_order.specs.Kept.Sound.{Sound};
ghost use Rattle.wbt_replay_moves.specs.Seen.{seen};
ghost use Rattle.wbt_replay_moves.specs.declared.state.ReplayWork.{ReplayWork as WorkValue};
ghost use Rattle.wbt_replay_moves.specs.declared.state.Stretch.{Stretch as LineValue};

use std::alloc::AllocError;
use wbt_num::Queue;
use wbt_replay_moves::{
    Cpu, Flusher, Machine, ReplayPhase, ReplayTask, ReplayWork, Silent, Stretch, TimerTodo, Todo,
};
use wbt_trace::{Pace, Trace};

// By how many ticks a silent move may put a moment later: 2^31.
const SILENT_TICKS: u64 = 1 << 31;

/// The latest moment of a state: this one, or one that a task, a flusher or the timer waits for.
pub fn latest_moment(machine: &Machine) -> u64
    ensures { result ≡ further.latest_moment (seen machine.now) }
{
    let moment = machine.clock.max(machine.timer.next);
    let rests = after_rests(moment, machine.tasks.as_slice());
    after_waits(rests, machine.flushers.as_slice())
}

fn after_rests(moment: u64, tasks: &[ReplayTask]) -> u64
    ensures { result ≡ further.after_rests moment tasks.now }
{
    let mut latest = moment;
    for task in tasks {
        latest = latest.max(task.rest);
    }
    latest
}

fn after_waits(moment: u64, flushers: &[Flusher]) -> u64
    ensures { result ≡ further.after_waits moment flushers.now }
{
    let mut latest = moment;
    for flusher in flushers {
        latest = latest.max(until_of(flusher.phase));
    }
    latest
}

// The moment that a flusher waits for.
fn until_of(phase: ReplayPhase) -> u64
    ensures { result ≡ spec.until_of phase }
{
    match phase {
        ReplayPhase::Idle { until, .. } | ReplayPhase::Flying { until, .. } => until,
        ReplayPhase::Taken { .. } | ReplayPhase::Scanning { .. } | ReplayPhase::Finished => 0,
    }
}

/// By how many ticks the moments of a state may still grow, where no step is left. Only the contract speaks of the trace.
///
/// It fails where memory is refused.
pub fn reserve(machine: &mut Machine, trace: &Trace) -> Result<u64, AllocError>
    requires sound { Sound trace.now (seen machine.old) }
    requires full { is_full (seen machine.old) ≡ true }
    ensures answer { IfOk result (λ ticks. ticks ≡ spec.reserve (seen machine.old)) }
    ensures same { OnOk result (seen machine.new ≡ seen machine.old) }
{
    let orders = orders_left(&mut machine.orders)?;
    let rests = rests_left(&mut machine.tasks)?;
    let credits = credits_of(&machine.cpus);
    let next = machine.timer.todo.front();
    let credit = timer_credit_at(next);
    Ok(orders + rests + credits + credit)
}

// The ticks of all order lines. Each line goes behind the others in its turn, so that they stand as before.
fn orders_left(orders: &mut Queue<Stretch>) -> Result<u64, AllocError>
    requires { sum_by spec.ticks_of orders.old < 2 ^ 64 }
    ensures answer { IfOk result (λ ticks. ticks ≡ sum_by spec.ticks_of orders.old) }
    ensures same { OnOk result (orders.new ≡ orders.old) }
{
    let mut ticks = 0;
    for _line in 0..orders.len() {
        let more = turn_line(orders)?;
        ticks += more;
    }
    Ok(ticks)
}

// The first line goes behind the others, and its ticks are told.
fn turn_line(orders: &mut Queue<Stretch>) -> Result<u64, AllocError>
    ensures { (line : LineValue) (more : List LineValue) → orders.old ≡ line ∷ more → IfOk result (λ ticks. (ticks ≡ spec.ticks_of line) × (orders.new ≡ more ++ line ∷ [])) }
{
    match orders.pop_front() {
        None => Ok(0),
        Some(line) => {
            orders.push_back(line)?;
            Ok(ticks_of(line))
        }
    }
}

fn ticks_of(line: Stretch) -> u64
    ensures { result ≡ spec.ticks_of line }
{
    match line {
        Stretch::Steps { .. } => 0,
        Stretch::Tick { ticks } => ticks,
    }
}

// The ticks of all rests that tasks still take.
fn rests_left(tasks: &mut [ReplayTask]) -> Result<u64, AllocError>
    requires { sum_by spec.rests_of tasks.old < 2 ^ 64 }
    ensures answer { IfOk result (λ ticks. ticks ≡ sum_by spec.rests_of tasks.old) }
    ensures same { OnOk result (tasks.new ≡ tasks.old) }
{
    let mut ticks = 0;
    for task in tasks.iter_mut() {
        let more = task_rests(task)?;
        ticks += more;
    }
    Ok(ticks)
}

// Those of a task, with the rest for its pace that comes next.
fn task_rests(task: &mut ReplayTask) -> Result<u64, AllocError>
    requires { spec.rests_of task.old < 2 ^ 64 }
    ensures answer { IfOk result (λ ticks. ticks ≡ spec.rests_of task.old) }
    ensures same { OnOk result (task.new ≡ task.old) }
{
    let rests = works_left(&mut task.works)?;
    let pause = pause_ticks(task.pace, task.since);
    Ok(rests + pause)
}

// The ticks of the rests among these works, each of which goes behind the others in its turn.
fn works_left(works: &mut Queue<ReplayWork>) -> Result<u64, AllocError>
    requires { sum_by spec.rest_of works.old < 2 ^ 64 }
    ensures answer { IfOk result (λ ticks. ticks ≡ sum_by spec.rest_of works.old) }
    ensures same { OnOk result (works.new ≡ works.old) }
{
    let mut ticks = 0;
    for _work in 0..works.len() {
        let more = turn_work(works)?;
        ticks += more;
    }
    Ok(ticks)
}

fn turn_work(works: &mut Queue<ReplayWork>) -> Result<u64, AllocError>
    ensures { (work : WorkValue) (more : List WorkValue) → works.old ≡ work ∷ more → IfOk result (λ ticks. (ticks ≡ spec.rest_of work) × (works.new ≡ more ++ work ∷ [])) }
{
    match works.pop_front() {
        None => Ok(0),
        Some(work) => {
            works.push_back(work)?;
            Ok(rest_of(work))
        }
    }
}

fn rest_of(work: ReplayWork) -> u64
    ensures { result ≡ spec.rest_of work }
{
    match work {
        ReplayWork::Write { .. } => 0,
        ReplayWork::Rest { ticks } => ticks,
    }
}

fn pause_ticks(pace: Option<Pace>, since: u32) -> u64
    ensures { result ≡ spec.pause_ticks pace since }
{
    match pace {
        None => 0,
        Some(pace) => { if since == 0 { 0 } else { pace.ticks } }
    }
}

// What was paid for the CPUs' next silent moves.
fn credits_of(cpus: &[Cpu]) -> u64
    requires { sum_by spec.credit_of cpus.now < 2 ^ 64 }
    ensures { result ≡ sum_by spec.credit_of cpus.now }
{
    let mut ticks = 0;
    for cpu in cpus {
        let next = cpu.todo.front();
        let credit = credit_at(next);
        ticks += credit;
    }
    ticks
}

fn credit_at(next: Option<Todo>) -> u64
    ensures { result ≡ next_credit.credit_at next }
{
    match next {
        None => 0,
        Some(Todo::Step(_)) => 0,
        Some(Todo::Silent(item)) => silent_credit(item),
    }
}

fn silent_credit(item: Silent) -> u64
    ensures { result ≡ spec.silent_credit item }
{
    match item {
        Silent::End => 0,
        Silent::Decide => SILENT_TICKS,
        Silent::Estimate { .. } | Silent::Weigh { .. } => SILENT_TICKS,
        Silent::Test | Silent::Close | Silent::HandOver | Silent::Land => SILENT_TICKS,
    }
}

fn timer_credit_at(next: Option<TimerTodo>) -> u64
    ensures { result ≡ next_credit.timer_credit_at next }
{
    match next {
        None => 0,
        Some(TimerTodo::Step(_)) => 0,
        Some(TimerTodo::Silent(_)) => SILENT_TICKS,
    }
}
