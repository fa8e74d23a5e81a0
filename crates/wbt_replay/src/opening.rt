//! The state of a run before its first step.

ghost use Rattle.std.specs.Prelude.{◌≡◌, ◌≤◌, ◌<◌, ◌+◌, ◌^◌, [], ◌∷◌, ◌++◌, length, map, replicate, All, IfOk, OnOk};
ghost use Rattle.wbt_replay_order.specs.Definition.Opening as spec;
ghost use Rattle.wbt_replay_order.specs.Kept.Opens.{ActionFits, ContextsFit, DomainsFit, OpeningFits, task_with, put_work, ended_idle};
ghost use Rattle.wbt_journal.specs.Machine.{domains};
ghost use Rattle.wbt_rules.specs.Thresholds.{DomainFits};
ghost use Rattle.wbt_trace.specs.Sofar.{pages_in};
ghost use Rattle.wbt_replay_moves.specs.Seen.{seen};

use crate::cpus::first_cpus;
use std::alloc::{AllocError, Global};
use wbt_counter::Count;
use wbt_expiry::Wheel;
use wbt_flex::Half;
use wbt_journal::TimerEntry;
use wbt_limits::ratelimit_pages;
use wbt_num::{Items, Limits, MOST_STEPS, Queue, Row};
use wbt_replay_moves::{
    Actor, Domain, Flusher, Machine, Pages, ReplayPhase, ReplayTask, ReplayWork, Steps, Stretch,
    Timer, Writeback,
};
use wbt_rules::{
    PERIOD_TICKS, TIMER_REST, domains_of, first_estimate, first_limits as first_limits_at,
    first_of, flusher_device, is_ageing, is_strict, leads, thresholds_at,
};
use wbt_task::new_writer;
use wbt_trace::{Action, Inode, Order, Pace, Trace};

// The moment of the opening.
const OPENING: u64 = 1;

// Of a counter that never folded.
const NO_COUNT: Count = Count {
    version: 0,
    value: 0,
};

/// The machine of a trace before its first step, with all its things by number. As many steps may be made as a replay may have.
///
/// It fails where memory is refused.
#[tactic(auto, unfolding(wbt_replay_order::specs::Definition::Opening::opening))]
pub fn machine_of(alloc: Global, trace: &Trace) -> Result<Machine, AllocError>
    requires { OpeningFits trace.now }
    ensures { IfOk result (λ machine. seen machine ≡ spec.opening trace.now) }
{
    let thresh = thresholds_at(trace, OPENING, 0, 0, 0).thresh;
    let pages = pages_of(trace.inodes.as_slice());
    let tasks = first_tasks(alloc, trace)?;
    let running = running_of(tasks.as_slice());
    Ok(Machine {
        clock: OPENING,
        pages: Pages::new(alloc, pages)?,
        ratelimit_pages: ratelimit_pages(thresh, trace.cpus),
        domains: first_domains(alloc, trace)?,
        contexts: first_contexts(alloc, trace)?,
        marks: filled(alloc, trace.inodes.as_slice().len(), false)?,
        queues: no_queues(alloc, trace.devices.as_slice().len())?,
        tasks,
        flushers: first_flushers(alloc, trace)?,
        cpus: first_cpus(alloc, trace)?,
        running,
        working: trace.flushers.as_slice().len() as u64,
        stopped: 0,
        spent: false,
        orders: first_orders(alloc, trace)?,
        rotation: None,
        timer: first_timer(alloc, trace)?,
        steps: Steps::new(alloc),
        most: MOST_STEPS,
    })
}

/// A list of one value, so many times.
pub fn filled<T: Copy + Drop>(alloc: Global, count: usize, value: T) -> Result<Vec<T>, AllocError>
    ensures { IfOk result (λ list. list.items ≡ replicate count value) }
{
    let mut list = Vec::new(alloc);
    for _ in 0..count {
        list.push(value)?;
    }
    Ok(list)
}

// The queues of so many devices.
fn no_queues(alloc: Global, devices: usize) -> Result<Vec<Queue<u32>>, AllocError>
    ensures { IfOk result (λ queues. queues.items ≡ replicate devices []) }
{
    let mut queues = Vec::new(alloc);
    for _ in 0..devices {
        queues.push(Queue::new(alloc))?;
    }
    Ok(queues)
}

// How many pages the inodes have together.
fn pages_of(inodes: &[Inode]) -> u32
    requires { pages_in inodes.now < 2 ^ 32 }
    ensures { result ≡ pages_in inodes.now }
{
    let mut total = 0;
    for inode in inodes {
        total += inode.pages;
    }
    total
}

// ---- domains and contexts

/// The limits of a domain that reads no page. The hard limit is the threshold at first.
pub fn first_limits(trace: &Trace, domain: u32) -> Limits
    requires { DomainFits trace.now domain }
    ensures { result ≡ spec.first_limits trace.now domain }
{
    first_limits_at(trace, OPENING, domain)
}

fn first_domains(alloc: Global, trace: &Trace) -> Result<Vec<Domain>, AllocError>
    requires few { length trace.now.cgroups < 2 ^ 31 }
    requires fits { DomainsFit trace.now }
    ensures { IfOk result (λ list. list.items ≡ spec.first_domains trace.now (domains trace.now)) }
{
    let mut domains = Vec::new(alloc);
    for domain in 0..domains_of(trace) {
        domains.push(first_domain(first_limits(trace, domain)))?;
    }
    Ok(domains)
}

fn first_domain(limits: Limits) -> Domain
    ensures { result ≡ spec.first_domain limits }
{
    Domain {
        limits,
        sequence: 0,
        peak: limits.hard,
        count: NO_COUNT,
        events: Half {
            period: 0,
            events: 1,
        },
    }
}

fn first_contexts(alloc: Global, trace: &Trace) -> Result<Vec<Writeback>, AllocError>
    requires { length trace.now.contexts < 2 ^ 31 }
    ensures { IfOk result (λ list. list.items ≡ spec.first_contexts trace.now (length trace.now.contexts)) }
{
    let mut contexts = Vec::new(alloc);
    for context in 0..trace.contexts.as_slice().len() as u32 {
        contexts.push(first_context(trace, context))?;
    }
    Ok(contexts)
}

fn first_context(trace: &Trace, context: u32) -> Writeback
    requires { context < length trace.now.contexts }
    ensures { result ≡ spec.first_context trace.now context }
{
    let none = Half {
        period: 0,
        events: 0,
    };
    Writeback {
        count: NO_COUNT,
        written: 0,
        estimate: first_estimate(trace, context, OPENING),
        part: none,
        cgroup_part: none,
    }
}

// ---- tasks

// The tasks, each with what it does: one pass over the actions serves all.
fn first_tasks(alloc: Global, trace: &Trace) -> Result<Vec<ReplayTask>, AllocError>
    requires actions { All (ActionFits trace.now) trace.now.actions }
    ensures { IfOk result (λ tasks. tasks.items ≡ spec.first_tasks trace.now (length trace.now.tasks)) }
{
    let mut tasks = idle_tasks(alloc, trace)?;
    for action in trace.actions.as_slice() {
        put_work(&mut tasks, trace, action)?;
    }
    end_idle(&mut tasks);
    Ok(tasks)
}

fn idle_tasks(alloc: Global, trace: &Trace) -> Result<Vec<ReplayTask>, AllocError>
    ensures { IfOk result (λ tasks. tasks.items ≡ map (λ line. task_with trace.now line.pace []) trace.now.tasks) }
{
    let mut tasks = Vec::new(alloc);
    for line in trace.tasks.as_slice() {
        tasks.push(idle_task(alloc, trace, line.pace)?)?;
    }
    Ok(tasks)
}

fn idle_task(alloc: Global, trace: &Trace, pace: Option<Pace>) -> Result<ReplayTask, AllocError>
    ensures { IfOk result (λ task. task ≡ task_with trace.now pace []) }
{
    let contexts = trace.contexts.as_slice().len();
    let writers = filled(alloc, contexts, new_writer(u64::from(trace.cap)))?;
    Ok(ReplayTask {
        works: Queue::new(alloc),
        rest: 0,
        ended: false,
        context: 0,
        writers: Row::from_vec(writers),
        pace,
        since: 0,
    })
}

// The action's task does it after what it does before.
fn put_work(tasks: &mut Vec<ReplayTask>, trace: &Trace, action: &Action) -> Result<(), AllocError>
    requires there { ActionFits trace.now action.now }
    requires many { length tasks.old.items ≡ length trace.now.tasks }
    ensures { OnOk result (tasks.new.items ≡ put_work trace.now action.now tasks.old.items) }
{
    match action {
        Action::Write {
            task,
            inode,
            from,
            pages,
        } => tasks[*task as usize].works.push_back(ReplayWork::Write {
            inode: *inode,
            page: first_of(trace, *inode) + *from,
            pages: *pages,
        }),
        Action::Rest { task, ticks } => tasks[*task as usize]
            .works
            .push_back(ReplayWork::Rest { ticks: *ticks }),
    }
}

// A task without actions has ended.
fn end_idle(tasks: &mut Vec<ReplayTask>)
    ensures { tasks.new.items ≡ map ended_idle tasks.old.items }
{
    for task in 0..tasks.len() {
        let ended = tasks[task].works.is_empty();
        tasks[task].ended = ended;
    }
}

// How many tasks haven't ended.
fn running_of(tasks: &[ReplayTask]) -> u64
    ensures { result ≡ spec.running_of tasks.now }
{
    tasks.iter().filter(|task| !task.ended).count() as u64
}

// ---- flushers

fn first_flushers(alloc: Global, trace: &Trace) -> Result<Vec<Flusher>, AllocError>
    requires few { length trace.now.flushers ≤ 64 }
    requires inodes { length trace.now.inodes < 2 ^ 32 }
    requires contexts { length trace.now.contexts < 2 ^ 31 }
    requires devices { ContextsFit trace.now }
    requires fits { DomainsFit trace.now }
    ensures { IfOk result (λ flushers. flushers.items ≡ spec.first_flushers trace.now (length trace.now.flushers)) }
{
    let hard = first_limits(trace, 0).hard;
    let mut flushers = Vec::new(alloc);
    for flusher in 0..trace.flushers.as_slice().len() as u32 {
        flushers.push(Flusher {
            phase: ReplayPhase::Idle {
                until: 0,
                kept: false,
            },
            batch: Queue::new(alloc),
            hard,
            measures: measures_of(alloc, trace, flusher)?,
            weighs: weighs_of(alloc, trace, flusher)?,
            wheel: first_wheel(alloc, trace, flusher)?,
            places: first_places(alloc, trace)?,
        })?;
    }
    Ok(flushers)
}

// Of each inode, the place at which the first scan begins.
fn first_places(alloc: Global, trace: &Trace) -> Result<Row<u32>, AllocError>
    ensures { IfOk result (λ places. places ≡ replicate (length trace.now.inodes) 0) }
{
    let places = filled(alloc, trace.inodes.as_slice().len(), 0u32)?;
    Ok(Row::from_vec(places))
}

// The contexts of the flusher's device, where it is the device's first flusher.
fn measures_of(alloc: Global, trace: &Trace, flusher: u32) -> Result<Items<u32>, AllocError>
    requires flusher { flusher < length trace.now.flushers }
    requires flushers { length trace.now.flushers ≤ 64 }
    requires contexts { length trace.now.contexts < 2 ^ 31 }
    ensures { IfOk result (λ contexts. contexts ≡ spec.measures_of trace.now flusher) }
{
    let device = flusher_device(trace, flusher);
    let mut contexts = Items::new(alloc);
    if !leads(trace, flusher) {
        return Ok(contexts);
    }
    for (number, context) in trace.contexts.as_slice().iter().enumerate() {
        if context.device == device {
            let number = number as u32;
            contexts.push(number)?;
        }
    }
    Ok(contexts)
}

// The contexts of the flusher's device, where this is strict.
fn weighs_of(alloc: Global, trace: &Trace, flusher: u32) -> Result<Items<u32>, AllocError>
    requires flusher { flusher < length trace.now.flushers }
    requires contexts { length trace.now.contexts < 2 ^ 31 }
    requires devices { ContextsFit trace.now }
    ensures { IfOk result (λ contexts. contexts ≡ spec.weighs_of trace.now flusher) }
{
    let device = flusher_device(trace, flusher);
    let mut contexts = Items::new(alloc);
    for (number, context) in trace.contexts.as_slice().iter().enumerate() {
        let number = number as u32;
        if context.device == device && is_strict(trace, number) {
            contexts.push(number)?;
        }
    }
    Ok(contexts)
}

// The list of a flusher of an ageing device, in which no inode waits.
fn first_wheel(alloc: Global, trace: &Trace, flusher: u32) -> Result<Option<Wheel>, AllocError>
    requires flusher { flusher < length trace.now.flushers }
    requires inodes { length trace.now.inodes < 2 ^ 32 }
    ensures { IfOk result (λ wheel. wheel ≡ spec.first_wheel trace.now flusher) }
{
    if !is_ageing(trace, flusher_device(trace, flusher)) {
        return Ok(None);
    }
    let inodes = trace.inodes.as_slice().len() as u32;
    match Wheel::make(alloc, inodes, OPENING) {
        Ok(wheel) => Ok(Some(wheel)),
        Err(_) => Err(AllocError),
    }
}

// ---- order lines, and the timer

fn first_orders(alloc: Global, trace: &Trace) -> Result<Queue<Stretch>, AllocError>
    ensures { IfOk result (λ stretches. stretches ≡ map (spec.stretch_of trace.now) trace.now.order) }
{
    let mut stretches = Queue::new(alloc);
    for order in trace.order.as_slice() {
        stretches.push_back(stretch_of(trace, order))?;
    }
    Ok(stretches)
}

fn stretch_of(trace: &Trace, order: &Order) -> Stretch
    ensures { result ≡ spec.stretch_of trace.now order.now }
{
    match order {
        Order::Steps { cpu, steps } => Stretch::Steps {
            actor: Actor::Cpu(*cpu),
            steps: *steps,
        },
        Order::Timer { steps } => Stretch::Steps {
            actor: Actor::Timer,
            steps: *steps,
        },
        Order::Tick { ticks } => Stretch::Tick { ticks: *ticks },
    }
}

fn first_timer(alloc: Global, trace: &Trace) -> Result<Timer, AllocError>
    requires few { length trace.now.cgroups < 2 ^ 31 }
    requires fits { DomainsFit trace.now }
    ensures { IfOk result (λ timer. timer ≡ spec.first_timer trace.now) }
{
    let mut entries = Items::new(alloc);
    for domain in 0..domains_of(trace) {
        entries.push(TimerEntry::Limits {
            domain,
            now: OPENING,
            limits: first_limits(trace, domain),
        })?;
    }
    Ok(Timer {
        todo: Queue::new(alloc),
        began: OPENING,
        global: 0,
        limits: Limits {
            thresh: 0,
            bg: 0,
            hard: 0,
        },
        next: OPENING + TIMER_REST,
        period: OPENING + PERIOD_TICKS,
        entries,
    })
}
