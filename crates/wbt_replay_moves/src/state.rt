//! The parts of a machine that runs a trace.

use crate::todo::{TimerTodo, Todo};
use wbt_counter::Count;
use wbt_estimate::Estimate;
use wbt_expiry::Wheel;
use wbt_flex::Half;
use wbt_journal::{CheckEntry, Entry, EstEntry, TimerEntry};
use wbt_num::{Items, Limits, Queue, Row};
use wbt_rules::Scan;
use wbt_task::{CpuLocal, Writer};
use wbt_trace::Pace;

/// Who makes moves.
#[derive(Clone, Copy)]
pub enum Actor {
    /// A CPU, for its tasks and its flushers.
    Cpu(u32),
    /// The timer.
    Timer,
}

/// A job of a CPU.
#[derive(Clone, Copy)]
pub enum ReplayJob {
    /// Its tasks write.
    Writer,
    /// A flusher writes back.
    Flusher { flusher: u32 },
}

/// Whose turn a CPU is at.
#[derive(Clone, Copy)]
pub enum Whose {
    /// A task's.
    Task { task: u32 },
    /// A flusher's.
    Flusher { flusher: u32 },
}

/// Limits of a domain that a CPU has read whole, or the first ones.
#[derive(Clone, Copy)]
pub struct Held {
    /// Which of the domain's published limits they are; the first ones are 0.
    pub version: u64,
    /// The limits.
    pub limits: Limits,
}

/// A sequence word that was found.
#[derive(Clone, Copy)]
pub struct Found {
    /// The sequence.
    pub sequence: u64,
    /// The hard limit beside it, in pages.
    pub hard: u64,
}

/// What a turn has loaded of a domain.
#[derive(Clone, Copy)]
pub struct Load {
    /// The version of its limits.
    pub version: u64,
    /// Its limits, which are those that the CPU holds after the load.
    pub limits: Limits,
    /// Its shared count.
    pub count: Count,
}

/// The turn of a CPU that is under way, or its last one.
#[derive(Clone, Copy)]
pub struct ReplayTurn {
    /// Whose it is.
    pub whose: Whose,
    /// Its first moment, in ticks.
    pub began: u64,
    /// The sequence word that its load of limits has found first.
    pub found: Found,
    /// What it has loaded of the global domain.
    pub global: Load,
    /// What it has loaded of another domain: the last one.
    pub cgroup: Load,
    /// The shared count of a context that it loaded last.
    pub context: Count,
    /// Whether a domain that it has loaded, or a context that it has weighed, is over background.
    pub over: bool,
}

/// What a CPU is at.
#[derive(Drop)]
pub struct Cpu {
    /// Its jobs: its writer side where it has tasks, and its flushers by number.
    pub jobs: Items<ReplayJob>,
    /// The place of the job from which on the next one that is ready is sought.
    pub next: u32,
    /// Its tasks by number.
    pub tasks: Items<u32>,
    /// The place of the task from which on the next one that is ready is sought.
    pub next_task: u32,
    /// Its turn.
    pub turn: ReplayTurn,
    /// What the turn still has to do.
    pub todo: Queue<Todo>,
    /// What it counts of its writers.
    pub local: CpuLocal,
    /// Its own numbers of the domains' counters, in pages.
    pub own_domains: Row<i64>,
    /// Its own numbers of the contexts' counters, in pages.
    pub own_contexts: Row<i64>,
    /// The limits of each domain that it holds.
    pub held: Row<Held>,
    /// The entries of its part of the journal.
    pub entries: Items<Entry>,
    /// The checks that they name.
    pub checks: Items<CheckEntry>,
    /// The estimates that they name.
    pub estimates: Items<EstEntry>,
    /// How many steps it has made.
    pub made: u64,
    /// Whether it was stopped: it had a step to make after its last one.
    pub stopped: bool,
}

/// What a task does: it writes pages one after another, or it rests.
#[derive(Clone, Copy)]
pub enum ReplayWork {
    /// So many pages of an inode are written, from one on, which is numbered among the pages of all inodes.
    Write { inode: u32, page: u32, pages: u32 },
    /// The task rests for so many ticks.
    Rest { ticks: u64 },
}

/// A task.
#[derive(Drop)]
pub struct ReplayTask {
    /// What it still has to do, in order.
    pub works: Queue<ReplayWork>,
    /// The moment until which it rests.
    pub rest: u64,
    /// Whether it has ended.
    pub ended: bool,
    /// The context whose page it wrote last.
    pub context: u32,
    /// Its writers, one for each context.
    pub writers: Row<Writer>,
    /// When it rests between its pages, and how many it has written since it began or rested so.
    pub pace: Option<Pace>,
    pub since: u32,
}

/// What a flusher is at.
#[derive(Clone, Copy)]
pub enum ReplayPhase {
    /// It rests until a moment, and is then ready. The drain doesn't drop a rest that is kept.
    Idle { until: u64, kept: bool },
    /// It has taken an inode from its device's queue, and hasn't cleared the mark yet.
    Taken { inode: u32 },
    /// It scans an inode, and has come this far.
    Scanning { scan: Scan },
    /// The disk writes a batch of so many of the inode's pages until a moment.
    Flying { inode: u32, pages: u64, until: u64 },
    /// It found no inode in the drain.
    Finished,
}

/// A flusher.
#[derive(Drop)]
pub struct Flusher {
    /// What it is at.
    pub phase: ReplayPhase,
    /// The pages that it has claimed and not completed, in order.
    pub batch: Queue<u32>,
    /// The hard limit of the global domain that it loaded last.
    pub hard: u64,
    /// The contexts whose estimates it updates: those of its device, where it is the device's first flusher.
    pub measures: Items<u32>,
    /// The contexts that it weighs: those of its device, where this is strict.
    pub weighs: Items<u32>,
    /// The inodes that it has noticed and not taken yet, where its device is ageing.
    pub wheel: Option<Wheel>,
    /// By inode: the place at which its next scan begins, where the flusher's device is cyclic.
    pub places: Row<u32>,
}

/// A domain of dirty pages.
#[derive(Clone, Copy)]
pub struct Domain {
    /// The limits that were published last. The hard one is the limit that follows the threshold.
    pub limits: Limits,
    /// The sequence: twice the version of the published limits, and one more while the timer changes them.
    pub sequence: u64,
    /// The greatest hard limit that the timer has raised its peak to.
    pub peak: u64,
    /// Its shared count.
    pub count: Count,
    /// The events of its proportions.
    pub events: Half,
}

/// A writeback context.
#[derive(Clone, Copy)]
pub struct Writeback {
    /// Its shared count.
    pub count: Count,
    /// Pages that were written back, in all.
    pub written: u64,
    /// Its estimate.
    pub estimate: Estimate,
    /// Its part in the global domain.
    pub part: Half,
    /// Its part in its cgroup, where it has one.
    pub cgroup_part: Half,
}

/// What an order line still asks for.
#[derive(Clone, Copy)]
pub enum Stretch {
    /// An actor makes so many steps.
    Steps { actor: Actor, steps: u64 },
    /// The clock moves by so many ticks.
    Tick { ticks: u64 },
}

/// The timer.
#[derive(Drop)]
pub struct Timer {
    /// What its turn still has to do.
    pub todo: Queue<TimerTodo>,
    /// The first moment of its turn.
    pub began: u64,
    /// The reading of the global domain in this turn, in pages.
    pub global: u64,
    /// The limits that it has found for the domain that it is at.
    pub limits: Limits,
    /// The moment from which on it takes its next turn.
    pub next: u64,
    /// The moment from which on it begins the next period of the proportions.
    pub period: u64,
    /// Its part of the journal.
    pub entries: Items<TimerEntry>,
}
