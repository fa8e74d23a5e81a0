//! The machine that runs a trace: its words and its things by number, and the changes that moves are made of.

ghost use Rattle.std.specs.Prelude.{◌≡◌, ◌<◌, [], ◌∷◌, length, OnOk};
ghost use Rattle.wbt_replay_moves.specs.Definition.State as spec;
ghost use Rattle.wbt_replay_moves.specs.Definition.Cpu as cpus;
ghost use Rattle.wbt_replay_moves.specs.Kept.Fit.{HasCount};
ghost use Rattle.wbt_replay_moves.specs.Seen.{seen};

use crate::pages::Pages;
use crate::state::{
    Actor, Cpu, Domain, Flusher, ReplayPhase, ReplayTask, Stretch, Timer, Whose, Writeback,
};
use crate::steps::Steps;
use crate::todo::Todo;
use std::alloc::AllocError;
use wbt_counter::{Count, Counter};
use wbt_grant::StepKind;
use wbt_journal::{Entry, StepEntry};
use wbt_num::Queue;

/// The state of a run, which is one for `specs/Definition/State.antt` by `seen`.
#[derive(Drop)]
pub struct Machine {
    /// The moment, in ticks.
    pub clock: u64,
    /// The pages.
    pub pages: Pages,
    /// After so many fresh writes of one CPU a check is due.
    pub ratelimit_pages: u64,
    /// The domains, the global one first.
    pub domains: Vec<Domain>,
    /// The contexts.
    pub contexts: Vec<Writeback>,
    /// Whether each inode is marked.
    pub marks: Vec<bool>,
    /// The inodes in each device's queue.
    pub queues: Vec<Queue<u32>>,
    /// The tasks.
    pub tasks: Vec<ReplayTask>,
    /// The flushers.
    pub flushers: Vec<Flusher>,
    /// The CPUs.
    pub cpus: Vec<Cpu>,
    /// How many tasks haven't ended.
    pub running: u64,
    /// How many flushers aren't finished, of CPUs that aren't stopped.
    pub working: u64,
    /// How many CPUs are stopped.
    pub stopped: u64,
    /// Whether a step was to be made after the last one that the run may have.
    pub spent: bool,
    /// What the order lines still ask for.
    pub orders: Queue<Stretch>,
    /// Whose turn it is in the rotation: nobody's before its first turn, and where the clock has moved.
    pub rotation: Option<Actor>,
    /// The timer.
    pub timer: Timer,
    /// The steps made.
    pub steps: Steps,
    /// How many steps may be made.
    pub most: u64,
}

impl Machine {
    /// Notes a step, which changes the context's count so. `who` made it: a CPU's number, or the number of CPUs for the timer.
    #[tactic(auto, using(crate::proofs::Made::made_more))]
    pub fn step(
        &mut self,
        who: u32,
        kind: StepKind,
        context: u32,
        change: i8,
    ) -> Result<(), AllocError>
        ensures { OnOk result (seen self.new ≡ spec.stepped who kind context change (seen self.old)) }
    {
        self.steps.push(StepEntry {
            who,
            kind,
            context,
            change,
            domain: 0,
            peak: 0,
        })
    }

    /// Notes a step that changes no count.
    pub fn plain_step(&mut self, who: u32, kind: StepKind) -> Result<(), AllocError>
        ensures { OnOk result (seen self.new ≡ spec.plain_step who kind (seen self.old)) }
    {
        self.step(who, kind, 0, 0)
    }

    /// The CPU does these next, in this order.
    pub fn then_do(&mut self, cpu: u32, items: &[Todo]) -> Result<(), AllocError>
        requires { cpu < length (seen self.old).cpus }
        ensures { OnOk result (seen self.new ≡ cpus.then_do cpu items.now (seen self.old)) }
    {
        self.cpus[cpu as usize].do_next(items)
    }

    /// The CPU does this last.
    pub fn do_last(&mut self, cpu: u32, item: Todo) -> Result<(), AllocError>
        requires { cpu < length (seen self.old).cpus }
        ensures { OnOk result (seen self.new ≡ cpus.do_last_at cpu (item ∷ []) (seen self.old)) }
    {
        self.cpus[cpu as usize].do_last(item)
    }

    /// The CPU owes an event to each counter of a page of the context, and does the last item then.
    pub fn owe(
        &mut self,
        cpu: u32,
        change: i64,
        context: u32,
        group: u32,
        last: Todo,
    ) -> Result<(), AllocError>
        requires { cpu < length (seen self.old).cpus }
        ensures { OnOk result (seen self.new ≡ cpus.owe_at cpu change context group last (seen self.old)) }
    {
        self.cpus[cpu as usize].owe(change, context, group, last)
    }

    /// Writes an entry into the CPU's part of the journal.
    pub fn log(&mut self, cpu: u32, entry: Entry) -> Result<(), AllocError>
        requires { cpu < length (seen self.old).cpus }
        ensures { OnOk result (seen self.new ≡ cpus.log_at cpu entry (seen self.old)) }
    {
        self.cpus[cpu as usize].log(entry)
    }

    /// Whose turn the CPU is at.
    pub fn whose(&self, cpu: u32) -> Whose
        requires { cpu < length (seen self.now).cpus }
        ensures { result ≡ (spec.cpu_of cpu (seen self.now)).turn.whose }
    {
        self.cpus[cpu as usize].turn.whose
    }

    /// What the shared word of a counter holds.
    pub fn count(&self, counter: Counter) -> Count
        requires { HasCount counter (seen self.now) }
        ensures { result ≡ spec.count_of counter (seen self.now) }
    {
        match counter {
            Counter::Domain(domain) => self.domains[domain as usize].count,
            Counter::Context(context) => self.contexts[context as usize].count,
        }
    }

    /// The shared word of a counter holds this now.
    pub fn set_count(&mut self, counter: Counter, count: Count)
        requires { HasCount counter (seen self.old) }
        ensures { seen self.new ≡ spec.with_count counter count (seen self.old) }
    {
        match counter {
            Counter::Domain(domain) => self.domains[domain as usize].count = count,
            Counter::Context(context) => self.contexts[context as usize].count = count,
        }
    }

    /// The flusher is at this now.
    pub fn set_phase(&mut self, flusher: u32, phase: ReplayPhase)
        requires { flusher < length (seen self.old).flushers }
        ensures { seen self.new ≡ spec.in_phase flusher phase (seen self.old) }
    {
        self.flushers[flusher as usize].phase = phase;
    }

    /// What the flusher is at.
    pub fn phase(&self, flusher: u32) -> ReplayPhase
        requires { flusher < length (seen self.now).flushers }
        ensures { result ≡ (spec.flusher_of flusher (seen self.now)).phase }
    {
        self.flushers[flusher as usize].phase
    }

    /// Puts the inode at the end of the device's queue.
    pub fn put_inode(&mut self, device: u32, inode: u32) -> Result<(), AllocError>
        requires { device < length (seen self.old).queues }
        ensures { OnOk result (seen self.new ≡ spec.queued device inode (seen self.old)) }
    {
        self.queues[device as usize].push_back(inode)
    }

    /// Whether all tasks have ended.
    pub fn is_drained(&self) -> bool
        ensures { result ≡ spec.is_drained (seen self.now) }
    {
        self.running == 0
    }
}
