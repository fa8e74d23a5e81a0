//! A turn of a flusher that is idle: it tests whether a domain, or a context of its strict device, is over background, and takes an
//! inode where one is. A flusher of an ageing device goes by age (see `age`). In the drain an inode is taken at once.

ghost use Rattle.std.specs.Prelude.{◌≡◌, ℕ, ◌<◌, ◌≤◌, ◌^◌, [], ◌∷◌, length, get_or, OnOk, All};
ghost use Rattle.wbt_replay_moves.specs.Definition.Idle as spec;
ghost use Rattle.wbt_rules.specs.Things as things;
ghost use Rattle.wbt_replay_moves.specs.Definition.Cpu as cpus;
ghost use Rattle.wbt_replay_moves.specs.Definition.State.{State, cpu_of, flusher_of, no_context, queue_of};
ghost use Rattle.wbt_replay_moves.specs.Kept.Fit.{HasFlusher, HasInode, EstimatesFit, TakenFits, TestFits, OfFlusher};
ghost use Rattle.wbt_replay_moves.specs.Seen.{seen};

use crate::machine::Machine;
use crate::state::{Cpu, ReplayPhase, ReplayTurn, Whose, Writeback};
use crate::todo::{Silent, Step, Todo};
use std::alloc::AllocError;
use wbt_counter::Counter;
use wbt_grant::StepKind;
use wbt_rules::{
    ESTIMATE_AGE, FLUSHER_REST, Scan, context_of, device_at, flusher_device, inode_at, quota_of,
};
use wbt_trace::{Inode, Trace};

impl Machine {
    /// Begins a turn of an idle flusher.
    pub fn begin_idle(&mut self, trace: &Trace, cpu: u32, flusher: u32) -> Result<(), AllocError>
        requires cpu { cpu < length (seen self.old).cpus }
        requires flusher { HasFlusher trace.now flusher (length (seen self.old).flushers) (length (seen self.old).queues) }
        requires working { 1 ≤ (seen self.old).working }
        requires ages { EstimatesFit (seen self.old) }
        requires measures { All (λ k. k < length (seen self.old).contexts) (flusher_of flusher (seen self.old)).measures }
        requires few { length (seen self.old).domains < 2 ^ 32 }
        ensures { OnOk result (seen self.new ≡ spec.begin_idle trace.now cpu flusher (seen self.old)) }
    {
        if self.is_drained() {
            self.take_last(trace, cpu, flusher)
        } else {
            self.begin_test(cpu, flusher)
        }
    }

    /// In the drain, where no inode waits: an inode of the queue is taken, and the flusher is finished where there is none.
    pub fn take_or_finish(
        &mut self,
        trace: &Trace,
        cpu: u32,
        flusher: u32,
    ) -> Result<(), AllocError>
        requires cpu { cpu < length (seen self.old).cpus }
        requires flusher { HasFlusher trace.now flusher (length (seen self.old).flushers) (length (seen self.old).queues) }
        requires working { 1 ≤ (seen self.old).working }
        ensures { OnOk result (seen self.new ≡ spec.take_or_finish trace.now cpu flusher (queue_of (things.flusher_device trace.now flusher) (seen self.old)) (seen self.old)) }
    {
        let device = flusher_device(trace, flusher);
        match self.queues[device as usize].pop_front() {
            None => {
                self.finish(flusher);
                Ok(())
            }
            Some(inode) => self.take(cpu, flusher, inode),
        }
    }

    fn take_or_rest(
        &mut self,
        trace: &Trace,
        cpu: u32,
        flusher: u32,
        until: u64,
    ) -> Result<(), AllocError>
        requires cpu { cpu < length (seen self.old).cpus }
        requires flusher { HasFlusher trace.now flusher (length (seen self.old).flushers) (length (seen self.old).queues) }
        ensures { OnOk result (seen self.new ≡ spec.take_or_rest trace.now cpu flusher until (queue_of (things.flusher_device trace.now flusher) (seen self.old)) (seen self.old)) }
    {
        let device = flusher_device(trace, flusher);
        match self.queues[device as usize].pop_front() {
            None => {
                self.rest_until(flusher, until);
                Ok(())
            }
            Some(inode) => self.take(cpu, flusher, inode),
        }
    }

    /// The flusher has taken the inode, whose mark is cleared next.
    pub fn take(&mut self, cpu: u32, flusher: u32, inode: u32) -> Result<(), AllocError>
        requires cpu { cpu < length (seen self.old).cpus }
        requires flusher { flusher < length (seen self.old).flushers }
        ensures { OnOk result (seen self.new ≡ spec.take_now cpu flusher inode (seen self.old)) }
    {
        self.set_phase(flusher, ReplayPhase::Taken { inode });
        self.then_do(cpu, &[Todo::Step(Step::Unmark)])
    }

    /// The flusher found no inode in the drain.
    pub fn finish(&mut self, flusher: u32)
        requires flusher { flusher < length (seen self.old).flushers }
        requires working { 1 ≤ (seen self.old).working }
        ensures { seen self.new ≡ spec.finish flusher (seen self.old) }
    {
        self.working -= 1;
        self.set_phase(flusher, ReplayPhase::Finished);
    }

    /// The flusher rests until a moment.
    pub fn rest_until(&mut self, flusher: u32, until: u64)
        requires flusher { flusher < length (seen self.old).flushers }
        ensures { seen self.new ≡ spec.rest_until flusher until (seen self.old) }
    {
        self.set_phase(flusher, ReplayPhase::Idle { until, kept: false });
    }

    // The CPU's turn, which has nothing to do yet, loads each domain, updates the estimates that are old enough, weighs the contexts of
    // a strict device, and tests.
    fn begin_test(&mut self, cpu: u32, flusher: u32) -> Result<(), AllocError>
        requires cpu { cpu < length (seen self.old).cpus }
        requires flusher { flusher < length (seen self.old).flushers }
        requires ages { EstimatesFit (seen self.old) }
        requires measures { All (λ k. k < length (seen self.old).contexts) (flusher_of flusher (seen self.old)).measures }
        requires few { length (seen self.old).domains < 2 ^ 32 }
        ensures { OnOk result (seen self.new ≡ spec.begin_test cpu flusher (seen self.old)) }
    {
        self.load_domains(cpu)?;
        self.measure_all(cpu, flusher)?;
        self.weigh_all(cpu, flusher)?;
        self.do_last(cpu, Todo::Silent(Silent::Test))
    }

    fn load_domains(&mut self, cpu: u32) -> Result<(), AllocError>
        requires cpu { cpu < length (seen self.old).cpus }
        requires few { length (seen self.old).domains < 2 ^ 32 }
        ensures { OnOk result (seen self.new ≡ cpus.do_last_at cpu (spec.domain_loads (length (seen self.old).domains) 0) (seen self.old)) }
    {
        let domains = self.domains.len() as u32;
        self.cpus[cpu as usize].put_loads(domains)
    }

    fn measure_all(&mut self, cpu: u32, flusher: u32) -> Result<(), AllocError>
        requires cpu { cpu < length (seen self.old).cpus }
        requires flusher { flusher < length (seen self.old).flushers }
        requires ages { EstimatesFit (seen self.old) }
        requires measures { All (λ k. k < length (seen self.old).contexts) (flusher_of flusher (seen self.old)).measures }
        ensures { OnOk result (seen self.new ≡ cpus.do_last_at cpu (spec.measures_of (flusher_of flusher (seen self.old)).measures (seen self.old)) (seen self.old)) }
    {
        let measures = self.flushers[flusher as usize].measures.as_slice();
        self.cpus[cpu as usize].put_measures(measures, &self.contexts, self.clock)
    }

    fn weigh_all(&mut self, cpu: u32, flusher: u32) -> Result<(), AllocError>
        requires cpu { cpu < length (seen self.old).cpus }
        requires flusher { flusher < length (seen self.old).flushers }
        ensures { OnOk result (seen self.new ≡ cpus.do_last_at cpu (spec.weighs_of (flusher_of flusher (seen self.old)).weighs) (seen self.old)) }
    {
        let weighs = self.flushers[flusher as usize].weighs.as_slice();
        self.cpus[cpu as usize].put_weighs(weighs)
    }

    /// Silent: the flusher takes an inode where a domain or a context that was weighed is over background, and else it rests; one of an
    /// ageing device goes by age.
    pub fn test(&mut self, trace: &Trace, cpu: u32) -> Result<(), AllocError>
        requires cpu { cpu < length (seen self.old).cpus }
        requires fits { OfFlusher (λ flusher phase. TestFits trace.now flusher (seen self.old)) (seen self.old) (cpu_of cpu (seen self.old)).turn.whose }
        requires began { (cpu_of cpu (seen self.old)).turn.began < 2 ^ 62 }
        ensures { OnOk result (seen self.new ≡ spec.test trace.now cpu (seen self.old)) }
    {
        let turn = self.cpus[cpu as usize].turn;
        match turn.whose {
            Whose::Task { .. } => Ok(()),
            Whose::Flusher { flusher } => {
                self.flushers[flusher as usize].hard = turn.global.limits.hard;
                self.tested(trace, cpu, flusher, &turn)
            }
        }
    }

    // A flusher that has a wheel goes by age.
    fn tested(
        &mut self,
        trace: &Trace,
        cpu: u32,
        flusher: u32,
        turn: &ReplayTurn,
    ) -> Result<(), AllocError>
        requires cpu { cpu < length (seen self.old).cpus }
        requires fits { TestFits trace.now flusher (seen self.old) }
        requires began { turn.now.began < 2 ^ 62 }
        ensures { OnOk result (seen self.new ≡ spec.tested_by trace.now cpu flusher turn.now (flusher_of flusher (seen self.old)).wheel (seen self.old)) }
    {
        if self.flushers[flusher as usize].wheel.is_some() {
            return self.age(trace, cpu, flusher, turn.began, turn.over);
        }
        let until = turn.began + FLUSHER_REST;
        if turn.over {
            return self.take_or_rest(trace, cpu, flusher, until);
        }
        self.rest_until(flusher, until);
        Ok(())
    }

    /// The step `unmark`: clears the mark of the inode that was taken, and begins its scan.
    pub fn unmark(&mut self, trace: &Trace, cpu: u32) -> Result<(), AllocError>
        requires cpu { cpu < length (seen self.old).cpus }
        requires fits { OfFlusher (λ flusher phase. TakenFits trace.now flusher (seen self.old) phase) (seen self.old) (cpu_of cpu (seen self.old)).turn.whose }
        ensures { OnOk result (seen self.new ≡ spec.unmark trace.now cpu (seen self.old)) }
    {
        match self.whose(cpu) {
            Whose::Task { .. } => Ok(()),
            Whose::Flusher { flusher } => self.unmark_in(trace, cpu, flusher),
        }
    }

    fn unmark_in(&mut self, trace: &Trace, cpu: u32, flusher: u32) -> Result<(), AllocError>
        requires flusher { flusher < length (seen self.old).flushers }
        requires fits { TakenFits trace.now flusher (seen self.old) (flusher_of flusher (seen self.old)).phase }
        ensures { OnOk result (seen self.new ≡ spec.unmark_in trace.now cpu flusher (flusher_of flusher (seen self.old)).phase (seen self.old)) }
    {
        match self.phase(flusher) {
            ReplayPhase::Taken { inode } => self.unmark_of(trace, cpu, flusher, inode),
            ReplayPhase::Idle { .. }
            | ReplayPhase::Scanning { .. }
            | ReplayPhase::Flying { .. }
            | ReplayPhase::Finished => Ok(()),
        }
    }

    fn unmark_of(
        &mut self,
        trace: &Trace,
        cpu: u32,
        flusher: u32,
        inode: u32,
    ) -> Result<(), AllocError>
        requires flusher { HasFlusher trace.now flusher (length (seen self.old).flushers) (length (seen self.old).queues) }
        requires inode { HasInode trace.now inode (length (seen self.old).marks) (length (seen self.old).queues) }
        requires context { things.context_of trace.now inode < length (seen self.old).contexts }
        requires place { inode < length (flusher_of flusher (seen self.old)).places }
        ensures { OnOk result (seen self.new ≡ spec.unmark_of trace.now cpu flusher inode (seen self.old)) }
    {
        let phase = self.scan_of(trace, flusher, inode);
        self.marks[inode as usize] = false;
        self.set_phase(flusher, phase);
        self.plain_step(cpu, StepKind::Unmark)
    }

    fn scan_of(&self, trace: &Trace, flusher: u32, inode: u32) -> ReplayPhase
        requires flusher { HasFlusher trace.now flusher (length (seen self.now).flushers) (length (seen self.now).queues) }
        requires inode { inode < length trace.now.inodes }
        requires context { things.context_of trace.now inode < length (seen self.now).contexts }
        requires place { inode < length (flusher_of flusher (seen self.now)).places }
        ensures { result ≡ spec.scan_of trace.now flusher inode (seen self.now) }
    {
        let context = context_of(trace, inode);
        let avg = self.contexts[context as usize].estimate.avg;
        let Inode { first, pages, .. } = inode_at(trace, inode);
        let device = device_at(trace, flusher_device(trace, flusher));
        ReplayPhase::Scanning {
            scan: Scan {
                inode,
                first,
                pages,
                start: self.start_of(trace, flusher, inode),
                passed: 0,
                quota: quota_of(&device, avg, self.flushers[flusher as usize].hard),
                noted: false,
            },
        }
    }

    // The place of the inode at which its scan begins.
    fn start_of(&self, trace: &Trace, flusher: u32, inode: u32) -> u32
        requires flusher { HasFlusher trace.now flusher (length (seen self.now).flushers) (length (seen self.now).queues) }
        requires place { inode < length (flusher_of flusher (seen self.now)).places }
        ensures { result ≡ spec.start_of trace.now flusher inode (seen self.now) }
    {
        if device_at(trace, flusher_device(trace, flusher)).cyclic {
            self.flushers[flusher as usize].places.get(inode)
        } else {
            0
        }
    }
}

impl Cpu {
    // Puts the loads of so many domains last.
    fn put_loads(&mut self, domains: u32) -> Result<(), AllocError>
        ensures { OnOk result (self.new ≡ cpus.do_last (spec.domain_loads domains 0) self.old) }
    {
        for domain in 0..domains {
            self.put_load(domain)?;
        }
        Ok(())
    }

    fn put_load(&mut self, domain: u32) -> Result<(), AllocError>
        ensures { OnOk result (self.new ≡ cpus.do_last (Todo.Step (Step.First domain) ∷ Todo.Step (Step.Middle domain) ∷ Todo.Step (Step.Limits domain) ∷ Todo.Step (Step.Count (Counter.Domain domain)) ∷ []) self.old) }
    {
        let counter = Counter::Domain(domain);
        self.do_last(Todo::Step(Step::First { domain }))?;
        self.do_last(Todo::Step(Step::Middle { domain }))?;
        self.do_last(Todo::Step(Step::Limits { domain }))?;
        self.do_last(Todo::Step(Step::Count { counter }))
    }

    // Puts the load and the update of each of these contexts last whose estimate is old enough.
    fn put_measures(
        &mut self,
        measures: &[u32],
        contexts: &[Writeback],
        now: u64,
    ) -> Result<(), AllocError>
        requires there { All (λ k. k < length contexts.now) measures.now }
        requires ages { (k : ℕ) → k < length contexts.now → (get_or contexts.now k no_context).estimate.at < 2 ^ 62 }
        ensures { (s : State) → s.contexts ≡ contexts.now → s.now ≡ now → OnOk result (self.new ≡ cpus.do_last (spec.measures_of measures.now s) self.old) }
    {
        for context in measures {
            self.put_measure(*context, contexts, now)?;
        }
        Ok(())
    }

    fn put_measure(
        &mut self,
        context: u32,
        contexts: &[Writeback],
        now: u64,
    ) -> Result<(), AllocError>
        requires there { context < length contexts.now }
        requires age { (get_or contexts.now context no_context).estimate.at < 2 ^ 62 }
        ensures { (s : State) → s.contexts ≡ contexts.now → s.now ≡ now → OnOk result (self.new ≡ cpus.do_last (spec.measure context s) self.old) }
    {
        if contexts[context as usize].estimate.at + ESTIMATE_AGE <= now {
            let counter = Counter::Context(context);
            self.do_last(Todo::Step(Step::Count { counter }))?;
            return self.do_last(Todo::Silent(Silent::Estimate { context }));
        }
        Ok(())
    }

    // Puts the load and the test of each of these contexts last.
    fn put_weighs(&mut self, weighs: &[u32]) -> Result<(), AllocError>
        ensures { OnOk result (self.new ≡ cpus.do_last (spec.weighs_of weighs.now) self.old) }
    {
        for context in weighs {
            self.put_weigh(*context)?;
        }
        Ok(())
    }

    fn put_weigh(&mut self, context: u32) -> Result<(), AllocError>
        ensures { OnOk result (self.new ≡ cpus.do_last (Todo.Step (Step.Count (Counter.Context context)) ∷ Todo.Silent (Silent.Weigh context) ∷ []) self.old) }
    {
        let counter = Counter::Context(context);
        self.do_last(Todo::Step(Step::Count { counter }))?;
        self.do_last(Todo::Silent(Silent::Weigh { context }))
    }
}
