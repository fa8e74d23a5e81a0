//! A check of a writer: what it has read, and what the control law decides by it.

ghost use Rattle.std.specs.Prelude.{◌≡◌, ◌<◌, ◌≤◌, ◌^◌, length, OnOk};
ghost use Rattle.wbt_replay_moves.specs.Definition.Check as spec;
ghost use Rattle.wbt_task.specs.History.{checked_writer as checked_value, due_again as again_value};
ghost use Rattle.wbt_replay_moves.specs.Definition.State.{cpu_of, task_of, domain_of, writeback_of};
ghost use Rattle.wbt_rules.specs.Things as things;
ghost use Rattle.wbt_replay_moves.specs.Kept.Fit.{CheckFits, DecideFits, IsCpus, IsPart, ReadFits};
ghost use Rattle.wbt_pause.specs.Reads.{IsReadable};
ghost use Rattle.wbt_strict.specs.Claims.{ArePartsWithin};
ghost use Rattle.wbt_replay_moves.specs.Seen.{seen};

use crate::machine::Machine;
use crate::state::{Load, ReplayTurn, Whose};
use std::alloc::AllocError;
use wbt_flex::{Half, fraction};
use wbt_journal::{CheckEntry, DomainLine};
use wbt_pause::{Decision, Kind, Reads};
use wbt_rules::{group_of, is_strict};
use wbt_strict::decide_for;
use wbt_task::{Due, Writer};
use wbt_trace::Trace;

impl Machine {
    /// Silent: the check of the task's last writer is decided.
    pub fn decide(&mut self, trace: &Trace, cpu: u32) -> Result<(), AllocError>
        requires cpu { cpu < length (seen self.old).cpus }
        requires fits { DecideFits trace.now (seen self.old) (cpu_of cpu (seen self.old)).turn (cpu_of cpu (seen self.old)).turn.whose }
        ensures { OnOk result (seen self.new ≡ spec.decide trace.now cpu (seen self.old)) }
    {
        match self.whose(cpu) {
            Whose::Task { task } => {
                let context = self.tasks[task as usize].context;
                self.decide_for(trace, cpu, task, context)
            }
            Whose::Flusher { .. } => Ok(()),
        }
    }

    fn decide_for(
        &mut self,
        trace: &Trace,
        cpu: u32,
        task: u32,
        context: u32,
    ) -> Result<(), AllocError>
        requires cpu { cpu < length (seen self.old).cpus }
        requires fits { CheckFits trace.now task context (cpu_of cpu (seen self.old)).turn (seen self.old) }
        ensures { OnOk result (seen self.new ≡ spec.decide_for trace.now cpu task context (seen self.old)) }
    {
        let turn = self.cpus[cpu as usize].turn;
        let decision = self.decision_at(trace, context, task, &turn);
        let check = self.check_of(trace, task, context, &turn, decision);
        self.tell_task(task, context, decision);
        self.cpus[cpu as usize].log_check(check)
    }

    fn decision_at(&self, trace: &Trace, context: u32, task: u32, turn: &ReplayTurn) -> Decision
        requires fits { CheckFits trace.now task context turn.now (seen self.now) }
        ensures value { result ≡ spec.decision_at trace.now context (task_of task (seen self.now)) turn.now (seen self.now) }
        ensures short { result.pause ≤ 200 }
    {
        let reads = self.reads_of(trace, context, turn);
        let estimate = self.contexts[context as usize].estimate;
        let writer = self.tasks[task as usize].writers.get(context);
        decide_for(
            is_strict(trace, context),
            &reads,
            &estimate,
            writer.task,
            self.clock,
        )
    }

    fn reads_of(&self, trace: &Trace, context: u32, turn: &ReplayTurn) -> Reads
        requires fits { ReadFits trace.now context turn.now (seen self.now) }
        requires cpus { IsCpus trace.now }
        requires cap { 1 ≤ trace.now.cap }
        ensures value { result ≡ spec.reads_of trace.now context turn.now (seen self.now) }
        ensures readable { IsReadable result }
        ensures parts { ArePartsWithin result }
    {
        let global = self.global_line(context, turn).read_for(trace, context);
        let cgroup = match self.cgroup_line(trace, context, turn) {
            None => None,
            Some(line) => Some(line.read_for(trace, context)),
        };
        Reads {
            global,
            cgroup,
            wb_dirty: turn.context.reading(),
            cpus: trace.cpus,
            cap: trace.cap,
        }
    }

    /// What the turn has read of the global domain for the context.
    pub fn global_line(&self, context: u32, turn: &ReplayTurn) -> DomainLine
        requires context { context < length (seen self.now).contexts }
        requires domain { 0 < length (seen self.now).domains }
        requires part { IsPart (domain_of 0 (seen self.now)).events (writeback_of context (seen self.now)).part }
        ensures { result ≡ spec.global_line context turn.now (seen self.now) }
    {
        self.line_of(0, &turn.global, self.contexts[context as usize].part)
    }

    fn cgroup_line(&self, trace: &Trace, context: u32, turn: &ReplayTurn) -> Option<DomainLine>
        requires line { context < length trace.now.contexts }
        requires context { context < length (seen self.now).contexts }
        requires domain { things.group_of trace.now context < length (seen self.now).domains }
        requires part { IsPart (domain_of (things.group_of trace.now context) (seen self.now)).events (writeback_of context (seen self.now)).cgroup_part }
        ensures { result ≡ spec.cgroup_line (things.group_of trace.now context) context turn.now (seen self.now) }
    {
        let group = group_of(trace, context);
        if group == 0 {
            None
        } else {
            Some(self.line_of(
                group,
                &turn.cgroup,
                self.contexts[context as usize].cgroup_part,
            ))
        }
    }

    /// What was loaded of a domain, with the fraction that a part of it has at this moment.
    pub fn line_of(&self, domain: u32, load: &Load, part: Half) -> DomainLine
        requires domain { domain < length (seen self.now).domains }
        requires part { part.period ≤ (domain_of domain (seen self.now)).events.period }
        ensures { result ≡ spec.line_of domain load.now part (seen self.now) }
    {
        DomainLine {
            domain,
            triple: load.version,
            limits: load.limits,
            count: load.count,
            share: fraction(part, self.domains[domain as usize].events),
        }
    }

    fn check_of(
        &self,
        trace: &Trace,
        task: u32,
        context: u32,
        turn: &ReplayTurn,
        decision: Decision,
    ) -> CheckEntry
        requires fits { ReadFits trace.now context turn.now (seen self.now) }
        ensures { result ≡ spec.check_of trace.now task context turn.now decision (seen self.now) }
    {
        CheckEntry {
            task,
            context,
            now: self.clock,
            global: self.global_line(context, turn),
            cgroup: self.cgroup_line(trace, context, turn),
            count: turn.context,
            estimate: self.contexts[context as usize].estimate.version,
            decision,
        }
    }

    // The writer has what was decided, and its task rests as long.
    fn tell_task(&mut self, task: u32, context: u32, decision: Decision)
        requires task { task < length (seen self.old).tasks }
        requires context { context < length (task_of task (seen self.old)).writers }
        requires moment { (seen self.old).now < 2 ^ 62 }
        requires pause { decision.pause ≤ 200 }
        ensures { seen self.new ≡ spec.tell_task task context decision (seen self.old) }
    {
        let at = &mut self.tasks[task as usize];
        at.writers.put(context, checked_writer(decision));
        if decision.pause > 0 {
            at.rest = self.clock + decision.pause;
        }
    }
}

// A writer with what was decided. One that waits is checked again.
fn checked_writer(decision: Decision) -> Writer
    ensures { result ≡ checked_value decision }
{
    Writer {
        task: decision.task,
        left: decision.left,
        exceeded: decision.exceeded,
        due: due_again(decision.kind),
    }
}

fn due_again(kind: Kind) -> Due
    ensures { result ≡ again_value kind }
{
    match kind {
        Kind::Wait => Due::Check,
        Kind::Free | Kind::Go | Kind::Exempt => Due::No,
    }
}
