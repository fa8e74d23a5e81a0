//! A turn of a flusher that flies: it completes the batch's next page, and after the last one counts the batch in.

ghost use Rattle.std.specs.Prelude.{◌≡◌, ◌+◌, ◌<◌, ◌≤◌, ◌^◌, length, OnOk, All};
ghost use Rattle.wbt_flex.specs.Proportions.{added as added_value};
ghost use Rattle.wbt_replay_moves.specs.Definition.Flight as spec;
ghost use Rattle.wbt_replay_moves.specs.Definition.State.{cpu_of, flusher_of, domain_of, writeback_of};
ghost use Rattle.wbt_rules.specs.Things.{group_of as group_value};
ghost use Rattle.wbt_replay_moves.specs.Kept.Fit.{FlightFits, FlyingFits, HasContext, IsPart, OfFlusher};
ghost use Rattle.wbt_replay_moves.specs.Seen.{seen};

use crate::machine::Machine;
use crate::state::{ReplayPhase, Whose, Writeback};
use crate::todo::{Silent, Todo};
use std::alloc::AllocError;
use wbt_flex::{Half, age, fraction, may_add};
use wbt_grant::StepKind;
use wbt_journal::Entry;
use wbt_rules::{context_of, group_of, max_share};
use wbt_trace::Trace;

impl Machine {
    /// The step `complete`: ends the writeback of the batch's next page.
    pub fn complete(&mut self, trace: &Trace, cpu: u32) -> Result<(), AllocError>
        requires cpu { cpu < length (seen self.old).cpus }
        requires fits { OfFlusher (λ flusher phase. FlyingFits trace.now flusher (seen self.old) phase) (seen self.old) (cpu_of cpu (seen self.old)).turn.whose }
        ensures { OnOk result (seen self.new ≡ spec.complete trace.now cpu (seen self.old)) }
    {
        match self.whose(cpu) {
            Whose::Task { .. } => Ok(()),
            Whose::Flusher { flusher } => self.complete_in(trace, cpu, flusher),
        }
    }

    fn complete_in(&mut self, trace: &Trace, cpu: u32, flusher: u32) -> Result<(), AllocError>
        requires cpu { cpu < length (seen self.old).cpus }
        requires flusher { flusher < length (seen self.old).flushers }
        requires fits { FlyingFits trace.now flusher (seen self.old) (flusher_of flusher (seen self.old)).phase }
        ensures { OnOk result (seen self.new ≡ spec.complete_in trace.now cpu flusher (flusher_of flusher (seen self.old)).phase (seen self.old)) }
    {
        match self.phase(flusher) {
            ReplayPhase::Flying { inode, .. } => {
                let context = context_of(trace, inode);
                self.complete_first(trace, cpu, flusher, context)
            }
            ReplayPhase::Idle { .. }
            | ReplayPhase::Taken { .. }
            | ReplayPhase::Scanning { .. }
            | ReplayPhase::Finished => Ok(()),
        }
    }

    fn complete_first(
        &mut self,
        trace: &Trace,
        cpu: u32,
        flusher: u32,
        context: u32,
    ) -> Result<(), AllocError>
        requires cpu { cpu < length (seen self.old).cpus }
        requires flusher { flusher < length (seen self.old).flushers }
        requires context { context < length trace.now.contexts }
        requires batch { All (λ p. p < (seen self.old).pages) (flusher_of flusher (seen self.old)).batch }
        ensures { OnOk result (seen self.new ≡ spec.complete_first trace.now cpu flusher context (flusher_of flusher (seen self.old)).batch (seen self.old)) }
    {
        match self.flushers[flusher as usize].batch.pop_front() {
            None => Ok(()),
            Some(page) => self.complete_page(trace, cpu, flusher, context, page),
        }
    }

    fn complete_page(
        &mut self,
        trace: &Trace,
        cpu: u32,
        flusher: u32,
        context: u32,
        page: u32,
    ) -> Result<(), AllocError>
        requires cpu { cpu < length (seen self.old).cpus }
        requires context { context < length trace.now.contexts }
        requires page { page < (seen self.old).pages }
        ensures { OnOk result (seen self.new ≡ spec.complete_page trace.now cpu flusher context page (seen self.old)) }
    {
        let group = group_of(trace, context);
        self.set_completed(page);
        self.log(cpu, Entry::Done { flusher, page })?;
        self.owe(cpu, -1, context, group, Todo::Silent(Silent::Land))?;
        self.step(cpu, StepKind::Complete, context, -1)
    }

    /// Silent: where no page is left of the batch it is counted in, and the flusher is idle.
    pub fn land(&mut self, trace: &Trace, cpu: u32) -> Result<(), AllocError>
        requires cpu { cpu < length (seen self.old).cpus }
        requires fits { OfFlusher (λ flusher phase. FlyingFits trace.now flusher (seen self.old) phase) (seen self.old) (cpu_of cpu (seen self.old)).turn.whose }
        ensures { OnOk result (seen self.new ≡ spec.land trace.now cpu (seen self.old)) }
    {
        match self.whose(cpu) {
            Whose::Task { .. } => Ok(()),
            Whose::Flusher { flusher } => self.land_in(trace, cpu, flusher),
        }
    }

    fn land_in(&mut self, trace: &Trace, cpu: u32, flusher: u32) -> Result<(), AllocError>
        requires cpu { cpu < length (seen self.old).cpus }
        requires flusher { flusher < length (seen self.old).flushers }
        requires fits { FlyingFits trace.now flusher (seen self.old) (flusher_of flusher (seen self.old)).phase }
        ensures { OnOk result (seen self.new ≡ spec.land_in trace.now cpu flusher (flusher_of flusher (seen self.old)).phase (seen self.old)) }
    {
        match self.phase(flusher) {
            ReplayPhase::Flying { inode, pages, .. } => {
                if !self.flushers[flusher as usize].batch.is_empty() {
                    return Ok(());
                }
                let context = context_of(trace, inode);
                self.landed(trace, cpu, flusher, context, pages)
            }
            ReplayPhase::Idle { .. }
            | ReplayPhase::Taken { .. }
            | ReplayPhase::Scanning { .. }
            | ReplayPhase::Finished => Ok(()),
        }
    }

    fn landed(
        &mut self,
        trace: &Trace,
        cpu: u32,
        flusher: u32,
        context: u32,
        n: u64,
    ) -> Result<(), AllocError>
        requires cpu { cpu < length (seen self.old).cpus }
        requires flusher { flusher < length (seen self.old).flushers }
        requires context { HasContext trace.now context (length (seen self.old).contexts) (length (seen self.old).domains) }
        requires written { (writeback_of context (seen self.old)).written + n < 2 ^ 62 }
        requires few { n < 2 ^ 39 }
        requires part { IsPart (domain_of 0 (seen self.old)).events (writeback_of context (seen self.old)).part }
        requires cgroup_part { IsPart (domain_of (group_value trace.now context) (seen self.old)).events (writeback_of context (seen self.old)).cgroup_part }
        ensures { OnOk result (seen self.new ≡ spec.landed trace.now cpu flusher context n (seen self.old)) }
    {
        let group = group_of(trace, context);
        self.set_phase(
            flusher,
            ReplayPhase::Idle {
                until: 0,
                kept: false,
            },
        );
        self.add_written(context, n);
        self.share(trace, cpu, 0, context, n)?;
        if group == 0 {
            return Ok(());
        }
        self.share(trace, cpu, group, context, n)
    }

    fn add_written(&mut self, context: u32, n: u64)
        requires context { context < length (seen self.old).contexts }
        requires written { (writeback_of context (seen self.old)).written + n < 2 ^ 62 }
        ensures { seen self.new ≡ spec.with_written context n (seen self.old) }
    {
        self.contexts[context as usize].written += n;
    }

    // Part and domain get the batch, where the fraction is at most the device's greatest share.
    fn share(
        &mut self,
        trace: &Trace,
        cpu: u32,
        domain: u32,
        context: u32,
        n: u64,
    ) -> Result<(), AllocError>
        requires cpu { cpu < length (seen self.old).cpus }
        requires domain { domain < length (seen self.old).domains }
        requires context { HasContext trace.now context (length (seen self.old).contexts) (length (seen self.old).domains) }
        requires few { n < 2 ^ 39 }
        requires part { IsPart (domain_of domain (seen self.old)).events (spec.part_in domain (writeback_of context (seen self.old))) }
        ensures { OnOk result (seen self.new ≡ spec.share trace.now cpu domain context n (seen self.old)) }
    {
        let part = self.contexts[context as usize].part_in(domain);
        let events = self.domains[domain as usize].events;
        if may_add(&fraction(part, events), max_share(trace, context)) {
            self.share_now(cpu, domain, context, n)
        } else {
            Ok(())
        }
    }

    fn share_now(&mut self, cpu: u32, domain: u32, context: u32, n: u64) -> Result<(), AllocError>
        requires cpu { cpu < length (seen self.old).cpus }
        requires domain { domain < length (seen self.old).domains }
        requires context { context < length (seen self.old).contexts }
        requires few { n < 2 ^ 39 }
        requires part { IsPart (domain_of domain (seen self.old)).events (spec.part_in domain (writeback_of context (seen self.old))) }
        ensures { OnOk result (seen self.new ≡ spec.share_now cpu domain context n (seen self.old)) }
    {
        let part = self.contexts[context as usize].part_in(domain);
        let events = self.domains[domain as usize].events;
        let part = grown(age(part, events.period), n);
        self.domains[domain as usize].events = grown(events, n);
        self.contexts[context as usize].set_part(domain, part);
        self.log(cpu, Entry::Share { domain, context, n })
    }
}

impl Writeback {
    // The context's part in a domain.
    fn part_in(&self, domain: u32) -> Half
        ensures { result ≡ spec.part_in domain self.now }
    {
        if domain == 0 {
            self.part
        } else {
            self.cgroup_part
        }
    }

    fn set_part(&mut self, domain: u32, part: Half)
        ensures { self.new ≡ spec.with_part domain part self.old }
    {
        if domain == 0 {
            self.part = part;
        } else {
            self.cgroup_part = part;
        }
    }
}

// So many events more.
fn grown(half: Half, n: u64) -> Half
    requires { half.events + n < 2 ^ 64 }
    ensures { result ≡ added_value half n }
{
    Half {
        period: half.period,
        events: half.events + n,
    }
}
