//! The test of a context of a strict device: whether it is over its own part of a background threshold.

ghost use Rattle.std.specs.Prelude.{◌≡◌, ◌<◌, ◌≤◌, ◌⊎◌, ◌↔◌, IfSome, IsTrue, length};
ghost use Rattle.wbt_num.specs.Limits.{IsLawful};
ghost use Rattle.wbt_pause.specs.Reads.{EachDomain, SomeDomain};
ghost use Rattle.wbt_strict.specs.Claims.{ArePartsWithin};
ghost use Rattle.wbt_rules.specs.Things as things;
ghost use Rattle.wbt_replay_moves.specs.Definition.State.{cpu_of, domain_of, writeback_of};
ghost use Rattle.wbt_replay_moves.specs.Definition.Weigh as spec;
ghost use Rattle.wbt_replay_moves.specs.Definition.Weigh.{IsOverOwn};
ghost use Rattle.wbt_replay_moves.specs.Kept.Fit.{HoldsLimits, IsLine, IsPart, WeighFits};
ghost use Rattle.wbt_replay_moves.specs.Seen.{seen};

use crate::machine::Machine;
use crate::state::{Cpu, Held, Load};
use wbt_counter::Count;
use wbt_flex::Half;
use wbt_journal::DomainLine;
use wbt_pause::Reads;
use wbt_rules::{group_of, is_over_own};
use wbt_trace::Trace;

impl Machine {
    /// Silent: the turn notes where the context, whose count it has loaded, is over its own part of a domain's background threshold.
    pub fn weigh(&mut self, trace: &Trace, cpu: u32, context: u32)
        requires cpu { cpu < length (seen self.old).cpus }
        requires fits { WeighFits trace.now cpu context (seen self.old) }
        ensures value { seen self.new ≡ spec.weigh trace.now cpu context (seen self.old) }

        // It is over exactly where it was, or where the context reads more pages than its part of some domain's background threshold.
        ensures over { IsTrue (cpu_of cpu (seen self.new)).turn.over ↔ (IsTrue (cpu_of cpu (seen self.old)).turn.over ⊎ SomeDomain (IsOverOwn (spec.weighed_by trace.now context (cpu_of cpu (seen self.old)) (seen self.old)).wb_dirty) (spec.weighed_by trace.now context (cpu_of cpu (seen self.old)) (seen self.old))) }
    {
        let reads = self.weighed_by(trace, cpu, context);
        let over = is_over_by_itself(&reads);
        self.cpus[cpu as usize].note_over(over);
    }

    fn weighed_by(&self, trace: &Trace, cpu: u32, context: u32) -> Reads
        requires cpu { cpu < length (seen self.now).cpus }
        requires fits { WeighFits trace.now cpu context (seen self.now) }
        ensures value { result ≡ spec.weighed_by trace.now context (cpu_of cpu (seen self.now)) (seen self.now) }
        ensures lawful { EachDomain (λ domain. IsLawful domain.limits) result }
        ensures parts { ArePartsWithin result }
    {
        let at = &self.cpus[cpu as usize];
        let global = self
            .held_line(0, at, self.contexts[context as usize].part)
            .read_for(trace, context);
        let cgroup = match self.held_in_group(trace, at, context) {
            None => None,
            Some(line) => Some(line.read_for(trace, context)),
        };
        Reads {
            global,
            cgroup,
            wb_dirty: at.turn.context.reading(),
            cpus: trace.cpus,
            cap: trace.cap,
        }
    }

    fn held_in_group(&self, trace: &Trace, at: &Cpu, context: u32) -> Option<DomainLine>
        requires line { context < length trace.now.contexts }
        requires context { context < length (seen self.now).contexts }
        requires domain { things.group_of trace.now context < length (seen self.now).domains }
        requires held { HoldsLimits (things.group_of trace.now context) at.now }
        requires part { IsPart (domain_of (things.group_of trace.now context) (seen self.now)).events (writeback_of context (seen self.now)).cgroup_part }
        ensures value { result ≡ spec.held_in_group (things.group_of trace.now context) context at.now (seen self.now) }
        ensures fits { IfSome result IsLine }
    {
        let group = group_of(trace, context);
        if group == 0 {
            None
        } else {
            Some(self.held_line(group, at, self.contexts[context as usize].cgroup_part))
        }
    }

    // The limits that the CPU holds, with the fraction that a part has at this moment.
    fn held_line(&self, domain: u32, at: &Cpu, part: Half) -> DomainLine
        requires domain { domain < length (seen self.now).domains }
        requires held { HoldsLimits domain at.now }
        requires part { IsPart (domain_of domain (seen self.now)).events part }
        ensures value { result ≡ spec.held_line domain at.now part (seen self.now) }
        ensures fits { IsLine result }
    {
        self.line_of(domain, &held_load(at.held.get(domain)), part)
    }
}

impl Cpu {
    fn note_over(&mut self, over: bool)
        ensures { self.new ≡ spec.over_noted over self.old }
    {
        self.turn.over = self.turn.over || over;
    }
}

// What a CPU holds of a domain, beside which no count is needed.
fn held_load(held: Held) -> Load
    ensures { result ≡ spec.held_load held }
{
    Load {
        version: held.version,
        limits: held.limits,
        count: Count {
            version: 0,
            value: 0,
        },
    }
}

fn is_over_by_itself(reads: &Reads) -> bool
    requires lawful { EachDomain (λ domain. IsLawful domain.limits) reads.now }
    requires parts { ArePartsWithin reads.now }
    ensures value { result ≡ spec.is_over_by_itself reads.now }
    ensures over { IsTrue result ↔ SomeDomain (IsOverOwn reads.now.wb_dirty) reads.now }
{
    if is_over_own(reads.wb_dirty, &reads.global) {
        return true;
    }
    match &reads.cgroup {
        None => false,
        Some(cgroup) => is_over_own(reads.wb_dirty, cgroup),
    }
}
