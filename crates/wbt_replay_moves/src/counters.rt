//! Steps on counters: an event is added to the CPU's own number, a full number is folded into the shared count, and cleared. And
//! the loads, which the turn keeps.

ghost use Rattle.std.specs.Prelude.{◌≡◌, ◌<◌, ◌≤◌, ◌+ℤ◌, ◌||◌, unsigned_abs, length, OnOk};
ghost use Rattle.wbt_journal.specs.Machine.{batch_of as batch_value};
ghost use Rattle.wbt_replay_moves.specs.Definition.Counters as spec;
ghost use Rattle.wbt_replay_moves.specs.Definition.Cpu.{own_of};
ghost use Rattle.wbt_replay_moves.specs.Definition.State.{cpu_of, count_of};
ghost use Rattle.wbt_replay_moves.specs.Kept.Fit.{HasOwn, HasCount, IsOwn, CanFold, IsCpus};
ghost use Rattle.wbt_replay_moves.specs.Seen.{seen};

use crate::machine::Machine;
use crate::state::{Cpu, Domain, Found, Held, ReplayTurn};
use std::alloc::AllocError;
use wbt_counter::{Count, Counter};
use wbt_grant::{StepKind, context_batch, domain_batch};
use wbt_num::Limits;
use wbt_rules::is_or_was_over;
use wbt_trace::Trace;

/// How many pages a CPU's own number of the counter may come to.
pub fn batch_of(trace: &Trace, counter: Counter) -> u64
    requires { IsCpus trace.now }
    ensures value { result ≡ batch_value trace.now counter }
    ensures few { result ≤ 512 }
{
    match counter {
        Counter::Domain(_) => domain_batch(trace.cpus),
        Counter::Context(_) => context_batch(trace.cpus),
    }
}

impl Machine {
    /// The step `add`: adds an owed event to the CPU's own number.
    pub fn add(
        &mut self,
        trace: &Trace,
        cpu: u32,
        counter: Counter,
        change: i64,
    ) -> Result<(), AllocError>
        requires cpus { IsCpus trace.now }
        requires cpu { cpu < length (seen self.old).cpus }
        requires own { HasOwn counter (cpu_of cpu (seen self.old)) }
        requires below { IsOwn (batch_value trace.now counter) (own_of counter (cpu_of cpu (seen self.old))) }
        requires one { unsigned_abs change ≡ 1 }
        ensures { OnOk result (seen self.new ≡ spec.add trace.now cpu counter change (seen self.old)) }
    {
        self.cpus[cpu as usize].add(counter, change, batch_of(trace, counter))?;
        self.plain_step(cpu, StepKind::Add)
    }

    /// The step `fold`: the shared count grows by the CPU's own number.
    pub fn fold(&mut self, cpu: u32, counter: Counter) -> Result<(), AllocError>
        requires cpu { cpu < length (seen self.old).cpus }
        requires own { HasOwn counter (cpu_of cpu (seen self.old)) }
        requires count { HasCount counter (seen self.old) }
        requires fits { CanFold (own_of counter (cpu_of cpu (seen self.old))) (count_of counter (seen self.old)) }
        ensures { OnOk result (seen self.new ≡ spec.fold cpu counter (seen self.old)) }
    {
        let count = self.count(counter);
        let at = &mut self.cpus[cpu as usize];
        let pages = at.own(counter);
        at.fold(counter, count)?;
        self.set_count(
            counter,
            Count {
                version: count.version + 1,
                value: count.value + pages,
            },
        );
        self.plain_step(cpu, StepKind::Fold)
    }

    /// The step `clear`: the CPU's own number, which was folded, is 0.
    pub fn clear(&mut self, cpu: u32, counter: Counter) -> Result<(), AllocError>
        requires cpu { cpu < length (seen self.old).cpus }
        requires own { HasOwn counter (cpu_of cpu (seen self.old)) }
        ensures { OnOk result (seen self.new ≡ spec.clear cpu counter (seen self.old)) }
    {
        self.cpus[cpu as usize].set_own(counter, 0);
        self.plain_step(cpu, StepKind::Clear)
    }

    /// The step `first`: the turn keeps the domain's sequence word.
    pub fn load_first(&mut self, cpu: u32, domain: u32) -> Result<(), AllocError>
        requires cpu { cpu < length (seen self.old).cpus }
        requires domain { domain < length (seen self.old).domains }
        ensures { OnOk result (seen self.new ≡ spec.load_first cpu domain (seen self.old)) }
    {
        let at = self.domains[domain as usize];
        self.cpus[cpu as usize].turn.found = at.sequence_word();
        self.plain_step(cpu, StepKind::First)
    }

    /// The step `middle`, which loads the domain's thresh word.
    pub fn load_middle(&mut self, cpu: u32) -> Result<(), AllocError>
        ensures { OnOk result (seen self.new ≡ spec.load_middle cpu (seen self.old)) }
    {
        self.plain_step(cpu, StepKind::Middle)
    }

    /// The step `limits`: the turn keeps the limits of the domain that its CPU holds from now on.
    pub fn load_limits(&mut self, cpu: u32, domain: u32) -> Result<(), AllocError>
        requires cpu { cpu < length (seen self.old).cpus }
        requires domain { domain < length (seen self.old).domains }
        requires held { domain < length (cpu_of cpu (seen self.old)).held }
        ensures { OnOk result (seen self.new ≡ spec.load_limits cpu domain (seen self.old)) }
    {
        let at = self.domains[domain as usize];
        self.cpus[cpu as usize].hold(domain, at);
        self.plain_step(cpu, StepKind::Limits)
    }

    /// The step `count`: the turn keeps the counter's shared count.
    pub fn load_count(&mut self, cpu: u32, counter: Counter) -> Result<(), AllocError>
        requires cpu { cpu < length (seen self.old).cpus }
        requires count { HasCount counter (seen self.old) }
        ensures { OnOk result (seen self.new ≡ spec.load_count cpu counter (seen self.old)) }
    {
        let count = self.count(counter);
        self.cpus[cpu as usize].turn.keep_count(counter, count);
        self.plain_step(cpu, StepKind::Count)
    }
}

impl Domain {
    // What stands in its sequence word.
    fn sequence_word(&self) -> Found
        ensures { result ≡ spec.word_of self.now }
    {
        Found {
            sequence: self.sequence,
            hard: self.limits.hard,
        }
    }

    // Whether its limits were read whole by loads of which the first found this word.
    fn was_read_whole(&self, found: Found) -> bool
        ensures { result ≡ spec.is_whole found self.now }
    {
        found.sequence == self.sequence && found.hard == self.limits.hard && self.sequence % 2 == 0
    }

    // What a CPU holds of it after the last load, which held this before.
    fn held_after(&self, found: Found, held: Held) -> Held
        ensures { result ≡ spec.held_after found self.now held }
    {
        if self.was_read_whole(found) {
            Held {
                version: self.sequence / 2,
                limits: self.limits,
            }
        } else {
            held
        }
    }
}

impl Cpu {
    // The last load of the domain's limits, of which the turn keeps what the CPU holds after it.
    fn hold(&mut self, domain: u32, at: Domain)
        requires { domain < length self.old.held }
        ensures { self.new ≡ spec.holds domain at self.old }
    {
        let held = at.held_after(self.turn.found, self.held.get(domain));
        self.held.put(domain, held);
        self.turn.keep_limits(domain, held);
    }
}

impl ReplayTurn {
    /// Keeps the limits of a domain, with their version.
    pub fn keep_limits(&mut self, domain: u32, held: Held)
        ensures { self.new ≡ spec.limits_kept domain held self.old }
    {
        if domain == 0 {
            self.global.version = held.version;
            self.global.limits = held.limits;
        } else {
            self.cgroup.version = held.version;
            self.cgroup.limits = held.limits;
        }
    }

    /// Keeps the count of a counter. A domain that is over background is noted.
    pub fn keep_count(&mut self, counter: Counter, count: Count)
        ensures { self.new ≡ spec.count_kept counter count self.old }
    {
        match counter {
            Counter::Context(_) => self.context = count,
            Counter::Domain(domain) => {
                if domain == 0 {
                    self.global.count = count;
                    self.note_over(self.global.limits, count);
                } else {
                    self.cgroup.count = count;
                    self.note_over(self.cgroup.limits, count);
                }
            }
        }
    }

    fn note_over(&mut self, limits: Limits, count: Count)
        ensures { self.new ≡ record self.old { over = self.old.over || spec.is_over limits count } }
    {
        self.over = is_or_was_over(self.over, count.reading(), &limits);
    }
}
