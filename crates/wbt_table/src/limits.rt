//! Loads of limits and counts, grants, and the timer's steps.

ghost use Rattle.std.specs.Prelude.{◌≡◌, ◌≢◌, ◌-◌, ◌*◌, ◌/◌, ◌%◌, ◌^◌, ◌<◌, ◌≤◌, true, false, Some};
ghost use Rattle.wbt_num.specs.declared.limits.TheConstants.{LAST_SEQUENCE as LAST};
ghost use Rattle.wbt_num.specs.Limits.{IsLawful};
ghost use Rattle.wbt_limits.specs.Words.{sequence_in, limits_in};
ghost use Rattle.wbt_counter.specs.Word.{version_in};
ghost use Rattle.wbt_pause.specs.declared.decision.Kind.TheVariants.{Wait};
ghost use Rattle.wbt_grant.specs.declared.record.Finding.TheVariants.{Words};
ghost use Rattle.wbt_grant.specs.declared.who.Who.TheVariants.{Timer};
ghost use Rattle.wbt_grant.specs.Kinds.{first, middle, limits, count, peak, unseal, thresh, publish, IsWho, IsLoader, MayGrant, has_sequence, MayUnseal, MayThresh, MayPublish};
ghost use Rattle.wbt_grant.specs.Laws.{NoneAhead, AreBehind};
ghost use Rattle.wbt_grant.specs.Record.{granted};
ghost use Rattle.wbt_grant.specs.Seats.{is_timer, cpu_for};
ghost use Rattle.wbt_grant.specs.State.{found_of, held_of, sequence_of};
ghost use Rattle.wbt_table.specs.Held.{triple_number, triple_of};
ghost use Rattle.wbt_table.specs.History.{LogsGrant};
ghost use Rattle.wbt_table.specs.Layout.{setting, domains, HasCounter};
ghost use Rattle.wbt_table.specs.Rule.{Has, Holds};
ghost use Rattle.wbt_table.specs.Seat.{IsAt, Changes, LogComes, Makes, Times};
ghost use Rattle.wbt_table.specs.declared.answer.Put.TheVariants.{Last};
ghost use Rattle.wbt_table.specs.Calls as spec;
ghost use Rattle.wbt_table.specs.Calls.{Loads, HoldsWho, HoldsLoader, IsNewest, IsNewestVersion, is_whole_load, LoadsFor, LoadsLimits, MayPut, IsUnsealed, Puts};

use crate::answer::{Loaded, Put, Triple};
use crate::rule::Granted;
use crate::seat::{CpuSeat, Throttle};
use crate::state::{hold_grant, keep_steps, state_of, step};
use std::marker::Brand;
use wbt_counter::{Count, Counter, count_of, version_of};
use wbt_grant::Who;
use wbt_io::Gate;
use wbt_limits::{join_limits, sequence_of};
use wbt_num::{LAST_SEQUENCE, Limits};
use wbt_pause::Decision;

impl Throttle {
    /// Loads the limits of a domain, for a writer or a CPU (the steps `first`, `middle` and `limits`). The gate is asked before each
    /// step. Fresh where the limits stood whole: no version that the CPU has loaded of the domain is later, and the CPU holds them from
    /// now on. Again where the sequence word changed between the steps, or has an odd sequence: the answer is what the CPU holds still.
    /// In either case a writer keeps the limits that its CPU holds. Stopped where the gate answered false before one.
    ///
    /// Requires: a seat of this throttle that holds the CPU which loads: that of the writer, or the CPU itself. The timer loads no limits.
    /// The domain exists.
    pub fn load_limits<G: Gate>(
        &self,
        seat: &mut CpuSeat,
        who: Who,
        domain: u32,
        gate: &G,
    ) -> Loaded
        requires seat { IsAt self.now seat.old }
        requires there { domain < domains self.now.layout }
        requires held { HoldsLoader (setting self.now.layout) who seat.old }
        ensures { LoadsLimits (setting self.now.layout) who domain (G.said gate.now (cpu_for (setting self.now.layout) who)) result seat.old seat.new }
    {
        match who {
            Who::Timer => unreachable!(),
            Who::Cpu(cpu) => self.load_for(seat, who, cpu, domain, gate),
            Who::Writer(writer) => {
                let cpu = self.words.layout.writers.as_slice()[writer as usize].cpu;
                self.load_for(seat, who, cpu, domain, gate)
            }
        }
    }

    /// Loads the version and the count of a counter (the step `count`). The version isn't below any that this CPU has loaded or
    /// folded of it before. A writer keeps the reading.
    ///
    /// Requires: a seat of this throttle that holds who loads: the CPU of the writer, the CPU itself, or the timer. The counter is that of
    /// a domain or a context that exists.
    pub fn load_count(&self, seat: &mut CpuSeat, who: Who, counter: Counter) -> Count
        requires seat { IsAt self.now seat.old }
        requires there { HasCounter self.now.layout counter }
        requires held { HoldsWho (setting self.now.layout) who seat.old }
        ensures newest { IsNewest (setting self.now.layout) who counter result.version seat.old }
        ensures loads { (n : _) × (result ≡ spec.count_of n) × Loads (setting self.now.layout) who (count who counter) n seat.old seat.new }
    {
        match who {
            Who::Timer => told(self.timer_count(seat, counter)),
            Who::Cpu(cpu) => told(self.count_for(seat, who, cpu, counter)),
            Who::Writer(writer) => {
                let cpu = self.words.layout.writers.as_slice()[writer as usize].cpu;
                told(self.count_for(seat, who, cpu, counter))
            }
        }
    }

    /// Grants a writer the pages of a decision, which no Wait has. It makes no step: what the writer loaded last lets it
    /// through in each of its domains, and is used up.
    ///
    /// Requires: a seat of this throttle that holds the CPU of the writer, which exists; a decision other than Wait with 1 to `cap` pages; and
    /// for each domain of the writer's context, loaded since its last grant and its last fresh dirtying, either the limits and a count of the
    /// domain of at most the hard limit, or a count of the context of at most the error.
    pub fn grant(&self, seat: &mut CpuSeat, writer: u32, decision: &Decision)
        requires seat { IsAt self.now seat.old }
        requires no_wait { decision.now.kind ≢ Wait }
        requires may { Holds seat.old.cpus ((setting self.now.layout).seat writer) (MayGrant (setting self.now.layout) writer decision.now.left) }
        ensures changes { Changes ((setting self.now.layout).seat writer) (granted writer decision.now.left) seat.old seat.new }
        ensures logs { LogComes ((setting self.now.layout).seat writer) (λ old new. (g : _) × LogsGrant g old new) seat.old seat.new }
    {
        let cpu = self.words.layout.writers.as_slice()[writer as usize].cpu;
        let grants = state_of(&seat.cpus, cpu).grants;
        self.words.give(&mut seat.place, grants, cpu);
        let grant = Granted {
            writer,
            left: decision.left,
        };
        hold_grant(&mut seat.cpus, cpu, grant);
        seat.lefts[writer as usize] = decision.left;
    }

    /// Raises the peak of a domain to `hard` pages at least (the step `peak`). The seat holds the timer.
    ///
    /// Requires: a seat of this throttle that holds the timer. The domain exists.
    pub fn raise_peak(&self, seat: &mut CpuSeat, domain: u32, hard: u64)
        requires seat { IsAt self.now seat.old }
        requires there { domain < domains self.now.layout }
        requires held { (r : _) × (seat.old.timer ≡ Some r) }
        ensures { (n : _) × Times (setting self.now.layout) (peak domain hard) n seat.old seat.new }
    {
        self.words.raise::<Brand>(&mut seat.place, domain, hard);
        seat.timer = ticked(seat.timer);
    }

    /// Publishes lawful limits of a domain (the steps `unseal`, `thresh` and `publish`), whose hard limit is at most the peak that the
    /// timer raised last for it. The seat holds the timer, and the gate is asked before each step, by the number of the timer. Where
    /// the sequence is odd, since the last publication was stopped, `unseal` is left out. Stopped where the gate answered false: then
    /// the words are as the steps left them. Last where the domain's sequence is the last one: then nothing changed.
    ///
    /// Requires: a seat of this throttle that holds the timer; lawful limits, whose hard limit is at most the peak that the timer raised last
    /// for the domain. The domain exists.
    pub fn publish<G: Gate>(&self, seat: &mut CpuSeat, domain: u32, limits: Limits, gate: &G) -> Put
        requires seat { IsAt self.now seat.old }
        requires there { domain < domains self.now.layout }
        requires may { (r : _) × (seat.old.timer ≡ Some r) × MayPut domain limits r }
        ensures { Puts (setting self.now.layout) domain limits (G.said gate.now self.now.layout.cpus) result seat.old seat.new }
    {
        let sequence = seat.held.sequences[domain as usize];
        if sequence >= LAST_SEQUENCE {
            return Put::Last;
        }
        if sequence % 2 == 1 {
            return self.put_unsealed(seat, domain, limits, gate);
        }
        let timer = self.words.layout.cpus;
        if !gate.may_step(timer, seat.steps(timer)) {
            return Put::Stopped;
        }
        self.unseal(seat, domain);
        self.put_unsealed(seat, domain, limits, gate)
    }

    // The rest of a publication, under an odd sequence.
    fn put_unsealed<G: Gate>(
        &self,
        seat: &mut CpuSeat,
        domain: u32,
        limits: Limits,
        gate: &G,
    ) -> Put
        requires seat { IsAt self.now seat.old }
        requires there { domain < domains self.now.layout }
        requires may { (r : _) × (seat.old.timer ≡ Some r) × MayPut domain limits r × IsUnsealed domain r × (sequence_of r domain ≤ LAST) }
        ensures puts { Puts (setting self.now.layout) domain limits (G.said gate.now self.now.layout.cpus) result seat.old seat.new }
        ensures never_last { result ≢ Last }
    {
        let timer = self.words.layout.cpus;
        if !gate.may_step(timer, seat.steps(timer)) {
            return Put::Stopped;
        }
        self.draft(seat, domain, limits);
        if !gate.may_step(timer, seat.steps(timer)) {
            return Put::Stopped;
        }
        self.seal(seat, domain, limits);
        Put::Done
    }

    // Makes the sequence odd.
    fn unseal(&self, seat: &mut CpuSeat, domain: u32)
        requires seat { IsAt self.now seat.old }
        requires there { domain < domains self.now.layout }
        requires may { (r : _) × (seat.old.timer ≡ Some r) × MayUnseal (setting self.now.layout) domain r }
        ensures { (n : _) × Times (setting self.now.layout) (unseal domain) n seat.old seat.new }
    {
        self.words.unseal::<Brand>(&mut seat.place, domain);
        seat.held.sequences[domain as usize] += 1;
        seat.timer = ticked(seat.timer);
    }

    // Takes limits in hand.
    fn draft(&self, seat: &mut CpuSeat, domain: u32, limits: Limits)
        requires seat { IsAt self.now seat.old }
        requires there { domain < domains self.now.layout }
        requires may { (r : _) × (seat.old.timer ≡ Some r) × MayThresh domain limits r }
        ensures { (n : _) × Times (setting self.now.layout) (thresh domain limits) n seat.old seat.new }
    {
        self.words.thresh::<Brand>(&mut seat.place, domain, limits);
        seat.timer = ticked(seat.timer);
    }

    // Publishes the limits in hand.
    fn seal(&self, seat: &mut CpuSeat, domain: u32, limits: Limits)
        requires seat { IsAt self.now seat.old }
        requires there { domain < domains self.now.layout }
        requires lawful { IsLawful limits }
        requires may { (r : _) × (seat.old.timer ≡ Some r) × MayPublish domain limits r }
        requires room { (r : _) → seat.old.timer ≡ Some r → sequence_of r domain < 2 ^ 32 - 1 }
        ensures { (n : _) × Times (setting self.now.layout) (publish domain limits) n seat.old seat.new }
    {
        let sequence = seat.held.sequences[domain as usize] + 1;
        self.words
            .publish::<Brand>(&mut seat.place, domain, sequence, limits);
        seat.held.sequences[domain as usize] = sequence;
        seat.timer = ticked(seat.timer);
    }

    // A load of limits by a CPU, for itself or for a writer of its own. Its steps are counted apart and kept once, after the last one
    // that is made.
    fn load_for<G: Gate>(
        &self,
        seat: &mut CpuSeat,
        who: Who,
        cpu: u32,
        domain: u32,
        gate: &G,
    ) -> Loaded
        requires seat { IsAt self.now seat.old }
        requires there { domain < domains self.now.layout }
        requires known { IsLoader (setting self.now.layout) who }
        requires its { cpu ≡ cpu_for (setting self.now.layout) who }
        requires held { (r : _) × Has seat.old.cpus cpu r }
        ensures { LoadsFor (setting self.now.layout) who cpu domain (G.said gate.now cpu) result seat.old seat.new }
    {
        let mut state = *state_of(&seat.cpus, cpu);
        if !gate.may_step(cpu, state.steps) {
            return Loaded::Stopped;
        }
        let first = self
            .words
            .first::<Brand>(&mut seat.place, state.grants, cpu, domain);
        state.step();
        if !gate.may_step(cpu, state.steps) {
            keep_steps(&mut seat.cpus, cpu, state.steps);
            return Loaded::Stopped;
        }
        let thresh = self
            .words
            .middle::<Brand>(&mut seat.place, state.grants, cpu, domain);
        state.step();
        if !gate.may_step(cpu, state.steps) {
            keep_steps(&mut seat.cpus, cpu, state.steps);
            return Loaded::Stopped;
        }
        let second = self
            .words
            .limits::<Brand>(&mut seat.place, state.grants, who, domain);
        state.step();
        keep_steps(&mut seat.cpus, cpu, state.steps);
        let at = self.held_at(cpu, domain);
        if is_whole(first, second) {
            let triple = Triple {
                version: sequence_of(second) / 2,
                limits: join_limits(second, thresh),
            };
            seat.held.triples[at] = triple;
            return Loaded::Fresh(triple);
        }
        Loaded::Again {
            held: seat.held.triples[at],
            first,
            second,
        }
    }

    /// The limits of a domain that a CPU holds: those that it read whole last, or the first ones. It makes no step.
    ///
    /// Requires: a seat of this throttle that holds the CPU. The domain exists.
    pub fn held_limits(&self, seat: &CpuSeat, cpu: u32, domain: u32) -> Triple
        requires seat { IsAt self.now seat.now }
        requires there { domain < domains self.now.layout }
        requires held { (r : _) × Has seat.now.cpus cpu r }
        ensures held { Holds seat.now.cpus cpu (λ r. result ≡ triple_of (held_of (setting self.now.layout) domain r.triples)) }
        ensures lawful { IsLawful result.limits }
    {
        seat.held.triples[self.held_at(cpu, domain)]
    }

    // Where the limits stand that a CPU holds of a domain.
    fn held_at(&self, cpu: u32, domain: u32) -> usize
        requires there { domain < domains self.now.layout }
        requires cpu { cpu < self.now.layout.cpus }
        ensures value { result ≡ triple_number self.now.layout cpu domain }
        ensures inside { result < self.now.layout.cpus * domains self.now.layout }
    {
        cpu as usize * self.words.layout.firsts.as_slice().len() + domain as usize
    }

    // A load of a counter by a CPU, for itself or for a writer of its own. The answer is the counter's word.
    fn count_for(&self, seat: &mut CpuSeat, who: Who, cpu: u32, counter: Counter) -> u64
        requires seat { IsAt self.now seat.old }
        requires there { HasCounter self.now.layout counter }
        requires by_cpu { is_timer who ≡ false }
        requires known { IsWho (setting self.now.layout) who }
        requires its { cpu ≡ cpu_for (setting self.now.layout) who }
        requires held { (r : _) × Has seat.old.cpus cpu r }
        ensures newest { (r : _) → Has seat.old.cpus cpu r → NoneAhead (version_in result) counter r }
        ensures makes { Makes (setting self.now.layout) (count who counter) result seat.old seat.new }
    {
        let grants = state_of(&seat.cpus, cpu).grants;
        let found = self
            .words
            .count::<Brand>(&mut seat.place, grants, who, counter);
        step(&mut seat.cpus, cpu);
        found
    }

    // The same by the timer.
    fn timer_count(&self, seat: &mut CpuSeat, counter: Counter) -> u64
        requires seat { IsAt self.now seat.old }
        requires there { HasCounter self.now.layout counter }
        requires held { (r : _) × (seat.old.timer ≡ Some r) }
        ensures newest { (r : _) → seat.old.timer ≡ Some r → AreBehind (version_in result) counter r.readings }
        ensures times { Times (setting self.now.layout) (count Timer counter) result seat.old seat.new }
    {
        let found = self.words.timer_count::<Brand>(&mut seat.place, counter);
        seat.timer = ticked(seat.timer);
        found
    }
}

// Whether a sequence word stood from a first load to a second, under an even sequence.
fn is_whole(first: u64, second: u64) -> bool
    ensures { result ≡ is_whole_load first second }
{
    first == second && sequence_of(second) % 2 == 0
}

// The timer made a step.
fn ticked(timer: Option<u64>) -> Option<u64>
    ensures { result ≡ spec.ticked timer }
{
    match timer {
        Some(steps) => Some(steps.saturating_add(1)),
        None => None,
    }
}

fn told(word: u64) -> Count
    ensures { result ≡ spec.count_of word }
{
    Count {
        version: version_of(word),
        value: count_of(word),
    }
}
