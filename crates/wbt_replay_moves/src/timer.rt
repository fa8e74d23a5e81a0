//! A turn of the timer: for each domain it finds the limits, raises the peak, and publishes them. Then it begins new periods of
//! the proportions where it is time.

ghost use Rattle.std.specs.Prelude.{◌≡◌, ◌<◌, ◌^◌, [], ◌∷◌, ◌++◌, length, OnOk};
ghost use Rattle.wbt_replay_moves.specs.Definition.Timer as spec;
ghost use Rattle.wbt_replay_moves.specs.Definition.State.{domain_of};
ghost use Rattle.wbt_replay_moves.specs.Kept.Fit.{TimerFits};
ghost use Rattle.wbt_rules.specs.Thresholds.{DomainFits};
ghost use Rattle.wbt_replay_moves.specs.Seen.{seen};

use crate::machine::Machine;
use crate::state::Timer;
use crate::todo::{TimerSilent, TimerStep, TimerTodo};
use std::alloc::AllocError;
use wbt_flex::new_period;
use wbt_grant::StepKind;
use wbt_journal::{StepEntry, TimerEntry};
use wbt_rules::{TIMER_REST, limits_after, next_period, periods_by, thresholds_at};
use wbt_trace::Trace;

impl Machine {
    /// The timer's number among those who make steps.
    pub fn timer_number(&self) -> u32
        requires { length (seen self.now).cpus < 2 ^ 32 }
        ensures { result ≡ spec.timer_number (seen self.now) }
    {
        self.cpus.len() as u32
    }

    /// Begins the timer's next turn.
    pub fn begin_timer(&mut self) -> Result<(), AllocError>
        requires few { length (seen self.old).domains < 2 ^ 32 }
        ensures { OnOk result (seen self.new ≡ spec.begin_timer (seen self.old)) }
    {
        let domains = self.domains.len() as u32;
        self.timer.began = self.clock;
        self.timer.put_turns(domains)?;
        self.timer.put_periods(domains)?;
        self.timer
            .todo
            .push_back(TimerTodo::Silent(TimerSilent::Rest))
    }

    /// The step `count` of the timer: finds the domain's limits by its reading.
    pub fn load(&mut self, trace: &Trace, domain: u32) -> Result<(), AllocError>
        requires few { length (seen self.old).cpus < 2 ^ 32 }
        requires domain { domain < length (seen self.old).domains }
        requires fits { DomainFits trace.now domain }
        ensures { OnOk result (seen self.new ≡ spec.load trace.now domain (seen self.old)) }
    {
        let at = self.domains[domain as usize];
        self.timer
            .find(trace, domain, at.limits.hard, at.count.reading());
        let who = self.timer_number();
        self.plain_step(who, StepKind::Count)
    }

    /// The step `peak`: raises the domain's peak to the hard limit that was found.
    #[tactic(auto, using(crate::proofs::Made::made_more))]
    pub fn peak(&mut self, domain: u32) -> Result<(), AllocError>
        requires few { length (seen self.old).cpus < 2 ^ 32 }
        requires domain { domain < length (seen self.old).domains }
        requires few_domains { length (seen self.old).domains < 2 ^ 16 }
        requires hard { (seen self.old).timer.limits.hard < 2 ^ 32 }
        ensures { OnOk result (seen self.new ≡ spec.peak domain (seen self.old)) }
    {
        let who = self.timer_number();
        let hard = self.timer.limits.hard;
        let peak = self.domains[domain as usize].peak.max(hard);
        self.domains[domain as usize].peak = peak;
        self.steps.push(StepEntry {
            who,
            kind: StepKind::Peak,
            context: 0,
            change: 0,
            domain: domain as u16,
            peak: hard as u32,
        })
    }

    /// The step `unseal`: makes the domain's sequence odd.
    pub fn unseal(&mut self, domain: u32) -> Result<(), AllocError>
        requires few { length (seen self.old).cpus < 2 ^ 32 }
        requires domain { domain < length (seen self.old).domains }
        requires sequence { (domain_of domain (seen self.old)).sequence < 2 ^ 62 }
        ensures { OnOk result (seen self.new ≡ spec.unseal domain (seen self.old)) }
    {
        self.domains[domain as usize].sequence += 1;
        let who = self.timer_number();
        self.plain_step(who, StepKind::Unseal)
    }

    /// The step `thresh`, which writes a thresh word.
    pub fn thresh(&mut self) -> Result<(), AllocError>
        requires few { length (seen self.old).cpus < 2 ^ 32 }
        ensures { OnOk result (seen self.new ≡ spec.thresh (seen self.old)) }
    {
        let who = self.timer_number();
        self.plain_step(who, StepKind::Thresh)
    }

    /// The step `publish`: publishes the limits that were found, under the next sequence.
    pub fn publish(&mut self, domain: u32) -> Result<(), AllocError>
        requires few { length (seen self.old).cpus < 2 ^ 32 }
        requires domain { domain < length (seen self.old).domains }
        requires sequence { (domain_of domain (seen self.old)).sequence < 2 ^ 62 }
        ensures { OnOk result (seen self.new ≡ spec.publish domain (seen self.old)) }
    {
        let limits = self.timer.limits;
        let at = &mut self.domains[domain as usize];
        at.limits = limits;
        at.sequence += 1;
        self.timer.entries.push(TimerEntry::Limits {
            domain,
            now: self.timer.began,
            limits,
        })?;
        let who = self.timer_number();
        self.plain_step(who, StepKind::Publish)
    }

    /// Silent: new periods of the domain's proportions begin, where it is time.
    pub fn period(&mut self, domain: u32) -> Result<(), AllocError>
        requires domain { domain < length (seen self.old).domains }
        ensures { OnOk result (seen self.new ≡ spec.period domain (seen self.old)) }
    {
        if !self.timer.is_time() {
            return Ok(());
        }
        let k = self.timer.periods();
        match new_period(self.domains[domain as usize].events, k) {
            None => Ok(()),
            Some(events) => {
                self.domains[domain as usize].events = events;
                self.timer.entries.push(TimerEntry::Period { domain, k })
            }
        }
    }

    /// Silent: the timer rests until its next turn.
    pub fn timer_rest(&mut self)
        requires fits { TimerFits (seen self.old).timer }
        ensures { seen self.new ≡ spec.rest (seen self.old) }
    {
        self.timer.rest();
    }
}

impl Timer {
    // Puts the steps of so many domains last.
    fn put_turns(&mut self, domains: u32) -> Result<(), AllocError>
        ensures { OnOk result (self.new ≡ record self.old { todo = self.old.todo ++ spec.domain_turns domains 0 }) }
    {
        for domain in 0..domains {
            self.put_turn(domain)?;
        }
        Ok(())
    }

    fn put_turn(&mut self, domain: u32) -> Result<(), AllocError>
        ensures { OnOk result (self.new ≡ record self.old { todo = self.old.todo ++ TimerTodo.Step (TimerStep.Count domain) ∷ TimerTodo.Step (TimerStep.Peak domain) ∷ TimerTodo.Step (TimerStep.Unseal domain) ∷ TimerTodo.Step (TimerStep.Thresh domain) ∷ TimerTodo.Step (TimerStep.Publish domain) ∷ [] }) }
    {
        self.do_last(TimerTodo::Step(TimerStep::Count { domain }))?;
        self.do_last(TimerTodo::Step(TimerStep::Peak { domain }))?;
        self.do_last(TimerTodo::Step(TimerStep::Unseal { domain }))?;
        self.do_last(TimerTodo::Step(TimerStep::Thresh { domain }))?;
        self.do_last(TimerTodo::Step(TimerStep::Publish { domain }))
    }

    // Puts the periods of so many domains last.
    fn put_periods(&mut self, domains: u32) -> Result<(), AllocError>
        ensures { OnOk result (self.new ≡ record self.old { todo = self.old.todo ++ spec.domain_periods domains 0 }) }
    {
        for domain in 0..domains {
            self.do_last(TimerTodo::Silent(TimerSilent::Period { domain }))?;
        }
        Ok(())
    }

    fn do_last(&mut self, item: TimerTodo) -> Result<(), AllocError>
        ensures { OnOk result (self.new ≡ record self.old { todo = self.old.todo ++ item ∷ [] }) }
    {
        self.todo.push_back(item)
    }

    fn find(&mut self, trace: &Trace, domain: u32, before: u64, reading: u64)
        requires { DomainFits trace.now domain }
        ensures { self.new ≡ spec.finds trace.now domain before reading (spec.reads_global domain reading self.old) }
    {
        if domain == 0 {
            self.global = reading;
        }
        let pair = thresholds_at(trace, self.began, domain, self.global, reading);
        self.limits = limits_after(pair, before, reading);
    }

    fn is_time(&self) -> bool
        ensures { result ≡ spec.is_time self.now }
    {
        self.period <= self.began
    }

    // How many periods have come since the last one.
    fn periods(&self) -> u64
        ensures { result ≡ spec.periods self.now }
    {
        periods_by(self.began, self.period)
    }

    fn rest(&mut self)
        requires fits { TimerFits self.old }
        ensures { self.new ≡ spec.rested self.old }
    {
        self.next = self.began + TIMER_REST;
        self.period = next_period(self.began, self.period);
    }
}
