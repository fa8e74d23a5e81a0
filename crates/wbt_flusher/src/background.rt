//! The test of an idle flusher: whether a domain is over background.

ghost use Rattle.std.specs.Prelude.{◌≡◌, ◌<◌, ◌-◌, ◌≤◌, ◌^◌, IfSome, IfNone};
ghost use Rattle.wbt_num.specs.Limits.{IsLawful};
ghost use Rattle.wbt_turns.specs.Words.{loads};
ghost use Rattle.wbt_run_steps.specs.Gate.{AskedBeforeEach};
ghost use Rattle.wbt_run_steps.specs.Kinds.{StepsAs, StepsPart};
ghost use Rattle.wbt_flusher.specs.Answers.{GoesQuiet};
ghost use Rattle.wbt_flusher.specs.Cut.{ReadsPart, ReadsSome};
ghost use Rattle.wbt_flusher.specs.Did.{Fits, KeepsDebts, IsStopped};
ghost use Rattle.wbt_flusher.specs.Loads.{ReadDomain, ReadOthers, Tested};
ghost use Rattle.wbt_flusher.specs.Plans.{Suits};

use crate::plan::FlusherPlan;
use wbt_io::Gate;
use wbt_kit::{Hands, Seats};
use wbt_limits::over_background;
use wbt_num::Limits;
use wbt_rules::is_or_was_over;
use wbt_run_steps::load_domain;
use wbt_table::Who;

/// What was read of one domain.
#[derive(Clone, Copy)]
pub struct Read {
    pub limits: Limits,
    /// Its dirty pages, those under writeback among them.
    pub dirty: u64,
}

/// What was read of all of them.
#[derive(Clone, Copy)]
pub struct Test {
    /// Of the global domain.
    pub global: Read,
    /// Whether a domain is over background.
    pub over: bool,
}

impl FlusherPlan {
    /// The steps `first`, `middle`, `limits` and `count` of each domain, in order. What is read of limits is what the CPU then holds. None
    /// where the gate stopped it.
    pub fn test<R, C, G: Gate>(&self, hands: &Hands<R, C, G>, seats: &mut Seats) -> Option<Test>
        requires suits { Suits self.now hands.now.kit.now }
        requires fits { Fits self.now hands.now.kit.now seats.old }
        ensures asked { AskedBeforeEach self.now.cpu (G.said hands.now.gate.now) seats.old seats.new }
        ensures kinds { IfSome result (λ _. StepsAs self.now.cpu (loads self.now.domains) seats.old seats.new) }
        ensures cut { IfNone result (StepsPart self.now.cpu (loads self.now.domains) seats.old seats.new) }
        ensures goes { GoesQuiet self.now hands.now.kit.now seats.old seats.new }
        ensures fits { Fits self.now hands.now.kit.now seats.new }
        ensures debts { KeepsDebts self.now seats.old seats.new }
        ensures lawful { IfSome result (λ test. IsLawful test.global.limits) }
        ensures tested { IfSome result (λ test. Tested self.now test seats.old seats.new) }
        ensures part { IfNone result (ReadsSome self.now hands.now.kit.now 0 seats.old seats.new) }
        ensures stopped { IfNone result (IsStopped self.now (G.said hands.now.gate.now) seats.new) }
    {
        match self.read(hands, seats, 0) {
            None => None,
            Some(global) => self.test_others(hands, seats, global),
        }
    }

    // Those of the cgroups' domains.
    fn test_others<R, C, G: Gate>(
        &self,
        hands: &Hands<R, C, G>,
        seats: &mut Seats,
        global: Read,
    ) -> Option<Test>
        requires suits { Suits self.now hands.now.kit.now }
        requires fits { Fits self.now hands.now.kit.now seats.old }
        ensures asked { AskedBeforeEach self.now.cpu (G.said hands.now.gate.now) seats.old seats.new }
        ensures kinds { IfSome result (λ _. StepsAs self.now.cpu (loads (self.now.domains - 1)) seats.old seats.new) }
        ensures cut { IfNone result (StepsPart self.now.cpu (loads (self.now.domains - 1)) seats.old seats.new) }
        ensures goes { GoesQuiet self.now hands.now.kit.now seats.old seats.new }
        ensures fits { Fits self.now hands.now.kit.now seats.new }
        ensures debts { KeepsDebts self.now seats.old seats.new }
        ensures global { IfSome result (λ test. test.global ≡ global) }
        ensures others { IfSome result (λ test. ReadOthers self.now self.now.domains global test.over seats.old seats.new) }
        ensures part { IfNone result (ReadsSome self.now hands.now.kit.now 1 seats.old seats.new) }
        ensures stopped { IfNone result (IsStopped self.now (G.said hands.now.gate.now) seats.new) }
    {
        let mut over = over_background(global.dirty, &global.limits);
        for domain in 1..self.domains {
            match self.read(hands, seats, domain) {
                None => return None,
                Some(read) => over = is_or_was_over(over, read.dirty, &read.limits),
            }
        }
        Some(Test { global, over })
    }

    // The steps `first`, `middle`, `limits` and `count` of a domain. None where the gate stopped it.
    fn read<R, C, G: Gate>(
        &self,
        hands: &Hands<R, C, G>,
        seats: &mut Seats,
        domain: u32,
    ) -> Option<Read>
        requires suits { Suits self.now hands.now.kit.now }
        requires fits { Fits self.now hands.now.kit.now seats.old }
        requires domain { domain < self.now.domains }
        ensures asked { AskedBeforeEach self.now.cpu (G.said hands.now.gate.now) seats.old seats.new }
        ensures kinds { IfSome result (λ _. StepsAs self.now.cpu (loads 1) seats.old seats.new) }
        ensures cut { IfNone result (StepsPart self.now.cpu (loads 1) seats.old seats.new) }
        ensures goes { GoesQuiet self.now hands.now.kit.now seats.old seats.new }
        ensures fits { Fits self.now hands.now.kit.now seats.new }
        ensures debts { KeepsDebts self.now seats.old seats.new }
        ensures lawful { IfSome result (λ read. IsLawful read.limits) }
        ensures reads { IfSome result (λ read. ReadDomain self.now domain read seats.old seats.new) }
        ensures part { IfNone result (ReadsPart self.now hands.now.kit.now domain seats.old seats.new) }
        ensures stopped { IfNone result (IsStopped self.now (G.said hands.now.gate.now) seats.new) }
    {
        match load_domain(hands, self.cpu, Who::Cpu(self.cpu), domain, seats) {
            Err(_) => None,
            Ok(load) => Some(Read {
                limits: load.limits,
                dirty: load.count.reading(),
            }),
        }
    }
}
