//! Loads of limits and of counts, which a CPU makes for itself, as for its flushers, or for a writer of its own.

ghost use Rattle.std.specs.Prelude.{◌≡◌, ◌^◌, ◌<◌, ◌≤◌, IfOk, OnErr, OnOk, unsigned_abs};
ghost use Rattle.wbt_grant.specs.Seats.{cpu_for};
ghost use Rattle.wbt_num.specs.Limits.{IsLawful};
ghost use Rattle.wbt_table.specs.Layout.{HasCounter, domains, setting};
ghost use Rattle.wbt_kit.specs.Kit.{AreSeatsOf};
ghost use Rattle.wbt_turns.specs.Words as words;
ghost use Rattle.wbt_run_steps.specs.Gate.{AskedBeforeEach};
ghost use Rattle.wbt_run_steps.specs.Kinds.{StepsAs, StepsPart, loads_of_limits};
ghost use Rattle.wbt_run_steps.specs.Loads.{HoldsLoader, LoadsCount, LoadsDomain, LoadsLimits, LoadsPart, LoadsSome, TellsHeld};
ghost use Rattle.wbt_run_steps.specs.Steps.{IsStopped};

use crate::steps::may_step;
use wbt_counter::{Count, Counter};
use wbt_io::Gate;
use wbt_kit::{Hands, Kit, Seats};
use wbt_num::Limits;
use wbt_table::{Loaded, Triple, Who};

/// What was loaded of a domain.
#[derive(Clone, Copy)]
pub struct DomainLoad {
    pub domain: u32,
    /// The version of the limits: 0 for the domain's first ones.
    pub version: u64,
    /// What the CPU held of the domain after the load.
    pub limits: Limits,
    pub count: Count,
}

/// The gate said no.
#[derive(Clone, Copy)]
pub struct Stopped;

/// The steps `first`, `middle`, `limits` and `count` of a domain, which a CPU makes. The gate is asked before each; where it said no
/// before the last, the limits were loaded.
pub fn load_domain<R, C, G: Gate>(
    hands: &Hands<R, C, G>,
    cpu: u32,
    who: Who,
    domain: u32,
    seats: &mut Seats,
) -> Result<DomainLoad, Stopped>
    requires seats { AreSeatsOf hands.now.kit.now seats.old }
    requires its { cpu_for (setting hands.now.kit.now.throttle.layout) who ≡ cpu }
    requires held { HoldsLoader hands.now.kit.now who seats.old }
    requires domain { domain < domains hands.now.kit.now.throttle.layout }
    ensures seats { AreSeatsOf hands.now.kit.now seats.new }
    ensures lawful { IfOk result (λ load. IsLawful load.limits) }
    ensures few { IfOk result (λ load. unsigned_abs load.count.value ≤ 2 ^ 31) }
    ensures loads { IfOk result (λ load. LoadsDomain hands.now.kit.now cpu who domain load seats.old seats.new) }
    ensures part { OnErr result (LoadsPart hands.now.kit.now cpu who domain seats.old seats.new) }
    ensures stopped { OnErr result (IsStopped cpu (G.said hands.now.gate.now) seats.new) }
    ensures asked { AskedBeforeEach cpu (G.said hands.now.gate.now) seats.old seats.new }
    ensures kinds { OnOk result (StepsAs cpu (words.loads 1) seats.old seats.new) }
    ensures cut { OnErr result (StepsPart cpu (words.loads 1) seats.old seats.new) }
{
    let held = load_limits(cpu, who, domain, hands.kit, seats, hands.gate)?;
    if !may_step(cpu, seats, hands.gate) {
        return Err(Stopped);
    }
    let count = load_count(who, Counter::Domain(domain), hands.kit, seats);
    Ok(DomainLoad {
        domain,
        version: held.version,
        limits: held.limits,
        count,
    })
}

/// The steps `first`, `middle` and `limits`. The answer is what the CPU, on which `who` steps, then holds of the domain.
pub fn load_limits<G: Gate>(
    cpu: u32,
    who: Who,
    domain: u32,
    kit: &Kit,
    seats: &mut Seats,
    gate: &G,
) -> Result<Triple, Stopped>
    requires seats { AreSeatsOf kit.now seats.old }
    requires its { cpu_for (setting kit.now.throttle.layout) who ≡ cpu }
    requires held { HoldsLoader kit.now who seats.old }
    requires domain { domain < domains kit.now.throttle.layout }
    ensures seats { AreSeatsOf kit.now seats.new }
    ensures lawful { IfOk result (λ triple. IsLawful triple.limits) }
    ensures loads { IfOk result (λ triple. LoadsLimits kit.now cpu who domain triple seats.old seats.new) }
    ensures part { OnErr result (LoadsSome kit.now cpu domain seats.old seats.new) }
    ensures stopped { OnErr result (IsStopped cpu (G.said gate.now) seats.new) }
    ensures asked { AskedBeforeEach cpu (G.said gate.now) seats.old seats.new }
    ensures kinds { OnOk result (StepsAs cpu loads_of_limits seats.old seats.new) }
    ensures cut { OnErr result (StepsPart cpu loads_of_limits seats.old seats.new) }
{
    let _cpu = cpu;
    let loaded = kit.throttle.load_limits(&mut seats.cpu, who, domain, gate);
    held_by(loaded)
}

// What the CPU holds after a load, where that wasn't stopped.
fn held_by(loaded: Loaded) -> Result<Triple, Stopped>
    ensures { TellsHeld loaded result }
{
    match loaded {
        Loaded::Fresh(triple) => Ok(triple),
        Loaded::Again {
            held,
            first: _,
            second: _,
        } => Ok(held),
        Loaded::Stopped => Err(Stopped),
    }
}

/// The step `count`.
pub fn load_count(who: Who, counter: Counter, kit: &Kit, seats: &mut Seats) -> Count
    requires seats { AreSeatsOf kit.now seats.old }
    requires held { HoldsLoader kit.now who seats.old }
    requires counter { HasCounter kit.now.throttle.layout counter }
    ensures seats { AreSeatsOf kit.now seats.new }
    ensures few { unsigned_abs result.value ≤ 2 ^ 31 }
    ensures loads { LoadsCount kit.now who counter result seats.old seats.new }
    ensures kinds { StepsAs (cpu_for (setting kit.now.throttle.layout) who) (words.counts 1) seats.old seats.new }
{
    kit.throttle.load_count(&mut seats.cpu, who, counter)
}
