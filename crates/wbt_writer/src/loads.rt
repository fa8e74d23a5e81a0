//! What a check loads.

ghost use Rattle.std.specs.Prelude.{◌≡◌, ◌^◌, ◌<◌, ◌≤◌, IfOk, IfSome, OnErr, length, unsigned_abs};
ghost use Rattle.wbt_table.specs.Layout.{domains, setting};
ghost use Rattle.wbt_writer.specs.Desk.{Fits};
ghost use Rattle.wbt_counter.specs.declared.counter.Counter.TheVariants.{Context};
ghost use Rattle.wbt_grant.specs.Kinds.{count};
ghost use Rattle.wbt_grant.specs.declared.who.Who.TheVariants.{Writer};
ghost use Rattle.wbt_run_steps.specs.Loads.{one};
ghost use Rattle.wbt_run_steps.specs.Made.{MakesEach, MakesSome};
ghost use Rattle.wbt_writer.specs.Loads.{AreInRange, IsInRange, LoadedAll, LoadedContext, LoadedGroup, LoadedSome, check_steps, group_steps};
ghost use Rattle.wbt_run_steps.specs.Gate.{AskedBeforeEach};
ghost use Rattle.wbt_run_steps.specs.Steps.{IsStopped};

use wbt_counter::{Count, Counter};
use wbt_io::Gate;
use wbt_kit::{Hands, Seats};
use wbt_run_steps::{DomainLoad, Stopped, load_count, load_domain, may_step};
use wbt_table::Who;

/// What a check loads.
#[derive(Clone, Copy)]
pub struct Loads {
    /// Of the global domain.
    pub global: DomainLoad,
    /// Of the context's cgroup, where it has one.
    pub group: Option<DomainLoad>,
    /// The count of the context.
    pub count: Count,
}

/// The steps of a check of a writer in a context, whose cgroup's domain is `group`, or 0 where it has none: the global domain's limits, by
/// three steps, and its count, those of the cgroup, and the context's count.
pub fn load_all<R, C, G: Gate>(
    hands: &Hands<R, C, G>,
    cpu: u32,
    writer: u32,
    context: u32,
    group: u32,
    seats: &mut Seats,
) -> Result<Loads, Stopped>
    requires fits { Fits cpu hands.now.kit.now seats.old }
    requires writer { (writer < length hands.now.kit.now.throttle.layout.writers) × ((setting hands.now.kit.now.throttle.layout).seat writer ≡ cpu) }
    requires context { (context < length hands.now.kit.now.throttle.layout.contexts) × ((setting hands.now.kit.now.throttle.layout).works_in writer ≡ context) }
    requires group { group < domains hands.now.kit.now.throttle.layout }
    requires some { 0 < domains hands.now.kit.now.throttle.layout }
    ensures fits { Fits cpu hands.now.kit.now seats.new }
    ensures loaded { IfOk result (λ loads. LoadedAll (setting hands.now.kit.now.throttle.layout) cpu writer context group loads seats.old seats.new) }
    ensures in_range { IfOk result AreInRange }
    ensures some_loaded { OnErr result (LoadedSome (setting hands.now.kit.now.throttle.layout) cpu seats.old seats.new) }
    ensures made { IfOk result (λ _loads. MakesEach hands.now.kit.now cpu (check_steps cpu writer context group) seats.old seats.new) }
    ensures part { OnErr result (MakesSome hands.now.kit.now cpu (check_steps cpu writer context group) seats.old seats.new) }
    ensures stopped { OnErr result (IsStopped cpu (G.said hands.now.gate.now) seats.new) }
    ensures asked { AskedBeforeEach cpu (G.said hands.now.gate.now) seats.old seats.new }
{
    let global = load_domain(hands, cpu, Who::Writer(writer), 0, seats)?;
    let group = load_group(hands, cpu, writer, group, seats)?;
    let count = load_context(hands, cpu, writer, context, seats)?;
    Ok(Loads {
        global,
        group,
        count,
    })
}

// The cgroup's domain, where there is one.
fn load_group<R, C, G: Gate>(
    hands: &Hands<R, C, G>,
    cpu: u32,
    writer: u32,
    group: u32,
    seats: &mut Seats,
) -> Result<Option<DomainLoad>, Stopped>
    requires fits { Fits cpu hands.now.kit.now seats.old }
    requires writer { (writer < length hands.now.kit.now.throttle.layout.writers) × ((setting hands.now.kit.now.throttle.layout).seat writer ≡ cpu) }
    requires group { group < domains hands.now.kit.now.throttle.layout }
    ensures fits { Fits cpu hands.now.kit.now seats.new }
    ensures loaded { IfOk result (λ load. LoadedGroup (setting hands.now.kit.now.throttle.layout) cpu writer group load seats.old seats.new) }
    ensures in_range { IfOk result (λ load. IfSome load IsInRange) }
    ensures some_loaded { OnErr result (LoadedSome (setting hands.now.kit.now.throttle.layout) cpu seats.old seats.new) }
    ensures made { IfOk result (λ _loads. MakesEach hands.now.kit.now cpu (group_steps cpu writer group) seats.old seats.new) }
    ensures part { OnErr result (MakesSome hands.now.kit.now cpu (group_steps cpu writer group) seats.old seats.new) }
    ensures stopped { OnErr result (IsStopped cpu (G.said hands.now.gate.now) seats.new) }
    ensures asked { AskedBeforeEach cpu (G.said hands.now.gate.now) seats.old seats.new }
{
    if group == 0 {
        return Ok(None);
    }
    let load = load_domain(hands, cpu, Who::Writer(writer), group, seats)?;
    Ok(Some(load))
}

// The context's count.
fn load_context<R, C, G: Gate>(
    hands: &Hands<R, C, G>,
    cpu: u32,
    writer: u32,
    context: u32,
    seats: &mut Seats,
) -> Result<Count, Stopped>
    requires fits { Fits cpu hands.now.kit.now seats.old }
    requires writer { (writer < length hands.now.kit.now.throttle.layout.writers) × ((setting hands.now.kit.now.throttle.layout).seat writer ≡ cpu) }
    requires context { (context < length hands.now.kit.now.throttle.layout.contexts) × ((setting hands.now.kit.now.throttle.layout).works_in writer ≡ context) }
    ensures fits { Fits cpu hands.now.kit.now seats.new }
    ensures loaded { IfOk result (λ count. LoadedContext (setting hands.now.kit.now.throttle.layout) cpu writer context count seats.old seats.new) }
    ensures few { IfOk result (λ count. unsigned_abs count.value ≤ 2 ^ 31) }
    ensures some_loaded { OnErr result (LoadedSome (setting hands.now.kit.now.throttle.layout) cpu seats.old seats.new) }
    ensures made { IfOk result (λ _loads. MakesEach hands.now.kit.now cpu (one (count (Writer writer) (Context context))) seats.old seats.new) }
    ensures part { OnErr result (MakesSome hands.now.kit.now cpu (one (count (Writer writer) (Context context))) seats.old seats.new) }
    ensures stopped { OnErr result (IsStopped cpu (G.said hands.now.gate.now) seats.new) }
    ensures asked { AskedBeforeEach cpu (G.said hands.now.gate.now) seats.old seats.new }
{
    if !may_step(cpu, seats, hands.gate) {
        return Err(Stopped);
    }
    let count = load_count(
        Who::Writer(writer),
        Counter::Context(context),
        hands.kit,
        seats,
    );
    Ok(count)
}
