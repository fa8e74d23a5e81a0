//! The contexts of a strict device, which each of its flushers weighs: whether one is over background by itself.

ghost use Rattle.std.specs.Prelude.{◌≡◌, ◌<◌, ◌≤◌, ◌^◌, ◌||◌, true, false, IfNone, IfSome, length, Option};
ghost use Rattle.wbt_run_steps.specs.Gate.{AskedBeforeEach};
ghost use Rattle.wbt_run_steps.specs.Kinds.{Steps};
ghost use Rattle.wbt_flusher.specs.Answers.{GoesKept};
ghost use Rattle.wbt_flusher.specs.Cut.{WeighsSome};
ghost use Rattle.wbt_flusher.specs.Did.{Fits, KeepsDebts, IsStopped};
ghost use Rattle.wbt_flusher.specs.Kinds.{AreCounts};
ghost use Rattle.wbt_flusher.specs.Plans.{Suits, context_at};
ghost use Rattle.wbt_flusher.specs.Sights.{sight};
ghost use Rattle.wbt_flusher.specs.Turns.{HasLists, IsPart, OnlyShare, OnlyTallies};
ghost use Rattle.wbt_flusher.specs.Weighs.{WeighsAll, WeighsIn, WeighsInBoth, WeighsNext};

use crate::plan::FlusherPlan;
use crate::work::FlusherWork;
use wbt_counter::Counter;
use wbt_io::Gate;
use wbt_kit::{Hands, Kit, Seats};
use wbt_rules::{is_over_own, part_read};
use wbt_run_steps::{load_count, may_step};
use wbt_table::Who;

impl FlusherPlan {
    /// Loads, in order, the count of each context of the device, where that is strict. The answer is whether one of them is over its own
    /// part of a domain's background threshold. None where the gate stopped it.
    pub fn weigh_all<R, C, G: Gate>(
        &self,
        work: &mut FlusherWork,
        hands: &Hands<R, C, G>,
        seats: &mut Seats,
    ) -> Option<bool>
        requires suits { Suits self.now hands.now.kit.now }
        requires fits { Fits self.now hands.now.kit.now seats.old }
        requires lists { HasLists self.now work.old }
        ensures asked { AskedBeforeEach self.now.cpu (G.said hands.now.gate.now) seats.old seats.new }
        ensures kinds { Steps self.now.cpu AreCounts seats.old seats.new }
        ensures goes { GoesKept self.now hands.now.kit.now seats.old seats.new work.old work.new }
        ensures fits { Fits self.now hands.now.kit.now seats.new }
        ensures lists { HasLists self.now work.new }
        ensures debts { KeepsDebts self.now seats.old seats.new }
        ensures only_tallies { OnlyTallies work.old work.new }
        ensures stopped { IfNone result (IsStopped self.now (G.said hands.now.gate.now) seats.new) }
        ensures weighs { IfSome result (λ over. (log : _) (written : Option _) → WeighsAll self.now hands.now.kit.now over (sight work.old seats.old log written) (sight work.new seats.new log written)) }
        ensures stops { IfNone result ((log : _) (written : Option _) → WeighsSome self.now hands.now.kit.now (sight work.old seats.old log written) (sight work.new seats.new log written)) }
    {
        if !self.is_strict() {
            return Some(false);
        }
        let mut over = false;
        for context in 0..self.contexts.as_slice().len() as u32 {
            match self.weigh(work, hands, seats, context) {
                None => return None,
                Some(more) => over = is_or_was(over, more),
            }
        }
        Some(over)
    }

    // Weighs a context where it is the device's: whether it is over background by itself.
    fn weigh<R, C, G: Gate>(
        &self,
        work: &mut FlusherWork,
        hands: &Hands<R, C, G>,
        seats: &mut Seats,
        context: u32,
    ) -> Option<bool>
        requires suits { Suits self.now hands.now.kit.now }
        requires fits { Fits self.now hands.now.kit.now seats.old }
        requires lists { HasLists self.now work.old }
        requires context { context < length self.now.contexts }
        ensures asked { AskedBeforeEach self.now.cpu (G.said hands.now.gate.now) seats.old seats.new }
        ensures kinds { Steps self.now.cpu AreCounts seats.old seats.new }
        ensures goes { GoesKept self.now hands.now.kit.now seats.old seats.new work.old work.new }
        ensures fits { Fits self.now hands.now.kit.now seats.new }
        ensures lists { HasLists self.now work.new }
        ensures debts { KeepsDebts self.now seats.old seats.new }
        ensures only_tallies { OnlyTallies work.old work.new }
        ensures stopped { IfNone result (IsStopped self.now (G.said hands.now.gate.now) seats.new) }
        ensures weighs { IfSome result (λ over. (log : _) (written : Option _) → WeighsNext self.now hands.now.kit.now context over (sight work.old seats.old log written) (sight work.new seats.new log written)) }
        ensures of_device { IfNone result ((context_at self.now context).device ≡ self.now.device) }
        ensures same { IfNone result ((work.new ≡ work.old) × (seats.new ≡ seats.old)) }
    {
        if self.contexts.as_slice()[context as usize].device != self.device {
            return Some(false);
        }
        if !may_step(self.cpu, seats, hands.gate) {
            return None;
        }
        let count = load_count(
            Who::Cpu(self.cpu),
            Counter::Context(context),
            hands.kit,
            seats,
        );
        Some(self.weigh_in_both(work, hands.kit, seats, context, count.reading()))
    }

    // Whether a context that reads so many pages is over its own part of the global domain, or of its cgroup's.
    fn weigh_in_both(
        &self,
        work: &mut FlusherWork,
        kit: &Kit,
        seats: &mut Seats,
        context: u32,
        reading: u64,
    ) -> bool
        requires suits { Suits self.now kit.now }
        requires fits { Fits self.now kit.now seats.old }
        requires lists { HasLists self.now work.old }
        requires context { context < length self.now.contexts }
        ensures goes { GoesKept self.now kit.now seats.old seats.new work.old work.new }
        ensures fits { Fits self.now kit.now seats.new }
        ensures lists { HasLists self.now work.new }
        ensures only_share { OnlyShare seats.old seats.new }
        ensures only_tallies { OnlyTallies work.old work.new }
        ensures weighs { (log : _) (written : Option _) → WeighsInBoth self.now kit.now context reading result (sight work.old seats.old log written) (sight work.new seats.new log written) }
    {
        let over = self.weigh_in(work, kit, seats, 0, context, reading);
        let group = self.group_of(context);
        if group == 0 {
            return over;
        }
        let more = self.weigh_in(work, kit, seats, group, context, reading);
        is_or_was(over, more)
    }

    // Reads the context's fraction of a domain: whether it is over its own part of the domain's background threshold.
    fn weigh_in(
        &self,
        work: &mut FlusherWork,
        kit: &Kit,
        seats: &mut Seats,
        domain: u32,
        context: u32,
        reading: u64,
    ) -> bool
        requires suits { Suits self.now kit.now }
        requires fits { Fits self.now kit.now seats.old }
        requires lists { HasLists self.now work.old }
        requires part { IsPart self.now domain context }
        ensures goes { GoesKept self.now kit.now seats.old seats.new work.old work.new }
        ensures fits { Fits self.now kit.now seats.new }
        ensures lists { HasLists self.now work.new }
        ensures only_share { OnlyShare seats.old seats.new }
        ensures only_tallies { OnlyTallies work.old work.new }
        ensures weighs { (log : _) (written : Option _) → WeighsIn self.now kit.now domain context reading result (sight work.old seats.old log written) (sight work.new seats.new log written) }
    {
        let fraction = self.read_share(work, kit, seats, domain, context);
        let held = kit.throttle.held_limits(&seats.cpu, self.cpu, domain);
        let read = part_read(&self.shares, self.least_shares, &held.limits, &fraction, 0);
        is_over_own(reading, &read)
    }
}

/// Whether something is over background, or something before it was.
pub fn is_or_was(over: bool, more: bool) -> bool
    ensures { result ≡ (over || more) }
{
    over || more
}
