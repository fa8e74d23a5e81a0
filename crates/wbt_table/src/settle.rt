//! The call that pays what a CPU owes to counters.

ghost use Rattle.std.specs.Prelude.{◌≡◌, ◌+◌, None, IfSome, IfNone};
ghost use Rattle.wbt_counter.specs.declared.record.Debt.TheVariants.{Event, FoldDue, ClearDue};
ghost use Rattle.wbt_counter.specs.Word.{IsPackable, version_in};
ghost use Rattle.wbt_grant.specs.Seats.{own_told};
ghost use Rattle.wbt_grant.specs.Kinds.{add, fold, clear};
ghost use Rattle.wbt_table.specs.Layout.{setting};
ghost use Rattle.wbt_table.specs.Rule.{Has, Holds};
ghost use Rattle.wbt_table.specs.Seat.{IsAt, Makes};
ghost use Rattle.wbt_table.specs.Calls.{Comes, SettlesLogged};
ghost use Rattle.wbt_table.specs.Settle.{OwesFirst, OwesFrom, OwesLater, PaysLogged};

use crate::answer::Settled;
use crate::seat::{CpuSeat, Throttle};
use crate::state::{Due, Slot, state_of, step_slot};
use std::marker::Brand;
use wbt_counter::{Counter, Fold, local_of, version_of};
use wbt_io::Gate;

// What came of paying one counter.
#[derive(Clone, Copy)]
struct Paid {
    all: bool,
    fold: Option<Fold>,
}

impl Throttle {
    /// Pays what the CPU owes to the context's counter, then to the global domain's, then to the cgroup's: each time an `add`
    /// and, where the batch is reached, a `fold` and a `clear`. The gate is asked before each step, and where it says false
    /// the call ends, with the rest still owed. A fold that was made is told in any case. Where nothing is owed no step is made.
    ///
    /// Requires: a seat of this throttle that holds the CPU.
    pub fn settle<G: Gate>(&self, seat: &mut CpuSeat, cpu: u32, gate: &G) -> Settled
        requires seat { IsAt self.now seat.old }
        requires held { (r : _) × Has seat.old.cpus cpu r }
        ensures { Comes cpu (SettlesLogged (setting self.now.layout) cpu (G.said gate.now cpu) result seat.old seat.new) seat.old seat.new }
    {
        let first = self.pay(seat, cpu, Slot::First, gate);
        if !first.all {
            return Settled {
                all: false,
                first: first.fold,
                second: None,
                third: None,
            };
        }
        let second = self.pay(seat, cpu, Slot::Second, gate);
        if !second.all {
            return Settled {
                all: false,
                first: first.fold,
                second: second.fold,
                third: None,
            };
        }
        let third = self.pay(seat, cpu, Slot::Third, gate);
        Settled {
            all: third.all,
            first: first.fold,
            second: second.fold,
            third: third.fold,
        }
    }

    // Pays the debt of a slot.
    #[inline(always)]
    fn pay<G: Gate>(&self, seat: &mut CpuSeat, cpu: u32, slot: Slot, gate: &G) -> Paid
        requires seat { IsAt self.now seat.old }
        requires held { Holds seat.old.cpus cpu (OwesFrom slot) }
        ensures { Comes cpu (PaysLogged (setting self.now.layout) cpu slot (G.said gate.now cpu) result seat.old seat.new) seat.old seat.new }
    {
        let state = state_of(&seat.cpus, cpu);
        let Some(due) = state.due_in(slot) else {
            return Paid {
                all: true,
                fold: None,
            };
        };
        let counter = state.counter_in(slot);
        match due {
            Due::Event(event) => self.pay_event(seat, cpu, slot, counter, event, gate),
            Due::Fold(delta) => self.pay_fold(seat, cpu, slot, counter, delta, gate),
            Due::Clear(folded) => Paid {
                all: self.pay_clear(seat, cpu, slot, counter, folded, gate),
                fold: None,
            },
        }
    }

    #[inline(always)]
    fn pay_event<G: Gate>(
        &self,
        seat: &mut CpuSeat,
        cpu: u32,
        slot: Slot,
        counter: Counter,
        event: i64,
        gate: &G,
    ) -> Paid
        requires seat { IsAt self.now seat.old }
        requires owes { Holds seat.old.cpus cpu (OwesFirst self.now.layout slot (record { counter = counter; debt = Event event })) }
        ensures { Comes cpu (PaysLogged (setting self.now.layout) cpu slot (G.said gate.now cpu) result seat.old seat.new) seat.old seat.new }
    {
        if !gate.may_step(cpu, seat.state(cpu).steps) {
            return Paid {
                all: false,
                fold: None,
            };
        }
        match self.add(seat, cpu, slot, counter, event) {
            Some(local) => self.pay_fold(seat, cpu, slot, counter, local, gate),
            None => Paid {
                all: true,
                fold: None,
            },
        }
    }

    fn pay_fold<G: Gate>(
        &self,
        seat: &mut CpuSeat,
        cpu: u32,
        slot: Slot,
        counter: Counter,
        delta: i64,
        gate: &G,
    ) -> Paid
        requires seat { IsAt self.now seat.old }
        requires owes { Holds seat.old.cpus cpu (λ r. OwesFirst self.now.layout slot (record { counter = counter; debt = FoldDue }) r × (own_told (setting self.now.layout) counter r ≡ delta) × IsPackable delta) }
        ensures { Comes cpu (PaysLogged (setting self.now.layout) cpu slot (G.said gate.now cpu) result seat.old seat.new) seat.old seat.new }
    {
        if !gate.may_step(cpu, seat.state(cpu).steps) {
            return Paid {
                all: false,
                fold: None,
            };
        }
        let fold = self.fold(seat, cpu, slot, counter, delta);
        Paid {
            all: self.pay_clear(seat, cpu, slot, counter, delta, gate),
            fold: Some(fold),
        }
    }

    fn pay_clear<G: Gate>(
        &self,
        seat: &mut CpuSeat,
        cpu: u32,
        slot: Slot,
        counter: Counter,
        folded: i64,
        gate: &G,
    ) -> bool
        requires seat { IsAt self.now seat.old }
        requires owes { Holds seat.old.cpus cpu (OwesFirst self.now.layout slot (record { counter = counter; debt = ClearDue folded })) }
        ensures { Comes cpu (PaysLogged (setting self.now.layout) cpu slot (G.said gate.now cpu) (record { all = result; fold = None }) seat.old seat.new) seat.old seat.new }
    {
        if !gate.may_step(cpu, seat.state(cpu).steps) {
            return false;
        }
        self.clear(seat, cpu, slot, counter, folded);
        true
    }

    // The event that is owed is added. The answer is the CPU's own number where it is to be folded now.
    #[inline(always)]
    fn add(
        &self,
        seat: &mut CpuSeat,
        cpu: u32,
        slot: Slot,
        counter: Counter,
        event: i64,
    ) -> Option<i64>
        requires seat { IsAt self.now seat.old }
        requires owes { Holds seat.old.cpus cpu (OwesFirst self.now.layout slot (record { counter = counter; debt = Event event })) }
        ensures made { (n : _) × Makes (setting self.now.layout) (add cpu counter) n seat.old seat.new }
        ensures due { IfSome result (λ local. Holds seat.new.cpus cpu (λ r. OwesFirst self.now.layout slot (record { counter = counter; debt = FoldDue }) r × (own_told (setting self.now.layout) counter r ≡ local) × IsPackable local)) }
        ensures paid { IfNone result (Holds seat.new.cpus cpu (OwesLater slot)) }
    {
        let grants = state_of(&seat.cpus, cpu).grants;
        let found = self
            .words
            .add::<Brand>(&mut seat.place, grants, cpu, counter, event);
        let local = local_of(found) + event;
        if local.unsigned_abs() == self.words.batch_of(counter) {
            step_slot(&mut seat.cpus, cpu, slot, Some(Due::Fold(local)));
            return Some(local);
        }
        step_slot(&mut seat.cpus, cpu, slot, None);
        None
    }

    // The CPU's own number is folded, and is to be cleared then.
    fn fold(&self, seat: &mut CpuSeat, cpu: u32, slot: Slot, counter: Counter, delta: i64) -> Fold
        requires seat { IsAt self.now seat.old }
        requires owes { Holds seat.old.cpus cpu (λ r. OwesFirst self.now.layout slot (record { counter = counter; debt = FoldDue }) r × (own_told (setting self.now.layout) counter r ≡ delta) × IsPackable delta) }
        ensures made { (n : _) × (result ≡ record { counter = counter; version = version_in n + 1; delta = delta }) × Makes (setting self.now.layout) (fold cpu counter) n seat.old seat.new }
        ensures owes { Holds seat.new.cpus cpu (OwesFirst self.now.layout slot (record { counter = counter; debt = ClearDue delta })) }
    {
        let grants = state_of(&seat.cpus, cpu).grants;
        let found = self
            .words
            .fold::<Brand>(&mut seat.place, grants, cpu, counter, delta);
        step_slot(&mut seat.cpus, cpu, slot, Some(Due::Clear(delta)));
        Fold {
            counter,
            version: version_of(found) + 1,
            delta,
        }
    }

    // The number that was folded is cleared.
    fn clear(&self, seat: &mut CpuSeat, cpu: u32, slot: Slot, counter: Counter, folded: i64)
        requires seat { IsAt self.now seat.old }
        requires owes { Holds seat.old.cpus cpu (OwesFirst self.now.layout slot (record { counter = counter; debt = ClearDue folded })) }
        ensures made { (n : _) × Makes (setting self.now.layout) (clear cpu counter) n seat.old seat.new }
        ensures paid { Holds seat.new.cpus cpu (OwesLater slot) }
    {
        let grants = state_of(&seat.cpus, cpu).grants;
        self.words
            .clear::<Brand>(&mut seat.place, grants, cpu, counter, folded);
        step_slot(&mut seat.cpus, cpu, slot, None);
    }
}
