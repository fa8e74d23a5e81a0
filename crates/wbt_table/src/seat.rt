//! A throttle, and what a thread steps with, as contracts see them.

ghost use Rattle.std.specs.Prelude.{◌≡◌, ◌≢◌, ◌<◌, ◌↔◌, IsTrue, length, []};
ghost use Rattle.wbt_grant.specs.State.{writer_in};
ghost use Rattle.wbt_table.specs.Layout.{IsLayout, setting};
ghost use Rattle.wbt_table.specs.Rule.{Has, Holds};
ghost use Rattle.wbt_table.specs.Seat.{IsHeld, debts_in};

use crate::held::HeldLimits;
use crate::layout::Layout;
use crate::state::{CpuState, state_of};
use crate::words::{Place, Words};
use std::marker::Model;

/// The words of a throttle. Threads share it by reference.
#[derive(Drop)]
pub struct Throttle {
    pub(crate) words: Words,
}

impl Model for Throttle {
    ghost use Rattle.wbt_table.specs.Seat.{Shape};
    ghost use Rattle.wbt_table.specs.Layout.{IsLayout};

    ghost Value = { Shape };

    ghost view = { λ t. record { table = t.words.table.shared.table_id; layout = t.words.layout } };

    ghost invariant = { λ t. IsLayout t.words.layout };
}

impl Throttle {
    /// What the throttle was made for.
    pub fn layout(&self) -> &Layout
        ensures value { result.now ≡ self.now.layout }
        ensures lawful { IsLayout result.now }
    {
        &self.words.layout
    }
}

/// The records of the CPUs that a thread steps for, and of the timer where it has it.
#[derive(Drop)]
pub struct CpuSeat {
    pub(crate) place: Place,
    // By CPU.
    pub(crate) cpus: Vec<Option<CpuState>>,
    // What each writer of these CPUs has left.
    pub(crate) lefts: Vec<u64>,
    // What these CPUs hold of limits, and the timer's sequences.
    pub(crate) held: HeldLimits,
    // The steps of the timer.
    pub(crate) timer: Option<u64>,
}

impl Model for CpuSeat {
    ghost use Rattle.wbt_table.specs.Seat.{Seated, seated};
    ghost use Rattle.wbt_table.specs.Held.{IsKept};

    ghost Value = { Seated };

    ghost view = { λ s. seated s.place.table_id s.place.me s.cpus.items };

    ghost invariant = { λ s. IsKept s.place.me s.cpus.items s.lefts.items s.held s.timer };
}

impl CpuSeat {
    /// Whether the seat holds the CPU, or the timer, whose number comes after the last CPU's.
    pub fn holds(&self, cpu: u32) -> bool
        ensures { IsTrue result ↔ IsHeld self.now cpu }
    {
        let cpu = cpu as usize;
        if cpu == self.cpus.len() {
            return self.timer.is_some();
        }
        if cpu > self.cpus.len() {
            return false;
        }
        self.cpus[cpu].is_some()
    }

    /// How many pages a writer has left. Its CPU is one that the seat holds.
    ///
    /// Requires: the writer exists, and the seat holds its CPU.
    pub fn left(&self, writer: u32) -> u64
        requires there { writer < length self.now.layout.writers }
        requires held { (r : _) × Has self.now.cpus ((setting self.now.layout).seat writer) r }
        ensures { Holds self.now.cpus ((setting self.now.layout).seat writer) (λ r. result ≡ (writer_in (setting self.now.layout) writer r.writers).left) }
    {
        self.lefts[writer as usize]
    }

    /// Whether a CPU that the seat holds owes a counter an event, a fold or a clear.
    ///
    /// Requires: the seat holds the CPU.
    pub fn owes(&self, cpu: u32) -> bool
        requires held { (r : _) × Has self.now.cpus cpu r }
        ensures { Holds self.now.cpus cpu (λ r. IsTrue result ↔ (r.debts ≢ [])) }
    {
        let state = self.state(cpu);
        state.first.is_some() || state.second.is_some() || state.third.is_some()
    }

    /// How many steps a CPU that the seat holds has made, or the timer.
    ///
    /// Requires: the seat holds the CPU, or the timer.
    pub fn steps(&self, cpu: u32) -> u64
        requires held { IsHeld self.now cpu }
        ensures cpu { (r : _) → Has self.now.cpus cpu r → result ≡ r.steps }
        ensures timer { (r : _) → cpu ≡ self.now.layout.cpus → self.now.timer ≡ Some r → result ≡ r.steps }
    {
        let number = cpu as usize;
        if number < self.cpus.len() {
            return self.state(cpu).steps;
        }
        match self.timer {
            Some(steps) => steps,
            None => unreachable!(),
        }
    }

    // What is kept of a CPU that the seat holds.
    #[inline(always)]
    pub(crate) fn state(&self, cpu: u32) -> &CpuState
        requires held { (r : _) × Has self.now.cpus cpu r }
        ensures { Holds self.now.cpus cpu (λ r. (result.now.steps ≡ r.steps) × (result.now.page_steps ≡ r.page_steps) × (r.debts ≡ debts_in result.now)) }
    {
        state_of(&self.cpus, cpu)
    }
}
