//! What a seat keeps of a CPU's record at run time: what the CPU's next calls need.

ghost use Rattle.std.specs.Prelude.{◌≡◌, ◌<◌, ◌^◌, ◌==◌, cond, Some, None};
ghost use Rattle.wbt_table.specs.declared.state.Due.TheVariants.{Event};
ghost use Rattle.wbt_table.specs.Seat as seat;
ghost use Rattle.wbt_table.specs.Seat.{Knows, put_state, stepped, page_stepped, owing_events};
ghost use Rattle.wbt_table.specs.Settle as settling;

use crate::rule::Granted;
use wbt_counter::Counter;

/// What is to be done for a counter.
#[derive(Clone, Copy, Debug, PartialEq, Eq)]
pub enum Due {
    /// An event, 1 or -1, is to be added to the CPU's own number.
    Event(i64),
    /// The CPU's own number, which is this one, is to be folded.
    Fold(i64),
    /// This number, which was folded, is to be taken from the CPU's own number.
    Clear(i64),
}

/// What is kept of a CPU.
#[derive(Clone, Copy)]
pub struct CpuState {
    /// Its steps. The number stands still at the end of its type.
    pub steps: u64,
    /// Of these the page steps.
    pub page_steps: u64,
    /// The context of the last event that it owed.
    pub context: u32,
    /// The domain of that context's cgroup, 0 for a context in the global domain alone.
    pub group: u32,
    /// What it owes to the context's counter.
    pub first: Option<Due>,
    /// What it owes to the global domain's counter.
    pub second: Option<Due>,
    /// What it owes to the counter of the cgroup's domain.
    pub third: Option<Due>,
    /// A grant since its last step.
    pub grants: Option<Granted>,
}

// Which of a CPU's debts.
#[derive(Clone, Copy, PartialEq, Eq)]
pub(crate) enum Slot {
    First,
    Second,
    Third,
}

impl CpuState {
    // The counter of a slot.
    #[inline(always)]
    pub(crate) fn counter_in(&self, slot: Slot) -> Counter
        ensures { result ≡ seat.counter_in slot self.now }
    {
        match slot {
            Slot::First => Counter::Context(self.context),
            Slot::Second => Counter::Domain(0),
            Slot::Third => Counter::Domain(self.group),
        }
    }

    // The debt in a slot.
    #[inline(always)]
    pub(crate) fn due_in(&self, slot: Slot) -> Option<Due>
        ensures { result ≡ seat.due_in slot self.now }
    {
        match slot {
            Slot::First => self.first,
            Slot::Second => self.second,
            Slot::Third => self.third,
        }
    }

    // The debt of a slot becomes another.
    #[inline(always)]
    fn owe(&mut self, slot: Slot, due: Option<Due>)
        ensures { self.new ≡ settling.with_due slot due self.old }
    {
        match slot {
            Slot::First => self.first = due,
            Slot::Second => self.second = due,
            Slot::Third => self.third = due,
        }
    }

    // After one step more, with which the record has the grant.
    #[inline(always)]
    pub(crate) fn step(&mut self)
        ensures { self.new ≡ stepped self.old }
    {
        self.steps = self.steps.saturating_add(1);
        self.grants = None;
    }

    // The same where the step was a page step.
    #[inline(always)]
    fn page_step(&mut self)
        requires few { self.old.page_steps < 2 ^ 63 }
        ensures { self.new ≡ page_stepped self.old }
    {
        self.step();
        self.page_steps += 1;
    }

    // An event is owed to each counter of a context whose cgroup's domain is `group`.
    #[inline(always)]
    fn owe_events(&mut self, context: u32, group: u32, event: i64)
        ensures { self.new ≡ owing_events context group event self.old }
    {
        self.context = context;
        self.group = group;
        self.first = Some(Due::Event(event));
        self.second = Some(Due::Event(event));
        self.third = owed_to_group(group, event);
    }
}

#[inline(always)]
fn owed_to_group(group: u32, event: i64) -> Option<Due>
    ensures { result ≡ cond (group == 0) None (Some (Event event)) }
{
    if group == 0 {
        None
    } else {
        Some(Due::Event(event))
    }
}

// What is kept of a CPU that the seat holds.
#[inline(always)]
pub(crate) fn state_of(cpus: &Vec<Option<CpuState>>, cpu: u32) -> &CpuState
    requires { (s : _) × Knows cpus.now.items cpu s }
    ensures { Knows cpus.now.items cpu result.now }
{
    match &cpus[cpu as usize] {
        Some(state) => state,
        None => unreachable!(),
    }
}

// A CPU has made one step more.
#[inline(always)]
pub(crate) fn step(cpus: &mut Vec<Option<CpuState>>, cpu: u32)
    requires { (s : _) × Knows cpus.old.items cpu s }
    ensures { (s : _) → Knows cpus.old.items cpu s → cpus.new.items ≡ put_state cpu (stepped s) cpus.old.items }
{
    match &mut cpus[cpu as usize] {
        Some(state) => state.step(),
        None => unreachable!(),
    }
}

// A CPU has made so many steps, and its record has the grant.
#[inline(always)]
pub(crate) fn keep_steps(cpus: &mut Vec<Option<CpuState>>, cpu: u32, steps: u64)
    requires { (s : _) × Knows cpus.old.items cpu s }
    ensures { (s : _) → Knows cpus.old.items cpu s → cpus.new.items ≡ put_state cpu (record s { steps = steps; grants = None }) cpus.old.items }
{
    match &mut cpus[cpu as usize] {
        Some(state) => {
            state.steps = steps;
            state.grants = None;
        }
        None => unreachable!(),
    }
}

// A CPU has made one step more, and the debt of a slot is another.
#[inline(always)]
pub(crate) fn step_slot(cpus: &mut Vec<Option<CpuState>>, cpu: u32, slot: Slot, due: Option<Due>)
    requires { (s : _) × Knows cpus.old.items cpu s }
    ensures { (s : _) → Knows cpus.old.items cpu s → cpus.new.items ≡ put_state cpu (settling.with_due slot due (stepped s)) cpus.old.items }
{
    match &mut cpus[cpu as usize] {
        Some(state) => {
            state.step();
            state.owe(slot, due);
        }
        None => unreachable!(),
    }
}

// A CPU has made one page step more.
#[inline(always)]
pub(crate) fn step_page(cpus: &mut Vec<Option<CpuState>>, cpu: u32)
    requires { (s : _) × Knows cpus.old.items cpu s × (s.page_steps < 2 ^ 63) }
    ensures { (s : _) → Knows cpus.old.items cpu s → cpus.new.items ≡ put_state cpu (page_stepped s) cpus.old.items }
{
    match &mut cpus[cpu as usize] {
        Some(state) => state.page_step(),
        None => unreachable!(),
    }
}

// The same, and it owes an event to each counter of a context.
#[inline(always)]
pub(crate) fn step_owing(
    cpus: &mut Vec<Option<CpuState>>,
    cpu: u32,
    context: u32,
    group: u32,
    event: i64,
)
    requires { (s : _) × Knows cpus.old.items cpu s × (s.page_steps < 2 ^ 63) }
    ensures { (s : _) → Knows cpus.old.items cpu s → cpus.new.items ≡ put_state cpu (owing_events context group event (page_stepped s)) cpus.old.items }
{
    match &mut cpus[cpu as usize] {
        Some(state) => {
            state.page_step();
            state.owe_events(context, group, event);
        }
        None => unreachable!(),
    }
}

// A CPU has a grant, which its record gets with its next step.
pub(crate) fn hold_grant(cpus: &mut Vec<Option<CpuState>>, cpu: u32, grant: Granted)
    requires { (s : _) × Knows cpus.old.items cpu s }
    ensures { (s : _) → Knows cpus.old.items cpu s → cpus.new.items ≡ put_state cpu (record s { grants = Some grant }) cpus.old.items }
{
    match &mut cpus[cpu as usize] {
        Some(state) => state.grants = Some(grant),
        None => unreachable!(),
    }
}
