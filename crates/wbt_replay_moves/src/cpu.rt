//! What becomes of a CPU: its own numbers of the counters, what it does next, and its part of the journal.

ghost use Rattle.std.specs.Prelude.{◌≡◌, ◌<◌, ◌≤◌, ◌^◌, ◌+ℤ◌, [], ◌∷◌, unsigned_abs, length, OnOk};
ghost use Rattle.wbt_replay_moves.specs.Definition.Cpu as spec;
ghost use Rattle.wbt_replay_moves.specs.Definition.Counters as counters;
ghost use Rattle.wbt_replay_moves.specs.Kept.Fit.{HasOwn, IsOwn};

use crate::state::{Cpu, Found, Load, ReplayTurn, Whose};
use crate::todo::{Step, Todo};
use std::alloc::AllocError;
use wbt_counter::{Count, Counter, Fold, Plan, plan_add};
use wbt_journal::{CheckEntry, Entry, EstEntry};
use wbt_num::Limits;

// What a turn has loaded that hasn't loaded anything.
const NO_COUNT: Count = Count {
    version: 0,
    value: 0,
};

const NO_LOAD: Load = Load {
    version: 0,
    limits: Limits {
        thresh: 0,
        bg: 0,
        hard: 0,
    },
    count: NO_COUNT,
};

const NO_WORD: Found = Found {
    sequence: 0,
    hard: 0,
};

/// A turn that begins now.
pub fn turn_of(whose: Whose, now: u64) -> ReplayTurn
    ensures { result ≡ spec.turn_of whose now }
{
    ReplayTurn {
        whose,
        began: now,
        found: NO_WORD,
        global: NO_LOAD,
        cgroup: NO_LOAD,
        context: NO_COUNT,
        over: false,
    }
}

impl Cpu {
    /// The CPU does these next, in this order.
    pub fn do_next(&mut self, items: &[Todo]) -> Result<(), AllocError>
        ensures { OnOk result (self.new ≡ spec.do_next items.now self.old) }
    {
        let count = items.len();
        for done in 0..count {
            self.todo.push_front(items[count - 1 - done])?;
        }
        Ok(())
    }

    /// The CPU does this last.
    pub fn do_last(&mut self, item: Todo) -> Result<(), AllocError>
        ensures { OnOk result (self.new ≡ spec.do_last (item ∷ []) self.old) }
    {
        self.todo.push_back(item)
    }

    /// Writes an entry into the CPU's part of the journal.
    pub fn log(&mut self, entry: Entry) -> Result<(), AllocError>
        ensures { OnOk result (self.new ≡ spec.logged entry self.old) }
    {
        self.entries.push(entry)
    }

    /// Writes a check into the CPU's part of the journal.
    pub fn log_check(&mut self, check: CheckEntry) -> Result<(), AllocError>
        ensures { OnOk result (self.new ≡ spec.checked check self.old) }
    {
        let place = self.checks.as_slice().len() as u64;
        self.checks.push(check)?;
        self.log(Entry::Check(place))
    }

    /// Writes an estimate into the CPU's part of the journal.
    pub fn log_estimate(&mut self, est: EstEntry) -> Result<(), AllocError>
        ensures { OnOk result (self.new ≡ spec.estimated est self.old) }
    {
        let place = self.estimates.as_slice().len() as u64;
        self.estimates.push(est)?;
        self.log(Entry::Est(place))
    }

    /// The CPU's own number of a counter, in pages.
    pub fn own(&self, counter: Counter) -> i64
        requires { HasOwn counter self.now }
        ensures { result ≡ spec.own_of counter self.now }
    {
        match counter {
            Counter::Domain(domain) => self.own_domains.get(domain),
            Counter::Context(context) => self.own_contexts.get(context),
        }
    }

    /// The CPU's own number of a counter becomes this.
    pub fn set_own(&mut self, counter: Counter, pages: i64)
        requires { HasOwn counter self.old }
        ensures { self.new ≡ spec.with_own counter pages self.old }
    {
        match counter {
            Counter::Domain(domain) => self.own_domains.put(domain, pages),
            Counter::Context(context) => self.own_contexts.put(context, pages),
        }
    }

    /// Adds an event to the CPU's own number of a counter. Where it has reached the batch it is folded and cleared next.
    pub fn add(&mut self, counter: Counter, change: i64, batch: u64) -> Result<(), AllocError>
        requires own { HasOwn counter self.old }
        requires below { IsOwn batch (spec.own_of counter self.old) }
        requires one { unsigned_abs change ≡ 1 }
        requires batch { batch ≤ 512 }
        ensures { OnOk result (self.new ≡ spec.added batch counter (spec.own_of counter self.old +ℤ change) self.old) }
    {
        match plan_add(self.own(counter), change, batch as i64) {
            Plan::Keep { local } => {
                self.set_own(counter, local);
                Ok(())
            }
            Plan::Fold { delta } => {
                self.set_own(counter, delta);
                self.do_next(&[
                    Todo::Step(Step::Fold { counter }),
                    Todo::Step(Step::Clear { counter }),
                ])
            }
        }
    }

    /// Tells a fold of the CPU's own number into the count.
    pub fn fold(&mut self, counter: Counter, count: Count) -> Result<(), AllocError>
        requires own { HasOwn counter self.old }
        requires version { count.version < 2 ^ 62 }
        ensures { OnOk result (self.new ≡ counters.fold_of counter count self.old) }
    {
        let fold = Fold {
            counter,
            version: count.version + 1,
            delta: self.own(counter),
        };
        self.log(Entry::Folded(fold))
    }

    /// The CPU owes an event to each counter of a page of the context, and does the last item then.
    pub fn owe(
        &mut self,
        change: i64,
        context: u32,
        group: u32,
        last: Todo,
    ) -> Result<(), AllocError>
        ensures { OnOk result (self.new ≡ spec.do_next (spec.owed_to change context group last) self.old) }
    {
        let of_context = add_of(Counter::Context(context), change);
        let of_global = add_of(Counter::Domain(0), change);
        if group == 0 {
            return self.do_next(&[of_context, of_global, last]);
        }
        let of_group = add_of(Counter::Domain(group), change);
        self.do_next(&[of_context, of_global, of_group, last])
    }
}

// The step that adds an event to a counter.
fn add_of(counter: Counter, change: i64) -> Todo
    ensures { result ≡ Todo.Step (Step.Add counter change) }
{
    Todo::Step(Step::Add { counter, change })
}
