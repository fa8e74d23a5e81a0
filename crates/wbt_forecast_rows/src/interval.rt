//! The tallies of an interval, while it goes on.

ghost use Rattle.std.specs.Prelude.{ℕ, ◌≡◌, ◌+◌, ◌^◌, ◌<◌, ◌≤◌, length, get_or, IfOk};
ghost use Rattle.wbt_trace.specs.Lawful.{AreFirsts, IsLawful};
ghost use Rattle.wbt_replay_moves.specs.Definition.State.{no_domain};
ghost use Rattle.wbt_forecast_rows.specs.Small.{AreSmall};
ghost use Rattle.wbt_forecast_rows.specs.Tally as spec;

use crate::rows::IntervalRow;
use crate::tally::{ContextTally, DomainTally, MOST_TOLD, TaskTally};
use crate::{contexts, domains, fresh, made, tasks};
use std::alloc::{AllocError, Global};
use std::marker::Model;
use wbt_journal::{CheckEntry, Entry, StepEntry};
use wbt_replay_moves::{Domain, Writeback};
use wbt_trace::Trace;

/// What is counted of an interval so far, of each domain, context and task by number. Its memory is taken when it is made.
#[derive(Drop)]
pub struct Interval {
    domains: Vec<DomainTally>,
    contexts: Vec<ContextTally>,
    tasks: Vec<TaskTally>,
}

impl Model for Interval {
    ghost use Rattle.std.specs.Prelude.{◌^◌, ◌≤◌, vec_len};
    ghost use Rattle.wbt_forecast_rows.specs.Tally.{Tallies};

    ghost Value = { Tallies };

    ghost view = { λ i. record { domains = i.domains.items; contexts = i.contexts.items; tasks = i.tasks.items } };

    ghost invariant = { λ i. (vec_len i.domains ≤ 2 ^ 32) × (vec_len i.contexts ≤ 2 ^ 32) × (vec_len i.tasks ≤ 2 ^ 32) };
}

impl Interval {
    /// The tallies before the first step of a trace's run: nothing is dirty, and nothing was told.
    pub fn make(alloc: Global, trace: &Trace) -> Result<Interval, AllocError>
        requires { IsLawful trace.now }
        ensures { IfOk result (λ interval. interval ≡ spec.first_tallies trace.now) }
    {
        let cgroups = trace.cgroups.as_slice();
        Ok(Interval {
            domains: fresh::domains(alloc, cgroups.len() + 1)?,
            contexts: fresh::contexts(alloc, trace.contexts.as_slice().len())?,
            tasks: fresh::tasks(alloc, trace.tasks.as_slice().len())?,
        })
    }

    /// Counts these steps in. They are those after the ones that were counted before.
    pub fn count_steps(&mut self, trace: &Trace, steps: &[StepEntry])
        requires small { AreSmall MOST_TOLD self.old }
        requires few { length steps.now ≤ MOST_TOLD }
        ensures value { self.new ≡ spec.after_steps trace.now steps.now self.old }
        ensures small { (most : ℕ) → AreSmall most self.old → AreSmall (most + length steps.now) self.new }
    {
        domains::count_steps(self.domains.as_mut_slice(), trace, steps);
    }

    /// Counts these entries of a CPU in.
    pub fn count_entries(&mut self, trace: &Trace, entries: &[Entry])
        requires firsts { AreFirsts 0 trace.now.inodes }
        requires small { AreSmall MOST_TOLD self.old }
        requires few { length entries.now ≤ MOST_TOLD }
        ensures value { self.new ≡ spec.after_entries trace.now entries.now self.old }
        ensures small { (most : ℕ) → AreSmall most self.old → AreSmall (most + length entries.now) self.new }
    {
        contexts::count_entries(self.contexts.as_mut_slice(), trace, entries);
        tasks::count_entries(self.tasks.as_mut_slice(), entries);
    }

    /// Counts these checks of a CPU in.
    pub fn count_checks(&mut self, checks: &[CheckEntry])
        requires small { AreSmall MOST_TOLD self.old }
        requires few { length checks.now ≤ MOST_TOLD }
        ensures value { self.new ≡ spec.after_checks checks.now self.old }
        ensures small { (most : ℕ) → AreSmall most self.old → AreSmall (most + length checks.now) self.new }
    {
        tasks::count_checks(self.tasks.as_mut_slice(), checks);
    }

    /// The next interval begins. Counts of domains stay, and all else is 0.
    pub fn clear(&mut self)
        ensures value { self.new ≡ spec.cleared self.old }
        ensures small { (most : ℕ) → AreSmall most self.old → AreSmall most self.new }
    {
        fresh::clear_domains(self.domains.as_mut_slice());
        fresh::clear_contexts(self.contexts.as_mut_slice());
        fresh::clear_tasks(self.tasks.as_mut_slice());
    }

    /// The row of the interval of this number: of each domain's bound without its peak, and of what there is of domains and contexts
    /// now.
    pub fn row(
        &self,
        alloc: Global,
        number: u64,
        bases: &[u64],
        domains: &[Domain],
        contexts: &[Writeback],
    ) -> Result<IntervalRow, AllocError>
        requires bases { length bases.now ≡ length self.now.domains }
        requires domains { length domains.now ≡ length self.now.domains }
        requires contexts { length contexts.now ≡ length self.now.contexts }
        requires bounds { (domain : ℕ) → domain < length self.now.domains → get_or bases.now domain 0 + (get_or domains.now domain no_domain).peak < 2 ^ 64 }
        ensures { IfOk result (λ row. row ≡ spec.row_told number bases.now domains.now contexts.now self.now) }
    {
        Ok(IntervalRow {
            number,
            domains: made::domain_rows(alloc, self.domains.as_slice(), bases, domains)?,
            contexts: made::context_rows(alloc, self.contexts.as_slice(), contexts)?,
            tasks: made::task_rows(alloc, self.tasks.as_slice())?,
        })
    }
}
