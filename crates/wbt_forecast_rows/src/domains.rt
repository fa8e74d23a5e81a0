//! How steps change what is counted of domains.

ghost use Rattle.std.specs.Prelude.{ℕ, ◌≡◌, ◌+◌, ◌*◌, ◌≤◌, unsigned_abs, length, option_copied, All};
ghost use Rattle.std.specs.Option.{option_map};
ghost use Rattle.wbt_counter.specs.History.{at_least_zero};
ghost use Rattle.wbt_journal.specs.Steps as steps;
ghost use Rattle.wbt_forecast_rows.specs.Counts.{homes_of};
ghost use Rattle.wbt_forecast_rows.specs.Small.{IsSmallDomain};
ghost use Rattle.wbt_forecast_rows.specs.Tally as spec;

use crate::tally::{DomainTally, MOST_TOLD};
use wbt_journal::StepEntry;
use wbt_trace::{Context, Trace};

/// Counts these steps in with each domain.
pub fn count_steps(tallies: &mut [DomainTally], trace: &Trace, steps: &[StepEntry])
    requires small { All (IsSmallDomain MOST_TOLD) tallies.old }
    requires few { length steps.now ≤ MOST_TOLD }
    ensures value { tallies.new ≡ spec.by_number (spec.domain_after (homes_of trace.now) steps.now) 0 tallies.old }
    ensures small { (most : ℕ) → All (IsSmallDomain most) tallies.old → All (IsSmallDomain (most + length steps.now)) tallies.new }
{
    for domain in 0..tallies.len() {
        tallies[domain] = tallies[domain].after(trace, domain, steps);
    }
}

impl DomainTally {
    // The tally after these steps.
    fn after(self, trace: &Trace, domain: usize, steps: &[StepEntry]) -> DomainTally
        requires small { unsigned_abs self.count ≤ 128 * MOST_TOLD }
        requires few { length steps.now ≤ MOST_TOLD }
        ensures value { result ≡ spec.domain_after (homes_of trace.now) steps.now domain self }
        ensures small { (most : ℕ) → unsigned_abs self.count ≤ 128 * most → unsigned_abs result.count ≤ 128 * (most + length steps.now) }
    {
        let mut tally = self;
        for step in steps {
            tally = tally.next(trace, domain, step);
        }
        tally
    }

    // The tally after a step.
    fn next(self, trace: &Trace, domain: usize, step: &StepEntry) -> DomainTally
        requires { unsigned_abs self.count ≤ 256 * MOST_TOLD }
        ensures value { result ≡ spec.domain_next (homes_of trace.now) domain step.now self }
        ensures near { unsigned_abs result.count ≤ unsigned_abs self.count + 128 }
    {
        let count = self.count + i64::from(change_in(trace, domain, step));
        DomainTally {
            count,
            most: self.most.max(pages_of(count)),
        }
    }
}

/// A count as a number of pages; 0 where it is below zero.
pub fn pages_of(count: i64) -> u64
    ensures { result ≡ at_least_zero count }
{
    if count < 0 {
        return 0;
    }
    count as u64
}

// By how much a step changes the count of a domain.
fn change_in(trace: &Trace, domain: usize, step: &StepEntry) -> i8
    ensures { result ≡ steps.change_in (homes_of trace.now) domain step.now }
{
    if is_in(trace, step.context, domain) {
        step.change
    } else {
        0
    }
}

// Whether a context is in a domain.
fn is_in(trace: &Trace, context: u32, domain: usize) -> bool
    ensures { result ≡ steps.is_in (homes_of trace.now) context domain }
{
    domain == 0 || is_home(domain, trace.contexts.as_slice().get(context as usize))
}

// Whether the domain is that of a context, if there is one.
fn is_home(domain: usize, context: Option<&Context>) -> bool
    ensures { result ≡ steps.is_some_of domain (option_map (λ c. c.domain) (option_copied context.entry)) }
{
    match context {
        Some(context) => context.domain as usize == domain,
        None => false,
    }
}
