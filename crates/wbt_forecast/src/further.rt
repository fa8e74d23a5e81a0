//! Whether a run that has made all steps that it may is let make as many more as a replay may have.

ghost use Rattle.std.specs.Prelude.{◌≡◌, true, IfOk, OnOk};
ghost use Rattle.std.specs.List.{list_all};
ghost use Rattle.wbt_num.specs.declared.most.TheConstants.{MOST_STEPS as most_steps};
ghost use Rattle.wbt_forecast_run.specs.Run as run;
ghost use Rattle.wbt_replay_order.specs.Definition.Order.{is_full};
ghost use Rattle.wbt_replay_order.specs.Kept.Further as spec;
ghost use Rattle.wbt_replay_order.specs.Kept.Sound.{Sound};
ghost use Rattle.wbt_replay_moves.specs.Seen.{seen};

use crate::ticks::{latest_moment, reserve};
use std::alloc::AllocError;
use wbt_counter::Count;
use wbt_num::MOST_STEPS;
use wbt_replay_moves::{Domain, Machine, Writeback};
use wbt_trace::{MOST_COUNT, Trace};

// The most steps of any run: 2^40.
const MOST_EVER: u64 = 1 << 40;

// No moment of a run is later: 31 * 2^57.
const LATEST: u64 = 31 << 57;

// By how many ticks as many steps more may put a moment later.
const FURTHER_TICKS: u64 = ((1 << 32) + MOST_COUNT) * MOST_STEPS;

// Pages of a shared count, in absolute value, and of the folds that it still finds room for: 2^32.
const MOST_COUNTED: u64 = 1 << 32;

// Pages that the folds of one step bring at most.
const FOLDED: u64 = 512;

/// Lets the run make as many steps more as a replay may have, where it has made all that it may and these fit. Only the contract speaks of
/// the trace.
///
/// It fails where memory is refused.
pub fn let_on(machine: &mut Machine, trace: &Trace) -> Result<(), AllocError>
    requires { Sound trace.now (seen machine.old) }
    ensures { OnOk result (seen machine.new ≡ run.let_on (seen machine.old)) }
{
    if !machine.steps.is_at_least(machine.most) {
        return Ok(());
    }
    let fits = fits_further(machine, trace)?;
    if fits {
        machine.extend();
    }
    Ok(())
}

// Whether no moment comes too late by as many steps more, and each count finds room.
fn fits_further(machine: &mut Machine, trace: &Trace) -> Result<bool, AllocError>
    requires sound { Sound trace.now (seen machine.old) }
    requires full { is_full (seen machine.old) ≡ true }
    ensures answer { IfOk result (λ fits. fits ≡ spec.fits_further (seen machine.old)) }
    ensures same { OnOk result (seen machine.new ≡ seen machine.old) }
{
    if machine.most + MOST_STEPS > MOST_EVER {
        return Ok(false);
    }
    if !counts_fit(machine, trace) {
        return Ok(false);
    }
    moments_fit(machine, trace)
}

fn moments_fit(machine: &mut Machine, trace: &Trace) -> Result<bool, AllocError>
    requires sound { Sound trace.now (seen machine.old) }
    requires full { is_full (seen machine.old) ≡ true }
    ensures answer { IfOk result (λ fit. fit ≡ spec.moments_fit (seen machine.old)) }
    ensures same { OnOk result (seen machine.new ≡ seen machine.old) }
{
    let latest = latest_moment(machine);
    let ticks = reserve(machine, trace)?;
    Ok(latest + ticks + FURTHER_TICKS <= LATEST)
}

fn counts_fit(machine: &Machine, trace: &Trace) -> bool
    requires sound { Sound trace.now (seen machine.now) }
    requires full { is_full (seen machine.now) ≡ true }
    ensures { result ≡ spec.counts_fit (seen machine.now) }
{
    domains_take(machine.domains.as_slice()) && contexts_take(machine.contexts.as_slice())
}

fn domains_take(domains: &[Domain]) -> bool
    ensures { result ≡ list_all (λ d. spec.takes_folds most_steps d.count) domains.now }
{
    domains.iter().all(|domain| takes_folds(domain.count))
}

fn contexts_take(contexts: &[Writeback]) -> bool
    ensures { result ≡ list_all (λ w. spec.takes_folds most_steps w.count) contexts.now }
{
    contexts.iter().all(|context| takes_folds(context.count))
}

// The count finds room for the folds of as many steps as a replay may have.
fn takes_folds(count: Count) -> bool
    ensures { result ≡ spec.takes_folds most_steps count }
{
    count.value.unsigned_abs() + FOLDED * MOST_STEPS <= MOST_COUNTED
}
