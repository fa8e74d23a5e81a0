//! A flusher before its first turn.

ghost use Rattle.std.specs.Prelude.{◌≡◌, ◌<◌, ◌≤◌, ◌^◌, IfOk, length, false, [], ℕ, replicate};
ghost use Rattle.wbt_journal.specs.Machine.{pages};
ghost use Rattle.wbt_trace.specs.Lawful.{IsLawful};
ghost use Rattle.wbt_trace.specs.Sofar.{pages_in};
ghost use Rattle.wbt_flusher.specs.Plans.{IsPlan, IsPlanOf};
ghost use Rattle.wbt_flusher.specs.Ages.{HasWheel, first_wheel};
ghost use Rattle.wbt_flusher.specs.Sights.{first_tallies};
ghost use Rattle.wbt_flusher.specs.Turns.{IsSteady};
ghost use Rattle.wbt_flusher.specs.declared.work.Phase.TheVariants.{Idle};

use crate::plan::FlusherPlan;
use crate::tally::{Tallies, Tally};
use crate::work::{FlusherWork, Phase};
use std::alloc::Global;
use wbt_expiry::Wheel;
use wbt_flex::Fraction;
use wbt_num::{Items, Limits, NoMemory};
use wbt_rules::{domains_of, is_ageing, leads, least_shares};
use wbt_trace::Trace;

// Before anything is read or completed.
const FIRST_TALLY: Tally = Tally {
    held: Fraction {
        period: 0,
        num: 0,
        den: 1,
    },
    owed: 0,
};

const FIRST_TALLIES: Tallies = Tallies {
    written: 0,
    global: FIRST_TALLY,
    group: FIRST_TALLY,
};

/// What a flusher knows of its trace.
pub fn plan_of(alloc: Global, trace: &Trace, flusher: u32) -> Result<FlusherPlan, NoMemory>
    requires lawful { IsLawful trace.now }
    requires there { flusher < length trace.now.flushers }
    ensures plan { IfOk result IsPlan }
    ensures of { IfOk result (IsPlanOf trace.now) }
    ensures pages { IfOk result (λ plan. plan.pages ≡ pages trace.now) }
    ensures flusher { IfOk result (λ plan. plan.flusher ≡ flusher) }
{
    let line = trace.flushers.as_slice()[flusher as usize];
    Ok(FlusherPlan {
        flusher,
        cpu: line.cpu,
        device: line.device,
        leads: leads(trace, flusher),
        ages: is_ageing(trace, line.device),
        domains: domains_of(trace),
        pages: pages_of(trace),
        inodes: Items::from_vec(trace.inodes.as_slice().to_vec(alloc)?),
        contexts: Items::from_vec(trace.contexts.as_slice().to_vec(alloc)?),
        shares: trace.devices.as_slice()[line.device as usize],
        least_shares: least_shares(trace.devices.as_slice()),
    })
}

// How many pages there are: those up to the last inode's end.
fn pages_of(trace: &Trace) -> u32
    requires { IsLawful trace.now }
    ensures { result ≡ pages_in trace.now.inodes }
{
    match trace.inodes.as_slice().last() {
        None => 0,
        Some(inode) => inode.first + inode.pages,
    }
}

/// Idle and ready, with nothing kept, where the global domain's first limits are these, at a moment, in ticks.
pub fn first_work(
    alloc: Global,
    plan: &FlusherPlan,
    first: &Limits,
    now: u64,
) -> Result<FlusherWork, NoMemory>
    requires plan { IsPlan plan.now }
    requires moment { now < 2 ^ 62 }
    requires few { length plan.now.inodes < 2 ^ 32 }
    ensures steady { IfOk result (IsSteady plan.now) }
    ensures idle { IfOk result (λ work. (work.phase ≡ Idle 0 false)) }
    ensures hard { IfOk result (λ work. work.hard ≡ first.now.hard) }
    ensures no_faults { IfOk result (λ work. work.faults ≡ 0) }
    ensures owes_none { IfOk result (λ work. work.tallies.items ≡ replicate (length plan.now.contexts) first_tallies) }
    ensures wheel { IfOk result (λ work. work.wheel ≡ first_wheel plan.now now) }
{
    let waiting = vec![in alloc; false; plan.inodes.as_slice().len()]?;
    let places = vec![in alloc; 0; plan.inodes.as_slice().len()]?;
    let tallies = vec![in alloc; FIRST_TALLIES; plan.contexts.as_slice().len()]?;
    let wheel = make_wheel(alloc, plan, now)?;
    Ok(FlusherWork {
        phase: Phase::Idle {
            until: 0,
            kept: false,
        },
        batch: Vec::new(alloc),
        faults: 0,
        hard: first.hard,
        waiting,
        places,
        some_wait: false,
        tallies,
        wheel,
    })
}

// The wheel of a flusher whose device's inodes are written for their age. No inode waits.
fn make_wheel(alloc: Global, plan: &FlusherPlan, now: u64) -> Result<Option<Wheel>, NoMemory>
    requires moment { now < 2 ^ 62 }
    requires few { length plan.now.inodes < 2 ^ 32 }
    ensures first { IfOk result (λ wheel. wheel ≡ first_wheel plan.now now) }
    ensures its { IfOk result (HasWheel plan.now) }
{
    if !plan.ages {
        return Ok(None);
    }
    let wheel = Wheel::make(alloc, plan.inodes.as_slice().len() as u32, now)?;
    Ok(Some(wheel))
}
