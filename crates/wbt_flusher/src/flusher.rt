//! A flusher, with its disk.

ghost use Rattle.std.specs.Prelude.{◌≡◌, ◌<◌, ◌^◌, IfOk, IfErr, length, false, replicate};
ghost use Rattle.wbt_journal.specs.Machine.{pages};
ghost use Rattle.wbt_trace.specs.Lawful.{IsLawful};
ghost use Rattle.wbt_flusher.specs.Ages.{first_wheel};
ghost use Rattle.wbt_flusher.specs.Plans.{IsPlan, IsPlanOf};
ghost use Rattle.wbt_flusher.specs.Sights.{first_tallies};
ghost use Rattle.wbt_flusher.specs.Turns.{IsSteady};
ghost use Rattle.wbt_flusher.specs.declared.work.Phase.TheVariants.{Idle};

use crate::opening::{first_work, plan_of};
use crate::plan::FlusherPlan;
use crate::work::FlusherWork;
use std::alloc::Global;
use wbt_io::Disk;
use wbt_num::{Limits, NoMemory};
use wbt_trace::Trace;

/// A flusher between two turns.
pub struct Flusher<D> {
    pub plan: FlusherPlan,
    pub work: FlusherWork,
    pub disk: D,
}

impl<D: Disk> Flusher<D> {
    /// The flusher of this number of a trace, idle and ready, with its disk, where the global domain's first limits are these, at a
    /// moment, in ticks. Where memory is refused the disk is given back.
    pub fn make(
        alloc: Global,
        trace: &Trace,
        flusher: u32,
        disk: D,
        first: &Limits,
        now: u64,
    ) -> Result<Flusher<D>, (NoMemory, D)>
        requires lawful { IsLawful trace.now }
        requires there { flusher < length trace.now.flushers }
        requires moment { now < 2 ^ 62 }
        ensures plan { IfOk result (λ made. IsPlan made.plan) }
        ensures of { IfOk result (λ made. IsPlanOf trace.now made.plan) }
        ensures pages { IfOk result (λ made. made.plan.pages ≡ pages trace.now) }
        ensures flusher { IfOk result (λ made. made.plan.flusher ≡ flusher) }
        ensures steady { IfOk result (λ made. IsSteady made.plan made.work) }
        ensures idle { IfOk result (λ made. made.work.phase ≡ Idle 0 false) }
        ensures hard { IfOk result (λ made. made.work.hard ≡ first.now.hard) }
        ensures no_faults { IfOk result (λ made. made.work.faults ≡ 0) }
        ensures owes_none { IfOk result (λ made. made.work.tallies.items ≡ replicate (length made.plan.contexts) first_tallies) }
        ensures wheel { IfOk result (λ made. made.work.wheel ≡ first_wheel made.plan now) }
        ensures disk { IfOk result (λ made. made.disk ≡ disk) }
        ensures given_back { IfErr result (λ refused. refused.1 ≡ disk) }
    {
        match plan_of(alloc, trace, flusher) {
            Err(refused) => Err((refused, disk)),
            Ok(plan) => match first_work(alloc, &plan, first, now) {
                Err(refused) => Err((refused, disk)),
                Ok(work) => Ok(Flusher { plan, work, disk }),
            },
        }
    }

    /// Gives the disk back.
    pub fn into_disk(self) -> D
        ensures { result ≡ self.disk }
    {
        let Flusher {
            plan: _,
            work: _,
            disk,
        } = self;
        disk
    }
}
