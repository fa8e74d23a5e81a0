//! The update of a context's estimate in a flusher's test.

ghost use Rattle.std.specs.Prelude.{◌≡◌, ◌<◌, ◌≤◌, ◌^◌, unsigned_abs, length, OnOk};
ghost use Rattle.wbt_num.specs.Limits.{IsLawful};
ghost use Rattle.wbt_estimate.specs.Estimate.{IsInRange};
ghost use Rattle.wbt_replay_moves.specs.Definition.Estimates as spec;
ghost use Rattle.wbt_replay_moves.specs.Definition.State.{cpu_of};
ghost use Rattle.wbt_replay_moves.specs.Kept.Fit.{EstimateFits};
ghost use Rattle.wbt_replay_moves.specs.Seen.{seen};

use crate::machine::Machine;
use crate::state::{ReplayTurn, Writeback};
use std::alloc::AllocError;
use wbt_estimate::{Sample, update};
use wbt_journal::EstEntry;
use wbt_position::{DomainRead, position, setpoint};
use wbt_trace::Trace;

impl Machine {
    /// Silent: the context's estimate is updated by what the turn has loaded.
    pub fn estimate(&mut self, trace: &Trace, cpu: u32, context: u32) -> Result<(), AllocError>
        requires cpu { cpu < length (seen self.old).cpus }
        requires fits { EstimateFits trace.now context (cpu_of cpu (seen self.old)).turn (seen self.old) }
        ensures { OnOk result (seen self.new ≡ spec.estimate trace.now cpu context (seen self.old)) }
    {
        let sample = self.sample_of(trace, cpu, context);
        match update(self.contexts[context as usize].estimate, &sample) {
            None => Ok(()),
            Some(estimate) => {
                self.contexts[context as usize].estimate = estimate;
                self.cpus[cpu as usize].log_estimate(EstEntry { context, estimate })
            }
        }
    }

    fn sample_of(&self, trace: &Trace, cpu: u32, context: u32) -> Sample
        requires cpu { cpu < length (seen self.now).cpus }
        requires fits { EstimateFits trace.now context (cpu_of cpu (seen self.now)).turn (seen self.now) }
        ensures value { result ≡ spec.sample_of trace.now context (cpu_of cpu (seen self.now)).turn (seen self.now) }
        ensures range { IsInRange result }
    {
        let turn = self.cpus[cpu as usize].turn;
        let line = self.global_line(context, &turn);
        let read = line.read_for(trace, context);
        sample_by(&turn, &read, self.contexts[context as usize])
    }
}

// The ratio is that of the global domain. What was dirtied is what was written and what the context's count reads.
#[tactic(auto, using(crate::proofs::Reading::reads_few))]
fn sample_by(turn: &ReplayTurn, read: &DomainRead, context: Writeback) -> Sample
    requires few { context.written ≤ 2 ^ 39 }
    requires count { unsigned_abs turn.now.context.value ≤ 2 ^ 32 }
    requires began { turn.now.began < 2 ^ 62 }
    requires lawful { IsLawful read.now.limits }
    requires average { context.estimate.avg < 2 ^ 44 }
    ensures value { result ≡ spec.sample_by turn.now read.now context }
    ensures range { IsInRange result }
{
    let reading = turn.context.reading();
    Sample {
        now: turn.began,
        written: context.written,
        dirtied: context.written + reading,
        ratio: position(read, reading, context.estimate.avg),
        below_setpoint: read.dirty < setpoint(&read.limits),
    }
}
