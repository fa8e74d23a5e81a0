//! Each item of a turn, and what turns begin with.

ghost use Rattle.std.specs.Prelude.{◌≡◌, ◌<◌, ◌^◌, length, OnOk};
ghost use Rattle.wbt_replay_moves.specs.Definition.Perform as spec;
ghost use Rattle.wbt_replay_moves.specs.Definition.State.{flusher_of};
ghost use Rattle.wbt_replay_moves.specs.Kept.Fit.{CanBegin, CanMove, CanStep, CanTimerMove, CanTimerStep, PhaseBegins};
ghost use Rattle.wbt_replay_moves.specs.Seen.{seen};

use crate::cpu::turn_of;
use crate::machine::Machine;
use crate::state::{ReplayPhase, Whose};
use crate::todo::{Silent, Step, TimerSilent, TimerStep, Todo};
use std::alloc::AllocError;
use wbt_trace::Trace;

impl Machine {
    /// A step of the CPU's turn.
    #[tactic(auto, unfolding(crate::specs::Definition::Perform::make_step, crate::specs::Kept::Fit::CanStep))]
    pub fn make_step(&mut self, trace: &Trace, cpu: u32, step: Step) -> Result<(), AllocError>
        requires cpu { cpu < length (seen self.old).cpus }
        requires fits { CanStep trace.now cpu step (seen self.old) }
        ensures { OnOk result (seen self.new ≡ spec.make_step trace.now cpu step (seen self.old)) }
    {
        match step {
            Step::Dirty => self.dirty(trace, cpu),
            Step::Add { counter, change } => self.add(trace, cpu, counter, change),
            Step::Fold { counter } => self.fold(cpu, counter),
            Step::Clear { counter } => self.clear(cpu, counter),
            Step::Mark { inode } => self.mark(trace, cpu, inode),
            Step::First { domain } => self.load_first(cpu, domain),
            Step::Middle { domain: _ } => self.load_middle(cpu),
            Step::Limits { domain } => self.load_limits(cpu, domain),
            Step::Count { counter } => self.load_count(cpu, counter),
            Step::Unmark => self.unmark(trace, cpu),
            Step::Look => self.look(cpu),
            Step::Claim { word } => self.claim(cpu, word),
            Step::Complete => self.complete(trace, cpu),
        }
    }

    /// A silent move of the CPU's turn.
    #[tactic(auto, unfolding(crate::specs::Definition::Perform::make_move, crate::specs::Kept::Fit::CanMove))]
    pub fn make_move(&mut self, trace: &Trace, cpu: u32, item: Silent) -> Result<(), AllocError>
        requires cpu { cpu < length (seen self.old).cpus }
        requires fits { CanMove trace.now cpu item (seen self.old) }
        ensures { OnOk result (seen self.new ≡ spec.make_move trace.now cpu item (seen self.old)) }
    {
        match item {
            Silent::Decide => self.decide(trace, cpu),
            Silent::End => {
                self.end(cpu);
                Ok(())
            }
            Silent::Estimate { context } => self.estimate(trace, cpu, context),
            Silent::Weigh { context } => {
                self.weigh(trace, cpu, context);
                Ok(())
            }
            Silent::Test => self.test(trace, cpu),
            Silent::Close => self.close(trace, cpu),
            Silent::HandOver => self.hand_over(trace, cpu),
            Silent::Land => self.land(trace, cpu),
        }
    }

    /// A step of the timer's turn.
    #[tactic(auto, unfolding(crate::specs::Definition::Perform::make_timer_step, crate::specs::Kept::Fit::CanTimerStep))]
    pub fn make_timer_step(&mut self, trace: &Trace, step: TimerStep) -> Result<(), AllocError>
        requires { CanTimerStep trace.now step (seen self.old) }
        ensures { OnOk result (seen self.new ≡ spec.make_timer_step trace.now step (seen self.old)) }
    {
        match step {
            TimerStep::Count { domain } => self.load(trace, domain),
            TimerStep::Peak { domain } => self.peak(domain),
            TimerStep::Unseal { domain } => self.unseal(domain),
            TimerStep::Thresh { domain: _ } => self.thresh(),
            TimerStep::Publish { domain } => self.publish(domain),
        }
    }

    /// A silent move of the timer's turn.
    #[tactic(auto, unfolding(crate::specs::Definition::Perform::make_timer_move, crate::specs::Kept::Fit::CanTimerMove))]
    pub fn make_timer_move(&mut self, item: TimerSilent) -> Result<(), AllocError>
        requires { CanTimerMove item (seen self.old) }
        ensures { OnOk result (seen self.new ≡ spec.make_timer_move item (seen self.old)) }
    {
        match item {
            TimerSilent::Period { domain } => self.period(domain),
            TimerSilent::Rest => {
                self.timer_rest();
                Ok(())
            }
        }
    }

    /// Begins a turn of the CPU, which has nothing left to do.
    pub fn begin_turn(&mut self, trace: &Trace, cpu: u32, whose: Whose) -> Result<(), AllocError>
        requires cpu { cpu < length (seen self.old).cpus }
        requires fits { CanBegin trace.now (seen self.old) whose }
        ensures { OnOk result (seen self.new ≡ spec.begin_turn trace.now cpu whose (seen self.old)) }
    {
        self.cpus[cpu as usize].turn = turn_of(whose, self.clock);
        match whose {
            Whose::Task { task } => self.begin_task(trace, cpu, task),
            Whose::Flusher { flusher } => self.begin_flush(trace, cpu, flusher),
        }
    }

    fn begin_flush(&mut self, trace: &Trace, cpu: u32, flusher: u32) -> Result<(), AllocError>
        requires cpu { cpu < length (seen self.old).cpus }
        requires flusher { flusher < length (seen self.old).flushers }
        requires fits { PhaseBegins trace.now flusher (seen self.old) (flusher_of flusher (seen self.old)).phase }
        ensures { OnOk result (seen self.new ≡ spec.begin_flush trace.now cpu flusher (seen self.old)) }
    {
        match self.phase(flusher) {
            ReplayPhase::Idle { .. } => self.begin_idle(trace, cpu, flusher),
            ReplayPhase::Taken { .. } => self.then_do(cpu, &[Todo::Step(Step::Unmark)]),
            ReplayPhase::Scanning { .. } => self.then_do(cpu, &[Todo::Step(Step::Look)]),
            ReplayPhase::Flying { .. } => self.then_do(cpu, &[Todo::Step(Step::Complete)]),
            ReplayPhase::Finished => Ok(()),
        }
    }
}
