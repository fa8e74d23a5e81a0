//! The writers of a CPU, which take turns over the words that all threads share.

ghost use Rattle.std.specs.Prelude.{◌≡◌, ◌<◌, ◌≤◌, [], IfOk, OnOk, length};
ghost use Rattle.wbt_rules.specs.Thresholds.{global_at};
ghost use Rattle.wbt_journal.specs.Side.{first_side};
ghost use Rattle.wbt_kit.specs.Kit.{AreSeatsOf};
ghost use Rattle.wbt_table.specs.Layout.{domains, setting};
ghost use Rattle.wbt_trace.specs.Lawful.{IsLawful};
ghost use Rattle.wbt_run_laws.specs.Notes.{no_fraction};
ghost use Rattle.wbt_run_steps.specs.Gate.{AskedBeforeEach};
ghost use Rattle.wbt_run_steps.specs.Kinds.{StepsInTurn};
ghost use Rattle.wbt_writer.specs.Answers.{MayGoOn, ToldAreHeld, Turned};
ghost use Rattle.wbt_writer.specs.Counted.{IsFor, side_of, written_of};
ghost use Rattle.wbt_writer.specs.Exact.{WriterTakes};
ghost use Rattle.wbt_writer.specs.Desk.{AreAt, Fits, HaveLefts, IsAtKit, IsReady, kept_in, record_in, sight};

use crate::tasks::Tasks;
use crate::work::{WriterPlace, WriterWork, new_fractions, new_waiting};
use std::alloc::Global;
use std::marker::Model;
use std::sync::Wait;
use wbt_io::{Clock, Gate};
use wbt_journal::CpuJournal;
use wbt_kit::{Hands, Seats, Turn};
use wbt_limits::ratelimit_pages;
use wbt_num::{Limits, NoMemory};
use wbt_run_steps::Pen;
use wbt_trace::Trace;

/// The writers of a CPU between two turns.
#[derive(Drop)]
pub struct WriterCpu<'t> {
    trace: &'t Trace,
    cpu: u32,
    work: WriterWork,
}

impl<'t> Model for WriterCpu<'t> {
    ghost use Rattle.wbt_writer.specs.Desk.{Desk, IsWork};

    ghost Value = { Desk };

    ghost view = { λ s. record { trace = s.trace.now; cpu = s.cpu; work = s.work } };

    ghost invariant = { λ s. IsWork s.trace.now s.work };
}

impl<'t> WriterCpu<'t> {
    /// The writers of a CPU of a trace, whose global domain has these first limits. None of them has begun.
    pub fn make(
        alloc: Global,
        trace: &'t Trace,
        cpu: u32,
        first: &Limits,
    ) -> Result<WriterCpu<'t>, NoMemory>
        requires lawful { IsLawful trace.now }
        ensures trace { IfOk result (λ desk. (desk.trace ≡ trace.now) × (desk.cpu ≡ cpu)) }
        ensures its { IfOk result (λ desk. (opened : _) → first.now.thresh ≡ (global_at trace.now opened).thresh → IsFor trace.now opened cpu desk.work.tasks) }
        ensures side { IfOk result (λ desk. side_of desk.work.tasks ≡ first_side trace.now) }
        ensures written { IfOk result (λ desk. (task : _) → written_of desk.work.tasks task ≡ 0) }
        ensures kept { IfOk result (λ desk. (domain context : _) → kept_in trace.now desk.work domain context ≡ no_fraction) }
        ensures lefts { IfOk result (λ desk. (kit : _) → (seats : _) → (setting kit.throttle.layout).cap ≡ trace.now.cap → (record_in cpu seats).writers ≡ [] → HaveLefts trace.now cpu kit desk.work.tasks seats) }
    {
        let tasks = Tasks::make(alloc, trace, cpu, ratelimit_pages(first.thresh, trace.cpus))?;
        let fractions = new_fractions(alloc, trace.contexts.as_slice().len())?;
        let waiting = new_waiting(alloc, trace.inodes.as_slice().len())?;
        Ok(WriterCpu {
            trace,
            cpu,
            work: WriterWork {
                tasks,
                fractions,
                waiting,
            },
        })
    }

    /// A turn of the CPU's writers: a check that is due, a rest, or a write of a task's next page. The gate is asked before each step. All
    /// memory is taken before the first step: where it is refused nothing was done. After Halted it isn't called again. A check decides by the
    /// limits that its CPU's record holds when the turn returns: those that it read whole, or, where the timer was changing them, those that the
    /// CPU held before.
    pub fn turn<R: Wait, C: Clock, G: Gate>(
        &mut self,
        hands: &Hands<R, C, G>,
        seats: &mut Seats,
        log: &mut CpuJournal,
    ) -> Turn
        requires ready { IsReady self.old hands.now.kit.now seats.old }
        ensures fixed { (self.new.trace ≡ self.old.trace) × (self.new.cpu ≡ self.old.cpu) }
        ensures at_kit { IsAtKit self.new hands.now.kit.now }
        ensures fits { Fits self.new.cpu hands.now.kit.now seats.new }
        ensures turned { Turned (C.told hands.now.clock.now) (G.said hands.now.gate.now) self.old.trace self.old.cpu hands.now.kit.now result (sight self.old.work seats.old log.old) (sight self.new.work seats.new log.new) }
        ensures took { WriterTakes (C.told hands.now.clock.now) (G.said hands.now.gate.now) self.old.trace hands.now.kit.now self.old.cpu result (sight self.old.work seats.old log.old) (sight self.new.work seats.new log.new) }
        ensures holds { ToldAreHeld hands.now.kit.now self.old.cpu seats.new log.old log.new }
        ensures asked { AskedBeforeEach self.old.cpu (G.said hands.now.gate.now) seats.old seats.new }
        ensures kinds { StepsInTurn (domains hands.now.kit.now.throttle.layout) self.old.cpu result seats.old seats.new }
        ensures may_go_on { MayGoOn result hands.now.kit.now self.old self.new seats.old seats.new }
    {
        let place = WriterPlace {
            trace: self.trace,
            cpu: self.cpu,
        };
        // Writers that have ended are still asked as long as flushers have work, so their turn is kept cheap.
        if self.work.tasks.have_ended() {
            self.work.put_waiting(hands, &place, seats);
            return Turn::Done;
        }
        let mut pen = Pen::open(hands.alloc, log);
        let turn = self.turn_with(hands, seats, &mut pen);
        pen.close(log);
        turn
    }

    // The turn, once there is room in the log: a page and its three folds, or a check.
    fn turn_with<R: Wait, C: Clock, G: Gate>(
        &mut self,
        hands: &Hands<R, C, G>,
        seats: &mut Seats,
        pen: &mut Pen,
    ) -> Turn
        requires ready { IsReady self.old hands.now.kit.now seats.old }
        ensures fixed { (self.new.trace ≡ self.old.trace) × (self.new.cpu ≡ self.old.cpu) }
        ensures at_kit { IsAtKit self.new hands.now.kit.now }
        ensures fits { Fits self.new.cpu hands.now.kit.now seats.new }
        ensures turned { Turned (C.told hands.now.clock.now) (G.said hands.now.gate.now) self.old.trace self.old.cpu hands.now.kit.now result (sight self.old.work seats.old pen.old.log) (sight self.new.work seats.new pen.new.log) }
        ensures took { WriterTakes (C.told hands.now.clock.now) (G.said hands.now.gate.now) self.old.trace hands.now.kit.now self.old.cpu result (sight self.old.work seats.old pen.old.log) (sight self.new.work seats.new pen.new.log) }
        ensures asked { AskedBeforeEach self.old.cpu (G.said hands.now.gate.now) seats.old seats.new }
        ensures kinds { StepsInTurn (domains hands.now.kit.now.throttle.layout) self.old.cpu result seats.old seats.new }
        ensures may_go_on { MayGoOn result hands.now.kit.now self.old self.new seats.old seats.new }
    {
        if pen.reserve(MOST_ENTRIES, 1, 0).is_err() {
            return Turn::NoMemory;
        }
        let place = WriterPlace {
            trace: self.trace,
            cpu: self.cpu,
        };
        self.work.turn(hands, &place, seats, pen)
    }
}

// The most entries of a turn: a page and its three folds.
const MOST_ENTRIES: usize = 4;
