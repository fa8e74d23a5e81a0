//! A run that is told by intervals while it goes on.

ghost use Rattle.std.specs.Prelude.{ℕ, ◌≡◌, ◌+◌, ◌<◌, ◌≤◌, ◌^◌, ◌++◌, [], false, length, get_or, IfOk, OnOk, OnErr};
ghost use Rattle.std.specs.Io.KnownBytes.{append_known};
ghost use Rattle.wbt_io.specs.Faults.{HasRisen};
ghost use Rattle.wbt_io.specs.Told.{GainsPart};
ghost use Rattle.wbt_trace.specs.Lawful.{IsLawful, AreFirsts};
ghost use Rattle.wbt_forecast_rows.specs.Small.{AreSmall};
ghost use Rattle.wbt_forecast_rows.specs.Tally as tally;
ghost use Rattle.wbt_forecast_rows.specs.Text as lines;
ghost use Rattle.wbt_forecast.specs.Kept as spec;
ghost use Rattle.wbt_forecast_run.specs.Run.{moved};
ghost use Rattle.wbt_forecast.specs.Telling.{HasRow, told_row};
ghost use Rattle.wbt_replay_moves.specs.Definition.Forget.{forgotten};
ghost use Rattle.wbt_replay_moves.specs.Seen.{seen};
ghost use Rattle.wbt_replay_order.specs.Definition.Opening.{opening};
ghost use Rattle.wbt_replay_order.specs.Definition.Order.{is_ended};
ghost use Rattle.wbt_replay_order.specs.Definition.Run as run;
ghost use Rattle.wbt_replay_order.specs.Kept.Facts.{Facts};
ghost use Rattle.wbt_replay_order.specs.Kept.InRange.{IsInRange};
ghost use Rattle.wbt_replay_order.specs.Kept.Round.{IsRound};
ghost use Rattle.wbt_journal.specs.Machine.{domains};

use crate::counting::{count_checks, count_entries, count_steps, made_steps, sum_up};
use crate::further::let_on;
use std::alloc::{AllocError, Global};
use wbt_forecast_rows::text::{put_end, put_every, put_row};
use wbt_forecast_rows::{Interval, Totals};
use wbt_io::{Failed, Sink, write_all};
use wbt_journal::Ending;
use wbt_num::Items;
use wbt_replay::{advance, bases_of, ending_of, machine_of, round_of};
use wbt_replay_moves::Machine;
use wbt_trace::Trace;

/// A run under way, and what is told of it: it keeps what the machine has told since it was counted in last.
#[derive(Drop)]
pub struct Teller {
    /// The machine.
    pub machine: Machine,
    /// For each place of the rotation the next one whose CPU has jobs.
    pub round: Items<u32>,
    /// The bound of each domain without its peak, in pages.
    pub bases: Items<u64>,
    /// The tallies of the interval.
    pub interval: Interval,
    /// The sums of the run.
    pub totals: Totals,
    /// How many steps were counted in.
    pub counted: u64,
    /// How many of them were made before the interval.
    pub before: u64,
    /// The text that isn't written yet.
    pub text: Vec<u8>,
}

impl Teller {
    /// Before the first step. The first line stands in the text.
    ///
    /// It fails where memory is refused.
    pub fn make(alloc: Global, trace: &Trace, every: u64) -> Result<Teller, AllocError>
        requires { IsLawful trace.now }
        ensures machine { IfOk result (λ teller. seen teller.machine ≡ forgotten (opening trace.now)) }
        ensures round { IfOk result (λ teller. IsRound trace.now teller.round) }
        ensures bases { IfOk result (λ teller. teller.bases ≡ run.bases_of trace.now (domains trace.now)) }
        ensures small { IfOk result (λ teller. (domain : ℕ) → get_or teller.bases domain 0 < 2 ^ 23) }
        ensures interval { IfOk result (λ teller. teller.interval ≡ tally.first_tallies trace.now) }
        ensures totals { IfOk result (λ teller. teller.totals ≡ record { dirtied = 0; cleaned = 0 }) }
        ensures counted { IfOk result (λ teller. teller.counted ≡ 0) }
        ensures before { IfOk result (λ teller. teller.before ≡ 0) }
        ensures text { IfOk result (λ teller. teller.text.items ≡ lines.every_text every) }
    {
        let mut machine = machine_of(alloc, trace)?;
        let round = round_of(alloc, trace, &machine.cpus)?;
        machine.forget(alloc);
        let bases = bases_of(alloc, trace)?;
        let interval = Interval::make(alloc, trace)?;
        let mut text = Vec::new(alloc);
        put_every(every, &mut text)?;
        Ok(Teller {
            machine,
            round,
            bases,
            interval,
            totals: Totals::none(),
            counted: 0,
            before: 0,
            text,
        })
    }

    /// Makes the next move of a run that hasn't ended.
    ///
    /// It fails where memory is refused.
    pub fn move_on(&mut self, trace: &Trace) -> Result<(), AllocError>
        requires facts { Facts trace.now }
        requires range { IsInRange trace.now (seen self.old.machine) }
        requires going { is_ended (seen self.old.machine) ≡ false }
        requires round { IsRound trace.now self.old.round }
        ensures state { OnOk result (seen self.new.machine ≡ moved trace.now (seen self.old.machine)) }
        ensures others { self.new ≡ record self.old { machine = self.new.machine } }
    {
        let_on(&mut self.machine, trace)?;
        advance(&mut self.machine, trace, self.round.as_slice())?;
        Ok(())
    }

    /// Counts in what the machine has told since that was done last, and lets the machine forget it.
    pub fn count_in(&mut self, alloc: Global, trace: &Trace)
        requires firsts { AreFirsts 0 trace.now.inodes }
        requires counted { self.old.counted ≤ length (seen self.old.machine).steps }
        requires room { spec.TakesMore (spec.told_in (seen self.old.machine)) self.old.interval self.old.totals }
        ensures machine { seen self.new.machine ≡ forgotten (seen self.old.machine) }
        ensures interval { self.new.interval ≡ spec.counted_in trace.now self.old.counted (seen self.old.machine) self.old.interval }
        ensures small { (most : ℕ) → AreSmall most self.old.interval → AreSmall (most + spec.told_since self.old.counted (seen self.old.machine)) self.new.interval }
        ensures totals { self.new.totals ≡ tally.totals_after (spec.all_entries (seen self.old.machine).cpus) self.old.totals }
        ensures counted { self.new.counted ≡ length (seen self.old.machine).steps }
        ensures others { self.new ≡ record self.old { machine = self.new.machine; interval = self.new.interval; totals = self.new.totals; counted = self.new.counted } }
    {
        let made = made_steps(&self.machine.steps, self.counted);
        count_steps(
            &mut self.interval,
            trace,
            &self.machine.steps,
            self.counted,
            made,
        );
        count_entries(&mut self.interval, trace, &self.machine.cpus);
        count_checks(&mut self.interval, &self.machine.cpus);
        sum_up(&mut self.totals, &self.machine.cpus);
        self.counted = made;
        self.machine.forget(alloc);
    }

    /// Puts the row of the interval of this number behind the text, where a step was made in the interval.
    ///
    /// It fails where memory is refused.
    pub fn put_interval(&mut self, alloc: Global, number: u64) -> Result<(), AllocError>
        requires fits { HasRow self.old }
        ensures text { OnOk result (self.new.text.items ≡ self.old.text.items ++ told_row number self.old) }
        ensures others { self.new ≡ record self.old { text = self.new.text } }
    {
        if self.counted <= self.before {
            return Ok(());
        }
        let row = self.interval.row(
            alloc,
            number,
            self.bases.as_slice(),
            &self.machine.domains,
            &self.machine.contexts,
        )?;
        put_row(&row, &mut self.text)?;
        Ok(())
    }

    /// The next interval begins.
    pub fn begin_interval(&mut self)
        ensures value { self.new ≡ record self.old { interval = tally.cleared self.old.interval; before = self.old.counted } }
        ensures small { (most : ℕ) → AreSmall most self.old.interval → AreSmall most self.new.interval }
    {
        self.interval.clear();
        self.before = self.counted;
    }

    /// Puts the last two lines behind the text, and answers how the run has ended.
    ///
    /// It fails where memory is refused.
    pub fn put_ending(&mut self) -> Result<Ending, AllocError>
        ensures ending { IfOk result (λ ending. ending ≡ run.ending_of (seen self.old.machine)) }
        ensures text { OnOk result (self.new.text.items ≡ self.old.text.items ++ lines.end_text self.old.totals (run.ending_of (seen self.old.machine))) }
        ensures others { self.new ≡ record self.old { text = self.new.text } }
    {
        let ending = ending_of(&self.machine);
        put_end(self.totals, ending, &mut self.text)?;
        Ok(ending)
    }

    /// Writes the text that isn't written yet.
    pub fn send<K: Sink>(&mut self, sink: &mut K) -> Result<(), Failed>
        ensures ok { OnOk result (K.held sink.new ≡ append_known (K.held sink.old) self.old.text.items) }
        ensures gone { OnOk result (self.new.text.items ≡ []) }
        ensures err { OnErr result (GainsPart (K.held sink.old) (K.held sink.new) self.old.text.items) }
        ensures others { self.new ≡ record self.old { text = self.new.text } }
        ensures later { K.faults sink.old ≤ K.faults sink.new }
        ensures cause { OnErr result (HasRisen (K.faults sink.old) (K.faults sink.new)) }
    {
        write_all(sink, self.text.as_slice())?;
        self.text.clear();
        Ok(())
    }
}
