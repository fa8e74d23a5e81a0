//! A forecast, which is written while its run goes on.

ghost use Rattle.std.specs.Prelude.{ℕ, ◌≡◌, ◌+◌, ◌<◌, ◌≤◌, ◌/◌, ◌==◌, not, false, List, Option, IfOk, OnOk, IsOk, IsErrOf};
ghost use Rattle.std.specs.Io.KnownBytes.{append_known};
ghost use Rattle.wbt_io.specs.Faults.{HasRisen};
ghost use Rattle.wbt_io.specs.Told.{GainsPart};
ghost use Rattle.wbt_trace.specs.Lawful.{IsLawful};
ghost use Rattle.wbt_forecast_run.specs.Run as spec;
ghost use Rattle.wbt_forecast.specs.Telling.{IsLeaving, IsOver, IsTelling, Leaves, Tells};
ghost use Rattle.wbt_replay_moves.specs.Seen.{seen};
ghost use Rattle.wbt_replay_order.specs.Definition.Order.{is_ended as has_ended};

use crate::fault::ForecastFault;
use crate::teller::Teller;
use std::alloc::Global;
use wbt_io::Sink;
use wbt_journal::Ending;
use wbt_replay::is_ended;
use wbt_trace::Trace;

// The most moves of a run: 2^60.
const MOST_MOVES: u64 = 1 << 60;

// As many steps are kept before they are counted in.
const MOST_KEPT: usize = 4096;

// Bytes that are written at once, but for a row more.
const PIECE: usize = 65536;

/// Writes the forecast of the trace by intervals of so many ticks, at least 1, to the sink, while the run goes on, and answers how the
/// run ended. The memory that it takes is linear in the trace, however long the run is.
///
/// `NoMemory` comes where memory is refused, and `WriteFault` at the sink's first fault. The sink holds a part of the text then.
pub fn forecast<K: Sink>(
    alloc: Global,
    trace: &Trace,
    every: u64,
    sink: &mut K,
) -> Result<Ending, ForecastFault>
    requires lawful { IsLawful trace.now }
    requires every { 1 ≤ every }
    ensures told { OnOk result (K.held sink.new ≡ append_known (K.held sink.old) (spec.foretold trace.now every)) }
    ensures ending { IfOk result (λ ending. ending ≡ (spec.forecast trace.now every).ending) }
    ensures write_fault { IsErrOf result ForecastFault.WriteFault → HasRisen (K.faults sink.old) (K.faults sink.new) }
    ensures part { ¬ IsOk result → GainsPart (K.held sink.old) (K.held sink.new) (spec.foretold trace.now every) }
{
    match Teller::make(alloc, trace, every) {
        Ok(teller) => foretell(alloc, trace, every, teller, sink),
        Err(_) => Err(ForecastFault::NoMemory),
    }
}

// Makes moves until the run has ended, and tells what they do.
fn foretell<K: Sink>(
    alloc: Global,
    trace: &Trace,
    every: u64,
    mut teller: Teller,
    sink: &mut K,
) -> Result<Ending, ForecastFault>
    requires lawful { IsLawful trace.now }
    requires every { 1 ≤ every }
    requires telling { IsTelling trace.now every 0 (K.held sink.old) (K.held sink.old) teller }
    ensures told { OnOk result (K.held sink.new ≡ append_known (K.held sink.old) (spec.foretold trace.now every)) }
    ensures ending { IfOk result (λ ending. ending ≡ (spec.forecast trace.now every).ending) }
    ensures write_fault { IsErrOf result ForecastFault.WriteFault → HasRisen (K.faults sink.old) (K.faults sink.new) }
    ensures part { ¬ IsOk result → GainsPart (K.held sink.old) (K.held sink.new) (spec.foretold trace.now every) }
{
    for _move in 0..MOST_MOVES {
        if is_ended(&teller.machine) {
            return teller.finish(alloc, trace, every, sink);
        }
        teller.tell_move(alloc, trace, every, sink)?;
    }
    teller.finish(alloc, trace, every, sink)
}

impl Teller {
    // Makes the next move. Where the clock leaves the interval by it, the interval's row is told; else what is kept is counted in where
    // it is much.
    fn tell_move<K: Sink>(
        &mut self,
        alloc: Global,
        trace: &Trace,
        every: u64,
        sink: &mut K,
    ) -> Result<(), ForecastFault>
        requires lawful { IsLawful trace.now }
        requires every { 1 ≤ every }
        requires going { has_ended (seen self.old.machine) ≡ false }
        requires tells { Tells trace.now every (K.held sink.old) self.old }
        ensures told { OnOk result ((moves : ℕ) (start : Option (List ℕ)) → moves < spec.most_moves → IsTelling trace.now every moves start (K.held sink.old) self.old → IsTelling trace.now every (moves + 1) start (K.held sink.new) self.new) }
        ensures part { ¬ IsOk result → (moves : ℕ) (start : Option (List ℕ)) → moves < spec.most_moves → IsTelling trace.now every moves start (K.held sink.old) self.old → GainsPart start (K.held sink.new) (spec.foretold trace.now every) }
        ensures write_fault { IsErrOf result ForecastFault.WriteFault → HasRisen (K.faults sink.old) (K.faults sink.new) }
        ensures later { K.faults sink.old ≤ K.faults sink.new }
    {
        let before = self.machine.clock;
        self.move_on(trace)?;
        if has_left(every, before, self.machine.clock) {
            return self.leave(alloc, trace, before / every, sink);
        }
        if self.machine.steps.kept().len() < MOST_KEPT {
            return Ok(());
        }
        self.count_in(alloc, trace);
        Ok(())
    }

    // The clock has left the interval of this number: its row is told, where a step was made in it, and the next one begins.
    fn leave<K: Sink>(
        &mut self,
        alloc: Global,
        trace: &Trace,
        number: u64,
        sink: &mut K,
    ) -> Result<(), ForecastFault>
        requires lawful { IsLawful trace.now }
        requires leaves { (every : ℕ) × Leaves trace.now every number (K.held sink.old) self.old }
        ensures told { OnOk result ((every moves : ℕ) (start : Option (List ℕ)) → IsLeaving trace.now every moves number start (K.held sink.old) self.old → IsTelling trace.now every (moves + 1) start (K.held sink.new) self.new) }
        ensures part { ¬ IsOk result → (every moves : ℕ) (start : Option (List ℕ)) → IsLeaving trace.now every moves number start (K.held sink.old) self.old → GainsPart start (K.held sink.new) (spec.foretold trace.now every) }
        ensures write_fault { IsErrOf result ForecastFault.WriteFault → HasRisen (K.faults sink.old) (K.faults sink.new) }
        ensures later { K.faults sink.old ≤ K.faults sink.new }
    {
        self.count_in(alloc, trace);
        self.put_interval(alloc, number)?;
        self.begin_interval();
        if self.text.len() < PIECE {
            return Ok(());
        }
        self.send(sink)?;
        Ok(())
    }

    // The run is over: its last interval's row is told, and the last lines.
    fn finish<K: Sink>(
        &mut self,
        alloc: Global,
        trace: &Trace,
        every: u64,
        sink: &mut K,
    ) -> Result<Ending, ForecastFault>
        requires lawful { IsLawful trace.now }
        requires every { 1 ≤ every }
        requires tells { Tells trace.now every (K.held sink.old) self.old }
        ensures told { OnOk result ((moves : ℕ) (start : Option (List ℕ)) → IsTelling trace.now every moves start (K.held sink.old) self.old → IsOver moves (seen self.old.machine) → K.held sink.new ≡ append_known start (spec.foretold trace.now every)) }
        ensures ending { IfOk result (λ ending. (moves : ℕ) (start : Option (List ℕ)) → IsTelling trace.now every moves start (K.held sink.old) self.old → IsOver moves (seen self.old.machine) → ending ≡ (spec.forecast trace.now every).ending) }
        ensures part { ¬ IsOk result → (moves : ℕ) (start : Option (List ℕ)) → IsTelling trace.now every moves start (K.held sink.old) self.old → IsOver moves (seen self.old.machine) → GainsPart start (K.held sink.new) (spec.foretold trace.now every) }
        ensures write_fault { IsErrOf result ForecastFault.WriteFault → HasRisen (K.faults sink.old) (K.faults sink.new) }
        ensures later { K.faults sink.old ≤ K.faults sink.new }
    {
        let number = self.machine.clock / every;
        self.count_in(alloc, trace);
        self.put_interval(alloc, number)?;
        let ending = self.put_ending()?;
        self.send(sink)?;
        Ok(ending)
    }
}

// The clock has moved from an interval of so many ticks into another.
fn has_left(every: u64, before: u64, now: u64) -> bool
    requires { 1 ≤ every }
    ensures { result ≡ not (now / every == before / every) }
{
    before != now && now / every != before / every
}
