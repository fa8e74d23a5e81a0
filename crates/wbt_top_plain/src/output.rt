//! Writing what a command asks for of a trace.

ghost use Rattle.std.specs.Prelude.{◌≡◌, ◌⊎◌, true, false, IsOk, OnOk, IsErrOf};
ghost use Rattle.std.specs.Io.KnownBytes.{append_known};
ghost use Rattle.wbt_io.specs.Faults.{HasRisen};
ghost use Rattle.wbt_io.specs.Told.{GainsPart};
ghost use Rattle.wbt_trace.specs.Lawful.{IsLawful};
ghost use Rattle.wbt_trace_text.specs.Writing.{trace_text};
ghost use Rattle.wbt_forecast_run.specs.Run.{foretold};
ghost use Rattle.wbt_top_plain.specs.Forecast.{IsEvery};
ghost use Rattle.wbt_top_plain.specs.Foretold.{IsForecastRight, IsForecastSpent};
ghost use Rattle.wbt_top_plain.specs.Top.{IsControlled, IsSpent, replay_text};

use crate::causes::{OutputEnd, of_forecast, of_print};
use std::alloc::Global;
use wbt_forecast::forecast;
use wbt_forecast_run::laws::{as_replayed, rows_are_bounded, runs_end};
use wbt_io::{Sink, write_all};
use wbt_journal::print;
use wbt_replay::replay;
use wbt_trace::Trace;
use wbt_trace_text::write_trace;

/// Writes the text of the journal of the trace's ordered run. That the run is spent is told after its text was written, and
/// before that the sink failed.
pub fn write_replay<K: Sink>(alloc: Global, trace: &Trace, sink: &mut K) -> Result<(), OutputEnd>
    requires { IsLawful trace.now }
    ensures good { OnOk result (K.held sink.new ≡ append_known (K.held sink.old) (replay_text trace.now)) }
    ensures controlled { OnOk result (IsControlled trace.now × (¬ IsSpent trace.now)) }
    ensures write_fault { IsErrOf result OutputEnd.WriteFault → HasRisen (K.faults sink.old) (K.faults sink.new) }
    ensures part { IsErrOf result OutputEnd.WriteFault → GainsPart (K.held sink.old) (K.held sink.new) (replay_text trace.now) }
    ensures part_controlled { IsErrOf result OutputEnd.WriteFault → IsControlled trace.now × (¬ IsSpent trace.now) }
    ensures spent_controlled { IsErrOf result OutputEnd.Spent → IsControlled trace.now × IsSpent trace.now }
    ensures spent { IsErrOf result OutputEnd.Spent → (K.held sink.new ≡ append_known (K.held sink.old) (replay_text trace.now)) ⊎ (HasRisen (K.faults sink.old) (K.faults sink.new) × GainsPart (K.held sink.old) (K.held sink.new) (replay_text trace.now)) }
    ensures untouched { ¬ IsOk result → ¬ IsErrOf result OutputEnd.WriteFault → ¬ IsErrOf result OutputEnd.Spent → K.held sink.new ≡ K.held sink.old }
{
    let Ok(journal) = replay(alloc, trace) else {
        return Err(OutputEnd::NoMemory);
    };
    of_print(print(alloc, &journal, sink), journal.ending)
}

/// Writes the forecast of the trace by intervals of so many ticks, while it is made. A fault of the sink, and want of memory, are told at
/// once; that the run is spent is told after the whole text was written.
pub fn write_forecast<K: Sink>(
    alloc: Global,
    trace: &Trace,
    every: u64,
    sink: &mut K,
) -> Result<(), OutputEnd>
    requires lawful { IsLawful trace.now }
    requires ticks { IsEvery every }
    ensures good { OnOk result (K.held sink.new ≡ append_known (K.held sink.old) (foretold trace.now every)) }
    ensures controlled { IsForecastRight trace.now every }
    ensures unspent { OnOk result (¬ IsForecastSpent trace.now every) }
    ensures write_fault { IsErrOf result OutputEnd.WriteFault → HasRisen (K.faults sink.old) (K.faults sink.new) }
    ensures part { IsErrOf result OutputEnd.WriteFault ⊎ IsErrOf result OutputEnd.NoMemory → GainsPart (K.held sink.old) (K.held sink.new) (foretold trace.now every) }
    ensures spent { IsErrOf result OutputEnd.Spent → IsForecastSpent trace.now every }
    ensures spent_whole { IsErrOf result OutputEnd.Spent → K.held sink.new ≡ append_known (K.held sink.old) (foretold trace.now every) }
{
    runs_end();
    rows_are_bounded();
    as_replayed();
    of_forecast(forecast(alloc, trace, every, sink))
}

/// Writes the trace in its normal form.
pub fn write_check<K: Sink>(alloc: Global, trace: &Trace, sink: &mut K) -> Result<(), OutputEnd>
    requires { IsLawful trace.now }
    ensures good { OnOk result (K.held sink.new ≡ append_known (K.held sink.old) (trace_text trace.now)) }
    ensures ends { ¬ IsErrOf result OutputEnd.Spent }
    ensures write_fault { IsErrOf result OutputEnd.WriteFault → HasRisen (K.faults sink.old) (K.faults sink.new) }
    ensures part { IsErrOf result OutputEnd.WriteFault → GainsPart (K.held sink.old) (K.held sink.new) (trace_text trace.now) }
    ensures untouched { ¬ IsOk result → ¬ IsErrOf result OutputEnd.WriteFault → K.held sink.new ≡ K.held sink.old }
{
    let Ok(text) = write_trace(alloc, trace) else {
        return Err(OutputEnd::NoMemory);
    };
    match write_all(sink, text.as_slice()) {
        Ok(()) => Ok(()),
        Err(_) => Err(OutputEnd::WriteFault),
    }
}
