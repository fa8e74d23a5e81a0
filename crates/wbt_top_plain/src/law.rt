//! Reading a law text from a source, and writing its decision.

ghost use Rattle.std.specs.Prelude.{◌≡◌, ◌≢◌, ◌⊎◌, IfOk, IsOk, OnOk, IsErrOf};
ghost use Rattle.std.specs.Io.KnownBytes.{append_known, IsAtEnd};
ghost use Rattle.wbt_io.specs.Faults.{HasRisen};
ghost use Rattle.wbt_io.specs.Told.{GainsPart};
ghost use Rattle.wbt_law.specs.Law.{IsDecidable};
ghost use Rattle.wbt_law.specs.Text.{law_text as law_text_value};
ghost use Rattle.wbt_trace_text.specs.declared.fault.TraceFault.{TraceFault as FaultValue};
ghost use Rattle.wbt_top_plain.specs.Top.{IsLawRead, IsLawRefused, IsLong, IfLong};

use crate::causes::{InputEnd, OutputEnd};
use crate::input::read_text;
use std::alloc::Global;
use wbt_io::{ReadEnd, Sink, Source, write_all};
use wbt_law::{LawInput, law_text, read_law};
use wbt_trace_text::TraceFault;

/// Reads a law text from a source, to the end of its input, or says why there is none.
pub fn read_law_input<S: Source>(alloc: Global, source: &mut S) -> Result<LawInput, InputEnd>
    ensures found { IfOk result (λ law. IsLawRead law (S.left source.old)) }
    ensures end { OnOk result (IsAtEnd (S.left source.new)) }
    ensures read_fault { IsErrOf result (InputEnd.Unread ReadEnd.ReadFault) → HasRisen (S.faults source.old) (S.faults source.new) }
    ensures too_long { IsErrOf result (InputEnd.Unread ReadEnd.TooLong) → IsLong (S.left source.old) }
    ensures each_too_long { ¬ HasRisen (S.faults source.old) (S.faults source.new) → IfLong (S.left source.old) (IsErrOf result (InputEnd.Unread ReadEnd.TooLong) ⊎ IsErrOf result (InputEnd.Unread ReadEnd.NoMemory)) }
    ensures refused { (fault : FaultValue) → IsErrOf result (InputEnd.Refused fault) → fault ≢ TraceFault.NoMemory → IsLawRefused (S.left source.old) fault }
    ensures refused_end { (fault : FaultValue) → IsErrOf result (InputEnd.Refused fault) → IsAtEnd (S.left source.new) }
{
    match read_text(alloc, source) {
        Err(end) => Err(InputEnd::Unread(end)),
        Ok(text) => match read_law(alloc, text.as_slice()) {
            Ok(law) => Ok(law),
            Err(fault) => Err(InputEnd::Refused(fault)),
        },
    }
}

/// Writes the position ratios and the decision of a check.
pub fn write_law<K: Sink>(alloc: Global, law: &LawInput, sink: &mut K) -> Result<(), OutputEnd>
    requires { IsDecidable law.now }
    ensures good { OnOk result (K.held sink.new ≡ append_known (K.held sink.old) (law_text_value law.entry.now)) }
    ensures ends { ¬ IsErrOf result OutputEnd.Spent }
    ensures write_fault { IsErrOf result OutputEnd.WriteFault → HasRisen (K.faults sink.old) (K.faults sink.new) }
    ensures part { IsErrOf result OutputEnd.WriteFault → GainsPart (K.held sink.old) (K.held sink.new) (law_text_value law.entry.now) }
    ensures untouched { ¬ IsOk result → ¬ IsErrOf result OutputEnd.WriteFault → K.held sink.new ≡ K.held sink.old }
{
    let Ok(text) = law_text(alloc, law) else {
        return Err(OutputEnd::NoMemory);
    };
    match write_all(sink, text.as_bytes()) {
        Ok(()) => Ok(()),
        Err(_) => Err(OutputEnd::WriteFault),
    }
}
