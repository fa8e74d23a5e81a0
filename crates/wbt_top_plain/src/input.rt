//! Reading a text from a source, and the trace that it tells.

ghost use Rattle.std.specs.Prelude.{◌≡◌, ◌≢◌, ◌≤◌, ◌⊎◌, IfOk, OnOk, IsErrOf, IfSome, length};
ghost use Rattle.std.specs.Io.KnownBytes.{IsAtEnd};
ghost use Rattle.wbt_io.specs.Faults.{HasRisen};
ghost use Rattle.wbt_trace_text.specs.declared.fault.TraceFault.{TraceFault as FaultValue};
ghost use Rattle.wbt_top_plain.specs.Top.{IsRead, IsRefused, IsLong, IfLong};

use crate::causes::InputEnd;
use std::alloc::Global;
use wbt_io::{ReadEnd, Source, read_all};
use wbt_num::MOST_INPUT;
use wbt_trace::Trace;
use wbt_trace_text::{TraceFault, read_trace};

/// Reads a trace from a source, to the end of its input, or says why there is none.
pub fn read_input<S: Source>(alloc: Global, source: &mut S) -> Result<Trace, InputEnd>
    ensures found { IfOk result (λ trace. IsRead trace (S.left source.old)) }
    ensures end { OnOk result (IsAtEnd (S.left source.new)) }
    ensures read_fault { IsErrOf result (InputEnd.Unread ReadEnd.ReadFault) → HasRisen (S.faults source.old) (S.faults source.new) }
    ensures too_long { IsErrOf result (InputEnd.Unread ReadEnd.TooLong) → IsLong (S.left source.old) }
    ensures each_too_long { ¬ HasRisen (S.faults source.old) (S.faults source.new) → IfLong (S.left source.old) (IsErrOf result (InputEnd.Unread ReadEnd.TooLong) ⊎ IsErrOf result (InputEnd.Unread ReadEnd.NoMemory)) }
    ensures refused { (fault : FaultValue) → IsErrOf result (InputEnd.Refused fault) → fault ≢ TraceFault.NoMemory → IsRefused (S.left source.old) fault }
    ensures refused_end { (fault : FaultValue) → IsErrOf result (InputEnd.Refused fault) → IsAtEnd (S.left source.new) }
{
    match read_text(alloc, source) {
        Err(end) => Err(InputEnd::Unread(end)),
        Ok(text) => match read_trace(alloc, text.as_slice()) {
            Ok(trace) => Ok(trace),
            Err(fault) => Err(InputEnd::Refused(fault)),
        },
    }
}

/// Reads a source to its end, or says why that isn't done.
pub fn read_text<S: Source>(alloc: Global, source: &mut S) -> Result<Vec<u8>, ReadEnd>
    ensures all { IfOk result (λ text. IfSome (S.left source.old) (λ input. text.items ≡ input)) }
    ensures within { IfOk result (λ text. length text.items ≤ MOST_INPUT) }
    ensures end { OnOk result (IsAtEnd (S.left source.new)) }
    ensures read_fault { IsErrOf result ReadEnd.ReadFault → HasRisen (S.faults source.old) (S.faults source.new) }
    ensures too_long { IsErrOf result ReadEnd.TooLong → IsLong (S.left source.old) }
    ensures each_too_long { ¬ HasRisen (S.faults source.old) (S.faults source.new) → IfLong (S.left source.old) (IsErrOf result ReadEnd.TooLong ⊎ IsErrOf result ReadEnd.NoMemory) }
{
    read_all(alloc, source, MOST_INPUT as u64)
}
