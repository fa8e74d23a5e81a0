//! Reading a trace.

ghost use Rattle.std.specs.Prelude.{◌≡◌, ◌⊎◌, Result, IfOk};
ghost use Rattle.wbt_trace.specs.Lawful.{IsLawful};
ghost use Rattle.wbt_text.specs.Reading.{EachHasAnswer, EachHasOne};
ghost use Rattle.wbt_trace_text.specs.Reading.{traces, Tells, IsAnswer};
ghost use Rattle.wbt_trace_text.specs.Seen.{seen};
ghost use Rattle.wbt_trace.specs.Sofar.{Sofar, start};
ghost use Rattle.wbt_trace_text.specs.declared.fault.TraceFault.{TraceFault as FaultValue};
ghost use Rattle.wbt_trace_text.specs.declared.line.Line.{Line as LineValue};
ghost use Rattle.wbt_trace.specs.declared.trace.Trace.{Trace as TraceValue};

use crate::builder::Builder;
use crate::fault::{AcceptError, Refusal, TraceFault};
use crate::line::line_of;
use crate::whole::fault_at;
use std::alloc::Global;
use wbt_num::NoMemory;
use wbt_text::{Reader, Verdict, read_lines};
use wbt_trace::Trace;

/// Each text tells one trace, or has one first fault.
pub fn text_has_one_answer()
    ensures some { EachHasAnswer traces start }
    ensures one { EachHasOne traces start }
{}

impl Reader for Builder {
    type Refusal = Refusal;

    type Answer = Result<Trace, TraceFault>;

    ghost State = { Sofar };

    ghost Line = { LineValue };

    ghost format = { traces };

    ghost seen = { seen };

    fn take(&mut self, alloc: Global, line: &[u8]) -> Result<Verdict<Refusal>, NoMemory> {
        match line_of(alloc, line)? {
            None => Ok(Verdict::NoLine),
            Some(line) => match self.accept(&line) {
                Ok(()) => Ok(Verdict::Taken),
                Err(AcceptError::Refused(refusal)) => Ok(Verdict::Refused(refusal)),
                Err(AcceptError::NoMemory) => Err(NoMemory),
            },
        }
    }

    fn ended(self, _count: u64) -> Result<Trace, TraceFault> {
        self.finish()
    }

    fn unread(number: u64) -> Result<Trace, TraceFault> {
        Err(TraceFault::BadLine { line: number })
    }

    fn refused(number: u64, why: Refusal) -> Result<Trace, TraceFault> {
        Err(fault_at(number, why))
    }
}

fn read(alloc: Global, text: &[u8]) -> Result<Trace, TraceFault>
    ensures { Tells text.now result }
{
    let Ok(builder) = Builder::new(alloc) else {
        return Err(TraceFault::NoMemory);
    };
    match read_lines(alloc, builder, text) {
        Err(_) => Err(TraceFault::NoMemory),
        Ok(answer) => answer,
    }
}

/// The trace that a text tells, or the text's first fault.
///
/// The first faulty line decides, and in it the lowest fault, in the order of `TraceFault`. `Missing` comes only where no
/// line is faulty. `NoMemory` may come at any text.
pub fn read_trace(alloc: Global, text: &[u8]) -> Result<Trace, TraceFault>
    // What is read is what the text tells, unless memory ran out.
    ensures told { Tells text.now result }
    // What the text tells is read, unless memory ran out.
    ensures exact { (answer : Result TraceValue FaultValue) → IsAnswer text.now answer → (result ≡ Err TraceFault.NoMemory) ⊎ (result ≡ answer) }
    // Each trace that is read is lawful.
    ensures lawful { IfOk result (λ trace. IsLawful trace) }
{
    read(alloc, text)
}
