//! Reading a law text.

ghost use Rattle.std.specs.Prelude.{◌≡◌, ◌⊎◌, ℕ, List, Result, IfOk};
ghost use Rattle.wbt_trace_text.specs.declared.fault.TraceFault.{TraceFault as FaultValue};
ghost use Rattle.wbt_text.specs.Reading.{EachHasAnswer, EachHasOne};
ghost use Rattle.wbt_law.specs.Draft.{start};
ghost use Rattle.wbt_law.specs.Law.{IsDecidable};
ghost use Rattle.wbt_law.specs.Reading.{laws, IsAnswer, Tells, fault_at as fault_value};
ghost use Rattle.wbt_law.specs.declared.input.Draft.{Draft as DraftValue};
ghost use Rattle.wbt_law.specs.declared.input.LawInput.{LawInput as LawValue};

use crate::accept::{Refusal, accept};
use crate::input::{Draft, LawInput, blank};
use crate::place::may_end;
use crate::row::row;
use std::alloc::Global;
use wbt_num::NoMemory;
use wbt_text::{Reader, Verdict, read_lines};
use wbt_trace_text::TraceFault;

/// Each text tells what one decision is made from, or has one first fault.
pub fn law_has_one_answer()
    ensures some { EachHasAnswer laws start }
    ensures one { EachHasOne laws start }
{}

fn fault_at(line: u64, refusal: Refusal) -> TraceFault
    ensures { result ≡ fault_value line refusal }
{
    match refusal {
        Refusal::BadLine => TraceFault::BadLine { line },
        Refusal::OutOfRange => TraceFault::OutOfRange { line },
    }
}

impl Reader for Draft {
    type Refusal = Refusal;

    type Answer = Result<LawInput, TraceFault>;

    ghost State = { DraftValue };

    ghost Line = { List ℕ };

    ghost format = { laws };

    ghost seen = { λ draft. draft };

    fn take(&mut self, alloc: Global, line: &[u8]) -> Result<Verdict<Refusal>, NoMemory> {
        match row(alloc, self.place, line)? {
            None => Ok(Verdict::NoLine),
            Some(numbers) => match accept(*self, numbers.as_slice()) {
                Err(refusal) => Ok(Verdict::Refused(refusal)),
                Ok(longer) => {
                    *self = longer;
                    Ok(Verdict::Taken)
                }
            },
        }
    }

    fn ended(self, count: u64) -> Result<LawInput, TraceFault> {
        if may_end(self.place) {
            Ok(self.law)
        } else {
            Err(TraceFault::BadLine { line: count + 1 })
        }
    }

    fn unread(number: u64) -> Result<LawInput, TraceFault> {
        Err(TraceFault::BadLine { line: number })
    }

    fn refused(number: u64, why: Refusal) -> Result<LawInput, TraceFault> {
        Err(fault_at(number, why))
    }
}

fn read(alloc: Global, text: &[u8]) -> Result<LawInput, TraceFault>
    ensures { Tells text.now result }
{
    match read_lines(alloc, blank(), text) {
        Err(_) => Err(TraceFault::NoMemory),
        Ok(answer) => answer,
    }
}

/// What a law text tells, or the text's first fault: `BadLine` for a line that doesn't stand in its place, is misspelled,
/// or is missing where the text ends, `OutOfRange` for a line with a number out of its range, `NoMemory` where memory ran
/// out.
pub fn read_law(alloc: Global, text: &[u8]) -> Result<LawInput, TraceFault>
    // What is read is what the text tells, unless memory ran out.
    ensures told { Tells text.now result }
    // What the text tells is read, unless memory ran out.
    ensures exact { (answer : Result LawValue FaultValue) → IsAnswer text.now answer → (result ≡ Err TraceFault.NoMemory) ⊎ (result ≡ answer) }
    // A decision can be made of whatever is read.
    ensures fits { IfOk result (λ law. IsDecidable law) }
{
    read(alloc, text)
}
