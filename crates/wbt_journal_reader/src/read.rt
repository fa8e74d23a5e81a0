//! Reading a journal.

ghost use Rattle.std.specs.Prelude.{◌≡◌, ◌⊎◌, ℕ, Result, Ok, Err, IfOk, IfSome, IfNone};
ghost use Rattle.wbt_text.specs.Reading.{HasAnswer};
ghost use Rattle.wbt_journal_reader.specs.Rebuilding.{start};
ghost use Rattle.wbt_journal_reader.specs.Reading.{journals};
ghost use Rattle.wbt_journal_reader.specs.Rows.{IsRow};
ghost use Rattle.wbt_journal_reader.specs.FirstBad.{IsFirstBad};
ghost use Rattle.wbt_journal.specs.PlainJournal.{IsPlainJournal};
ghost use Rattle.wbt_journal.specs.Text.{journal_text};
ghost use Rattle.wbt_journal.specs.declared.journal.Journal.{Journal as JournalValue};
ghost use Rattle.wbt_journal_reader.specs.declared.builder.Builder.{Builder as BuilderValue};
ghost use Rattle.wbt_journal_reader.specs.declared.read.JournalFault.{JournalFault as FaultValue};
ghost use Rattle.wbt_journal_reader.specs.declared.read.JournalFault.TheVariants as fault;
ghost use Rattle.wbt_journal_reader.specs.declared.row.Row.{Row as RowValue};

use crate::accept::AcceptError;
use crate::builder::{Builder, Place};
use crate::field::fields_of;
use crate::row::{Row, row_from};
use std::alloc::Global;
use wbt_journal::Journal;
use wbt_num::NoMemory;
use wbt_text::{Reader, Verdict, read_lines};

/// Why a text is no plain journal's.
#[derive(Clone, Copy, Debug, PartialEq, Eq)]
pub enum JournalFault {
    /// No plain journal's text begins with the lines up to and including this one, numbered from 1. Where a text ends too early, it is
    /// the line after its last.
    BadLine { line: u64 },
    /// There was no memory for the journal.
    NoMemory,
}

// What a line says, given without its line feed.
fn row_in(alloc: Global, text: &[u8]) -> Result<Option<Row>, NoMemory>
    ensures found { IfOk result (λ read. IfSome read (λ row. IsRow text.now row)) }
    ensures none { IfOk result (λ read. IfNone read ((row : RowValue) → IsRow text.now row → ⊥)) }
{
    match fields_of(alloc, text)? {
        None => Ok(None),
        Some(fields) => Ok(row_from(fields.as_slice())),
    }
}

impl Reader for Builder {
    type Refusal = ();

    type Answer = Result<Journal, JournalFault>;

    ghost State = { BuilderValue };

    ghost Line = { RowValue };

    ghost format = { journals };

    ghost seen = { λ builder. builder };

    fn take(&mut self, alloc: Global, line: &[u8]) -> Result<Verdict<()>, NoMemory> {
        match row_in(alloc, line)? {
            None => Ok(Verdict::NoLine),
            Some(row) => match self.accept(alloc, row) {
                Ok(()) => Ok(Verdict::Taken),
                Err(AcceptError::Refused) => Ok(Verdict::Refused(())),
                Err(AcceptError::NoMemory) => Err(NoMemory),
            },
        }
    }

    fn ended(self, count: u64) -> Result<Journal, JournalFault> {
        match self.place {
            Place::End => Ok(self.journal),
            _ => Err(JournalFault::BadLine { line: count + 1 }),
        }
    }

    fn unread(number: u64) -> Result<Journal, JournalFault> {
        Err(JournalFault::BadLine { line: number })
    }

    fn refused(number: u64, _why: ()) -> Result<Journal, JournalFault> {
        Err(JournalFault::BadLine { line: number })
    }
}

// What the text tells, unless memory ran out.
fn read(alloc: Global, text: &[u8]) -> Result<Result<Journal, JournalFault>, NoMemory>
    ensures told { IfOk result (λ answer. HasAnswer journals start text.now answer) }
    ensures exact { IfOk result (λ read. (answer : Result JournalValue FaultValue) → HasAnswer journals start text.now answer → read ≡ answer) }
{
    read_lines(alloc, Builder::new(alloc), text)
}

/// The journal of which this is the text, if it is a plain one's: without steps and lines of strict devices, with no mark in a decision,
/// and with the pages that are left in order.
///
/// `BadLine` names the first line that can't stand there. `NoMemory` may come at any text.
pub fn read_journal(alloc: Global, text: &[u8]) -> Result<Journal, JournalFault>
    // What is read is a plain journal, and this is its text.
    ensures plain { IfOk result IsPlainJournal }
    ensures text { IfOk result (λ journal. journal_text journal ≡ text.now) }
    // The text of a plain journal is read, unless memory runs out.
    ensures exact { (j : JournalValue) → IsPlainJournal j → journal_text j ≡ text.now → (result ≡ Ok j) ⊎ (result ≡ Err fault.NoMemory) }
    // The line that is named is the first with which no plain journal's text begins.
    ensures first { (line : ℕ) → result ≡ Err (fault.BadLine line) → IsFirstBad line text.now }
{
    match read(alloc, text) {
        Err(_) => Err(JournalFault::NoMemory),
        Ok(answer) => answer,
    }
}
