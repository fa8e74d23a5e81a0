//! What a bulk run writes: one line.

ghost use Rattle.std.specs.Prelude.{◌≡◌, IfOk, OnOk, IsErrOf, string_bytes};
ghost use Rattle.std.specs.Io.KnownBytes.{append_known};
ghost use Rattle.wbt_io.specs.Faults.{HasRisen};
ghost use Rattle.wbt_io.specs.Told.{GainsPart};
ghost use Rattle.wbt_top_plain.specs.Bulk.{bulk_line as bulk_line_value, bulk_text as bulk_text_value};

use std::alloc::{AllocError, Global};
use std::fmt::Write;
use wbt_io::{Sink, write_all};
use wbt_journal::{Journal, PrintEnd, done_of, fresh_of};

/// Writes `bulk N dirtied A cleaned B left C`: of the journal of a run of N pages the fresh writes, the completions, and the pages left
/// dirty or under writeback.
pub fn write_bulk<K: Sink>(
    alloc: Global,
    n: u64,
    journal: &Journal,
    sink: &mut K,
) -> Result<(), PrintEnd>
    ensures ok { OnOk result (K.held sink.new ≡ append_known (K.held sink.old) (bulk_text_value n journal.now)) }
    ensures write_fault { IsErrOf result PrintEnd.WriteFault → GainsPart (K.held sink.old) (K.held sink.new) (bulk_text_value n journal.now) }
    ensures no_memory { IsErrOf result PrintEnd.NoMemory → sink.new ≡ sink.old }
    ensures cause { IsErrOf result PrintEnd.WriteFault → HasRisen (K.faults sink.old) (K.faults sink.new) }
{
    let Ok(text) = bulk_text(alloc, n, journal) else {
        return Err(PrintEnd::NoMemory);
    };
    match write_all(sink, text.as_bytes()) {
        Ok(()) => Ok(()),
        Err(_) => Err(PrintEnd::WriteFault),
    }
}

/// The line of these numbers.
pub fn bulk_line(
    alloc: Global,
    n: u64,
    dirtied: u128,
    cleaned: u128,
    left: usize,
) -> Result<String, AllocError>
    ensures { IfOk result (λ text. string_bytes text ≡ bulk_line_value n dirtied cleaned left) }
{
    let mut text = String::new(alloc);
    writeln!(
        text,
        "bulk {n} dirtied {dirtied} cleaned {cleaned} left {left}"
    )?;
    Ok(text)
}

fn bulk_text(alloc: Global, n: u64, journal: &Journal) -> Result<String, AllocError>
    ensures { IfOk result (λ text. string_bytes text ≡ bulk_text_value n journal.now) }
{
    let dirtied = fresh_of(journal.cpus.as_slice());
    let cleaned = done_of(journal.cpus.as_slice());
    bulk_line(alloc, n, dirtied, cleaned, journal.left.as_slice().len())
}
