//! How the text of a journal is written.

ghost use Rattle.std.specs.Prelude.{◌≡◌, ◌≤◌, [], ◌++◌, OnOk, IsErrOf, flat_map};
ghost use Rattle.std.specs.Io.KnownBytes.{append_known};
ghost use Rattle.wbt_io.specs.Faults.{HasRisen};
ghost use Rattle.wbt_io.specs.Told.{GainsPart};
ghost use Rattle.wbt_journal.specs.Line.{line, line_text, lines_text};
ghost use Rattle.wbt_journal.specs.Lines.{cpu_lines};
ghost use Rattle.wbt_journal.specs.Pieces.{timer_text, left_text, strict_text, entry_text, cpu_text};
ghost use Rattle.wbt_journal.specs.Steps as steps;
ghost use Rattle.wbt_journal.specs.Text as spec;
ghost use Rattle.wbt_journal.specs.Way.{Puts, way};
ghost use Rattle.wbt_journal.specs.declared.word.Word.TheVariants as word;
ghost use Rattle.wbt_journal.specs.declared.text.PrintEnd.TheVariants.{NoMemory};

use crate::entry::{CheckEntry, CpuJournal, Entry, EstEntry};
use crate::field::length_field;
use crate::journal::{Journal, Left, StrictLine};
use crate::kept::KeptColumns;
use crate::out::Out;
use crate::timer::TimerEntry;
use crate::word::Word;
use std::alloc::{AllocError, Global};
use wbt_io::Sink;

/// Why the text of a journal wasn't written whole.
#[derive(Clone, Copy, Debug, PartialEq, Eq)]
pub enum PrintEnd {
    /// The sink failed.
    WriteFault,
    /// There was no memory, and nothing was written.
    NoMemory,
}

impl From<AllocError> for PrintEnd {
    ghost from_gives = { λ _ e. e ≡ NoMemory };

    fn from(_e: AllocError) -> PrintEnd {
        PrintEnd::NoMemory
    }
}

/// Writes the text of a journal, in pieces of at most 65536 bytes, and no more after the sink's first fault. All memory is
/// taken before the first byte is written: a piece, and a column with its text for each domain of which steps are told.
pub fn print<K: Sink>(alloc: Global, journal: &Journal, sink: &mut K) -> Result<(), PrintEnd>
    ensures ok { OnOk result (K.held sink.new ≡ append_known (K.held sink.old) (spec.journal_text journal.now)) }
    ensures write_fault { IsErrOf result PrintEnd.WriteFault → GainsPart (K.held sink.old) (K.held sink.new) (spec.journal_text journal.now) }
    ensures no_memory { IsErrOf result PrintEnd.NoMemory → sink.new ≡ sink.old }

    // The count of faults never falls, and a fault is answered only where it rose.
    ensures later { K.faults sink.old ≤ K.faults sink.new }
    ensures cause { IsErrOf result PrintEnd.WriteFault → HasRisen (K.faults sink.old) (K.faults sink.new) }
{
    let mut out = Out::make(alloc)?;
    let timer = journal.timer.as_slice();
    let mut columns = KeptColumns::first(alloc, timer, journal.bases.as_slice())?;
    out.journal(sink, journal, &mut columns);
    out.send(sink);
    if out.has_failed() {
        Err(PrintEnd::WriteFault)
    } else {
        Ok(())
    }
}

impl Out {
    // Puts the whole text.
    fn journal<K: Sink>(&mut self, sink: &mut K, journal: &Journal, columns: &mut KeptColumns)
        requires { columns.old ≡ steps.first_columns 0 journal.now.timer journal.now.bases }
        ensures { Puts (spec.journal_text journal.now) (way (K.held sink.old) (K.faults sink.old) self.old) (way (K.held sink.new) (K.faults sink.new) self.new) }
    {
        let cpus = journal.cpus.as_slice();
        let left = journal.left.as_slice();
        self.timer(sink, journal.timer.as_slice());
        self.cpus(sink, cpus);
        self.steps_part(
            sink,
            cpus.len(),
            journal.homes.as_slice(),
            columns,
            journal.steps.as_slice(),
        );
        self.left(sink, left);
        self.census(sink, left);
        self.totals(sink, cpus);
        self.strict(sink, journal.strict.as_slice());
        self.ending(sink, journal.ending);
    }

    fn timer<K: Sink>(&mut self, sink: &mut K, timer: &[TimerEntry])
        ensures { Puts (line_text (line word.Timer []) ++ flat_map timer_text timer.now) (way (K.held sink.old) (K.faults sink.old) self.old) (way (K.held sink.new) (K.faults sink.new) self.new) }
    {
        self.line(sink, Word::Timer, &[]);
        self.timer_entries(sink, timer);
    }

    fn timer_entries<K: Sink>(&mut self, sink: &mut K, timer: &[TimerEntry])
        ensures { Puts (flat_map timer_text timer.now) (way (K.held sink.old) (K.faults sink.old) self.old) (way (K.held sink.new) (K.faults sink.new) self.new) }
    {
        for entry in timer {
            self.timer_entry(sink, entry);
        }
    }

    fn left<K: Sink>(&mut self, sink: &mut K, left: &[Left])
        ensures { Puts (flat_map left_text left.now) (way (K.held sink.old) (K.faults sink.old) self.old) (way (K.held sink.new) (K.faults sink.new) self.new) }
    {
        for page in left {
            self.left_page(sink, page);
        }
    }

    fn strict<K: Sink>(&mut self, sink: &mut K, strict: &[StrictLine])
        ensures { Puts (flat_map strict_text strict.now) (way (K.held sink.old) (K.faults sink.old) self.old) (way (K.held sink.new) (K.faults sink.new) self.new) }
    {
        for context in strict {
            self.strict_line(sink, context);
        }
    }

    fn cpus<K: Sink>(&mut self, sink: &mut K, cpus: &[CpuJournal])
        ensures { Puts (lines_text (cpu_lines 0 cpus.now)) (way (K.held sink.old) (K.faults sink.old) self.old) (way (K.held sink.new) (K.faults sink.new) self.new) }
    {
        for (cpu, part) in cpus.iter().enumerate() {
            self.cpu(sink, cpu, part);
        }
    }

    fn cpu<K: Sink>(&mut self, sink: &mut K, cpu: usize, part: &CpuJournal)
        ensures { Puts (cpu_text cpu part.now.checks part.now.estimates part.now.entries) (way (K.held sink.old) (K.faults sink.old) self.old) (way (K.held sink.new) (K.faults sink.new) self.new) }
    {
        self.part(
            sink,
            cpu,
            part.checks.as_slice(),
            part.estimates.as_slice(),
            part.entries.as_slice(),
        );
    }

    fn part<K: Sink>(
        &mut self,
        sink: &mut K,
        cpu: usize,
        checks: &[CheckEntry],
        estimates: &[EstEntry],
        entries: &[Entry],
    )
        ensures { Puts (cpu_text cpu checks.now estimates.now entries.now) (way (K.held sink.old) (K.faults sink.old) self.old) (way (K.held sink.new) (K.faults sink.new) self.new) }
    {
        self.line(sink, Word::Cpu, &[length_field(cpu)]);
        self.entries(sink, checks, estimates, entries);
    }

    fn entries<K: Sink>(
        &mut self,
        sink: &mut K,
        checks: &[CheckEntry],
        estimates: &[EstEntry],
        entries: &[Entry],
    )
        ensures { Puts (flat_map (entry_text checks.now estimates.now) entries.now) (way (K.held sink.old) (K.faults sink.old) self.old) (way (K.held sink.new) (K.faults sink.new) self.new) }
    {
        for entry in entries {
            self.entry(sink, checks, estimates, entry);
        }
    }
}
