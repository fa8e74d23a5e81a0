//! The sums at the end of a journal's text.

ghost use Rattle.std.specs.Prelude.{◌≡◌, ◌^◌, ◌<◌, count_by};
ghost use Rattle.wbt_journal.specs.Text as spec;
ghost use Rattle.wbt_journal.specs.Line.{line_text};
ghost use Rattle.wbt_journal.specs.Way.{Puts, way};

use crate::entry::{CpuJournal, Entry};
use crate::field::{Field, length_field, wide};
use crate::journal::Left;
use crate::out::Out;
use crate::word::Word;
use wbt_book::{is_dirty, is_writeback};
use wbt_io::Sink;

impl Out {
    /// Puts how many pages are left dirty, and how many under writeback.
    pub fn census<K: Sink>(&mut self, sink: &mut K, left: &[Left])
        ensures { Puts (line_text (spec.census_line left.now)) (way (K.held sink.old) (K.faults sink.old) self.old) (way (K.held sink.new) (K.faults sink.new) self.new) }
    {
        let fields = census_fields(left);
        self.line(sink, Word::Census, &fields);
    }

    /// Puts how many writes were fresh, and how many pages were done.
    pub fn totals<K: Sink>(&mut self, sink: &mut K, cpus: &[CpuJournal])
        ensures { Puts (line_text (spec.totals_line cpus.now)) (way (K.held sink.old) (K.faults sink.old) self.old) (way (K.held sink.new) (K.faults sink.new) self.new) }
    {
        let fields = totals_fields(cpus);
        self.line(sink, Word::Totals, &fields);
    }
}

fn census_fields(left: &[Left]) -> [Field; 2]
    ensures { result ≡ (spec.census_line left.now).fields }
{
    [
        length_field(dirty_of(left)),
        length_field(writeback_of(left)),
    ]
}

/// How many pages are left dirty.
pub fn dirty_of(left: &[Left]) -> usize
    ensures { result ≡ count_by spec.is_left_dirty left.now }
{
    left.iter().filter(|l| is_left_dirty(l)).count()
}

/// How many pages are left under writeback.
pub fn writeback_of(left: &[Left]) -> usize
    ensures { result ≡ count_by spec.is_left_writeback left.now }
{
    left.iter().filter(|l| is_left_writeback(l)).count()
}

fn totals_fields(cpus: &[CpuJournal]) -> [Field; 2]
    ensures { result ≡ (spec.totals_line cpus.now).fields }
{
    [wide(fresh_of(cpus)), wide(done_of(cpus))]
}

fn is_left_dirty(left: &Left) -> bool
    ensures { result ≡ spec.is_left_dirty left.now }
{
    is_dirty(left.word)
}

fn is_left_writeback(left: &Left) -> bool
    ensures { result ≡ spec.is_left_writeback left.now }
{
    is_writeback(left.word)
}

fn is_fresh(entry: &Entry) -> bool
    ensures { result ≡ spec.is_fresh entry.entry.now }
{
    matches!(entry, Entry::Write { fresh: true, .. })
}

fn is_done(entry: &Entry) -> bool
    ensures { result ≡ spec.is_done entry.entry.now }
{
    matches!(entry, Entry::Done { .. })
}

fn fresh_in(entries: &[Entry]) -> usize
    ensures { result ≡ count_by spec.is_fresh entries.now }
{
    entries.iter().filter(|e| is_fresh(e)).count()
}

fn done_in(entries: &[Entry]) -> usize
    ensures { result ≡ count_by spec.is_done entries.now }
{
    entries.iter().filter(|e| is_done(e)).count()
}

/// How many writes the parts tell that dirtied their page.
pub fn fresh_of(cpus: &[CpuJournal]) -> u128
    ensures value { result ≡ spec.fresh_of cpus.now }
    ensures small { result < 2 ^ 127 }
{
    let mut total = 0u128;
    for part in cpus {
        total += fresh_in(part.entries.as_slice()) as u128;
    }
    total
}

/// How many completions they tell.
pub fn done_of(cpus: &[CpuJournal]) -> u128
    ensures value { result ≡ spec.done_of cpus.now }
    ensures small { result < 2 ^ 127 }
{
    let mut total = 0u128;
    for part in cpus {
        total += done_in(part.entries.as_slice()) as u128;
    }
    total
}
