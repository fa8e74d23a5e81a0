//! What a line of a journal says.

ghost use Rattle.std.specs.Prelude.{◌≡◌};
ghost use Rattle.wbt_journal.specs.declared.word.Word.TheVariants as word;
ghost use Rattle.wbt_journal_reader.specs.RowOf as spec;

use crate::values::{
    absorbed_of, big_of, bits_of, counter_of, ending_of, fresh_of, kind_of, signed_of, small_of,
};
use wbt_counter::{Count, Fold};
use wbt_estimate::Estimate;
use wbt_flex::Fraction;
use wbt_journal::{DomainLine, Ending, Entry, EstEntry, Field, Left, TimerEntry, Word};
use wbt_num::Limits;
use wbt_pause::{Decision, Task};

/// What the last line of a check says.
#[derive(Clone, Copy, Debug, PartialEq, Eq)]
pub struct Decided {
    pub task: u32,
    pub context: u32,
    pub now: u64,
    pub estimate: u64,
    pub decision: Decision,
}

/// What a line says.
#[derive(Clone, Copy, Debug, PartialEq, Eq)]
pub enum Row {
    /// The timer's part begins.
    Timer,
    /// The timer did this.
    Timed(TimerEntry),
    /// The part of the CPU of this number begins.
    Cpu(u64),
    /// The CPU did this, which is neither a check nor an estimate.
    Entry(Entry),
    /// The CPU published this estimate.
    Estimate(EstEntry),
    /// A check read this of a domain.
    Read(DomainLine),
    /// It read this count of a context.
    Count { context: u32, count: Count },
    /// It decided this.
    Check(Decided),
    /// This page is left.
    Left(Left),
    /// So many pages are left dirty, and so many under writeback.
    Census { dirty: u64, writeback: u64 },
    /// So many writes were fresh, and so many pages were done.
    Totals { fresh: u64, done: u64 },
    /// The run ended so.
    End(Ending),
}

fn timer(fields: &[Field]) -> Option<Row>
    ensures { result ≡ spec.row_of word.Timer fields.now }
{
    let [] = fields else {
        return None;
    };
    Some(Row::Timer)
}

fn limits(fields: &[Field]) -> Option<Row>
    ensures { result ≡ spec.row_of word.Limits fields.now }
{
    let [domain, now, thresh, bg, hard] = fields else {
        return None;
    };
    Some(Row::Timed(TimerEntry::Limits {
        domain: small_of(*domain)?,
        now: big_of(*now)?,
        limits: Limits {
            thresh: big_of(*thresh)?,
            bg: big_of(*bg)?,
            hard: big_of(*hard)?,
        },
    }))
}

fn period(fields: &[Field]) -> Option<Row>
    ensures { result ≡ spec.row_of word.Period fields.now }
{
    let [domain, k] = fields else {
        return None;
    };
    Some(Row::Timed(TimerEntry::Period {
        domain: small_of(*domain)?,
        k: big_of(*k)?,
    }))
}

fn cpu(fields: &[Field]) -> Option<Row>
    ensures { result ≡ spec.row_of word.Cpu fields.now }
{
    let [cpu] = fields else {
        return None;
    };
    Some(Row::Cpu(big_of(*cpu)?))
}

fn write(fields: &[Field]) -> Option<Row>
    ensures { result ≡ spec.row_of word.Write fields.now }
{
    let [task, page, fresh] = fields else {
        return None;
    };
    Some(Row::Entry(Entry::Write {
        task: small_of(*task)?,
        page: small_of(*page)?,
        fresh: fresh_of(*fresh)?,
    }))
}

fn fold(fields: &[Field]) -> Option<Row>
    ensures { result ≡ spec.row_of word.Fold fields.now }
{
    let [counter, version, delta] = fields else {
        return None;
    };
    Some(Row::Entry(Entry::Folded(Fold {
        counter: counter_of(*counter)?,
        version: big_of(*version)?,
        delta: signed_of(*delta)?,
    })))
}

fn read(fields: &[Field]) -> Option<Row>
    ensures { result ≡ spec.row_of word.Read fields.now }
{
    let [
        domain,
        triple,
        thresh,
        bg,
        hard,
        version,
        value,
        period,
        num,
        den,
    ] = fields
    else {
        return None;
    };
    Some(Row::Read(DomainLine {
        domain: small_of(*domain)?,
        triple: big_of(*triple)?,
        limits: Limits {
            thresh: big_of(*thresh)?,
            bg: big_of(*bg)?,
            hard: big_of(*hard)?,
        },
        count: Count {
            version: big_of(*version)?,
            value: signed_of(*value)?,
        },
        share: Fraction {
            period: big_of(*period)?,
            num: big_of(*num)?,
            den: big_of(*den)?,
        },
    }))
}

fn count(fields: &[Field]) -> Option<Row>
    ensures { result ≡ spec.row_of word.Count fields.now }
{
    let [context, version, value] = fields else {
        return None;
    };
    Some(Row::Count {
        context: small_of(*context)?,
        count: Count {
            version: big_of(*version)?,
            value: signed_of(*value)?,
        },
    })
}

fn check(fields: &[Field]) -> Option<Row>
    ensures { result ≡ spec.row_of word.Check fields.now }
{
    let [
        task,
        context,
        now,
        estimate,
        kind,
        pause,
        left,
        nr,
        allowance,
        when,
    ] = fields
    else {
        return None;
    };
    Some(Row::Check(Decided {
        task: small_of(*task)?,
        context: small_of(*context)?,
        now: big_of(*now)?,
        estimate: big_of(*estimate)?,
        decision: Decision {
            kind: kind_of(*kind)?,
            pause: big_of(*pause)?,
            left: big_of(*left)?,
            task: Task {
                nr_dirtied: big_of(*nr)?,
                nr_dirtied_pause: big_of(*allowance)?,
                paused_when: big_of(*when)?,
            },
            exceeded: false,
        },
    }))
}

fn claim(fields: &[Field]) -> Option<Row>
    ensures { result ≡ spec.row_of word.Claim fields.now }
{
    let [flusher, page] = fields else {
        return None;
    };
    Some(Row::Entry(Entry::Claimed {
        flusher: small_of(*flusher)?,
        page: small_of(*page)?,
    }))
}

fn batch(fields: &[Field]) -> Option<Row>
    ensures { result ≡ spec.row_of word.Batch fields.now }
{
    let [flusher, pages, now, until] = fields else {
        return None;
    };
    Some(Row::Entry(Entry::Batch {
        flusher: small_of(*flusher)?,
        pages: small_of(*pages)?,
        now: big_of(*now)?,
        until: big_of(*until)?,
    }))
}

fn done(fields: &[Field]) -> Option<Row>
    ensures { result ≡ spec.row_of word.Done fields.now }
{
    let [flusher, page] = fields else {
        return None;
    };
    Some(Row::Entry(Entry::Done {
        flusher: small_of(*flusher)?,
        page: small_of(*page)?,
    }))
}

fn share(fields: &[Field]) -> Option<Row>
    ensures { result ≡ spec.row_of word.Share fields.now }
{
    let [domain, context, n] = fields else {
        return None;
    };
    Some(Row::Entry(Entry::Share {
        domain: small_of(*domain)?,
        context: small_of(*context)?,
        n: big_of(*n)?,
    }))
}

fn est(fields: &[Field]) -> Option<Row>
    ensures { result ≡ spec.row_of word.Est fields.now }
{
    let [
        context,
        version,
        bw,
        avg,
        ratelimit,
        balanced,
        written,
        dirtied,
        at,
    ] = fields
    else {
        return None;
    };
    Some(Row::Estimate(EstEntry {
        context: small_of(*context)?,
        estimate: Estimate {
            version: big_of(*version)?,
            bw: big_of(*bw)?,
            avg: big_of(*avg)?,
            ratelimit: big_of(*ratelimit)?,
            balanced: big_of(*balanced)?,
            written_stamp: big_of(*written)?,
            dirtied_stamp: big_of(*dirtied)?,
            at: big_of(*at)?,
        },
    }))
}

fn fault(fields: &[Field]) -> Option<Row>
    ensures { result ≡ spec.row_of word.Fault fields.now }
{
    let [flusher, pages] = fields else {
        return None;
    };
    Some(Row::Entry(Entry::Fault {
        flusher: small_of(*flusher)?,
        pages: small_of(*pages)?,
    }))
}

fn back(fields: &[Field]) -> Option<Row>
    ensures { result ≡ spec.row_of word.Back fields.now }
{
    let [flusher, page, absorbed] = fields else {
        return None;
    };
    Some(Row::Entry(Entry::Back {
        flusher: small_of(*flusher)?,
        page: small_of(*page)?,
        absorbed: absorbed_of(*absorbed)?,
    }))
}

fn notice(fields: &[Field]) -> Option<Row>
    ensures { result ≡ spec.row_of word.Notice fields.now }
{
    let [flusher, inode, since] = fields else {
        return None;
    };
    Some(Row::Entry(Entry::Noticed {
        flusher: small_of(*flusher)?,
        inode: small_of(*inode)?,
        since: big_of(*since)?,
    }))
}

fn age(fields: &[Field]) -> Option<Row>
    ensures { result ≡ spec.row_of word.Age fields.now }
{
    let [flusher, inode, due, now] = fields else {
        return None;
    };
    Some(Row::Entry(Entry::Aged {
        flusher: small_of(*flusher)?,
        inode: small_of(*inode)?,
        due: big_of(*due)?,
        now: big_of(*now)?,
    }))
}

fn take(fields: &[Field]) -> Option<Row>
    ensures { result ≡ spec.row_of word.Take fields.now }
{
    let [flusher, inode] = fields else {
        return None;
    };
    Some(Row::Entry(Entry::Taken {
        flusher: small_of(*flusher)?,
        inode: small_of(*inode)?,
    }))
}

fn left(fields: &[Field]) -> Option<Row>
    ensures { result ≡ spec.row_of word.Left fields.now }
{
    let [page, bits] = fields else {
        return None;
    };
    Some(Row::Left(Left {
        page: small_of(*page)?,
        word: bits_of(*bits)?,
    }))
}

fn census(fields: &[Field]) -> Option<Row>
    ensures { result ≡ spec.row_of word.Census fields.now }
{
    let [dirty, writeback] = fields else {
        return None;
    };
    Some(Row::Census {
        dirty: big_of(*dirty)?,
        writeback: big_of(*writeback)?,
    })
}

fn totals(fields: &[Field]) -> Option<Row>
    ensures { result ≡ spec.row_of word.Totals fields.now }
{
    let [fresh, done] = fields else {
        return None;
    };
    Some(Row::Totals {
        fresh: big_of(*fresh)?,
        done: big_of(*done)?,
    })
}

fn end(fields: &[Field]) -> Option<Row>
    ensures { result ≡ spec.row_of word.End fields.now }
{
    let [ending] = fields else {
        return None;
    };
    Some(Row::End(ending_of(*ending)?))
}

// What a line with this word and these fields says.
fn row_of(word: Word, fields: &[Field]) -> Option<Row>
    ensures { result ≡ spec.row_of word fields.now }
{
    match word {
        Word::Timer => timer(fields),
        Word::Limits => limits(fields),
        Word::Period => period(fields),
        Word::Cpu => cpu(fields),
        Word::Write => write(fields),
        Word::Fold => fold(fields),
        Word::Read => read(fields),
        Word::Count => count(fields),
        Word::Check => check(fields),
        Word::Claim => claim(fields),
        Word::Batch => batch(fields),
        Word::Done => done(fields),
        Word::Share => share(fields),
        Word::Est => est(fields),
        Word::Fault => fault(fields),
        Word::Back => back(fields),
        Word::Notice => notice(fields),
        Word::Age => age(fields),
        Word::Take => take(fields),
        Word::Left => left(fields),
        Word::Census => census(fields),
        Word::Totals => totals(fields),
        Word::End => end(fields),
        _ => None,
    }
}

/// What a line with these fields says, the first of which is its word.
pub fn row_from(fields: &[Field]) -> Option<Row>
    ensures { result ≡ spec.row_from fields.now }
{
    match fields {
        [] => None,
        [first, more @ ..] => match *first {
            Field::Name(word) => row_of(word, more),
            _ => None,
        },
    }
}
