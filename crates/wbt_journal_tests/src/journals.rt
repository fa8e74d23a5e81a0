//! What no clause says: the texts of small journals, that memory is enough for them, a text of several pieces, and a sink
//! that fails.

use crate::texts::{
    EVERY_CHECK, EVERY_ESTIMATE, EVERY_LEFT, EVERY_LINE, EVERY_TIMER, FIRST_ENTRIES,
    SECOND_ENTRIES, StepRow, TWO_DOMAINS, TWO_PAGES, TWO_PAGES_ENTRIES, Told, strict_told,
    two_domains_told, two_pages_told,
};
use std::alloc::{AllocError, Global};
use std::test::Fail;
use wbt_io::MemSink;
use wbt_journal::{
    CheckEntry, CpuJournal, Ending, Entry, EstEntry, Journal, PrintEnd, StepEntry, merge, print,
};
use wbt_num::Items;

// What came of writing a text to a sink.
#[derive(Drop)]
struct Printed {
    end: Result<(), PrintEnd>,
    held: Vec<u8>,
}

// Writes the text of a journal to a new sink whose call of number `fail` fails.
fn write_text(alloc: Global, journal: &Journal, fail: u64) -> Result<Printed, AllocError> {
    let fails = [fail].to_vec(alloc)?;
    let Ok(mut sink) = MemSink::make(alloc, 200000, 1000, fails) else {
        return Err(AllocError);
    };
    let end = print(alloc, journal, &mut sink);
    let held = sink.into_bytes();
    Ok(Printed { end, held })
}

// A CPU's part.
fn part_of(
    alloc: Global,
    entries: &[Entry],
    checks: &[CheckEntry],
    estimates: &[EstEntry],
) -> Result<CpuJournal, AllocError> {
    Ok(CpuJournal {
        entries: Items::from_vec(entries.to_vec(alloc)?),
        checks: Items::from_vec(checks.to_vec(alloc)?),
        estimates: Items::from_vec(estimates.to_vec(alloc)?),
    })
}

// The parts of one CPU without checks and estimates.
fn one_part(alloc: Global, entries: &[Entry]) -> Result<Vec<CpuJournal>, AllocError> {
    let mut parts = Vec::new(alloc);
    parts.push(part_of(alloc, entries, &[], &[])?)?;
    Ok(parts)
}

fn steps_of(alloc: Global, rows: &[StepRow]) -> Result<Vec<StepEntry>, AllocError> {
    let mut steps = Vec::new(alloc);
    for (who, kind, context, change, domain, peak) in rows {
        steps.push(StepEntry {
            who: *who,
            kind: *kind,
            context: *context,
            change: *change,
            domain: *domain,
            peak: *peak,
        })?;
    }
    Ok(steps)
}

fn journal_of(
    alloc: Global,
    cpus: Vec<CpuJournal>,
    told: &Told<'_>,
) -> Result<Journal, AllocError> {
    Ok(Journal {
        timer: Items::from_vec(told.timer.to_vec(alloc)?),
        cpus: Items::from_vec(cpus),
        steps: Items::from_vec(steps_of(alloc, told.steps)?),
        bases: Items::from_vec(told.bases.to_vec(alloc)?),
        homes: Items::from_vec(told.homes.to_vec(alloc)?),
        left: Items::from_vec(told.left.to_vec(alloc)?),
        strict: Items::from_vec(told.strict.to_vec(alloc)?),
        ending: told.ending,
    })
}

#[test]
fn the_empty_journal_has_four_lines(rt: HostRuntime) -> Result<(), Fail> {
    let alloc = rt.alloc();
    let journal = merge(
        alloc,
        Vec::new(alloc),
        Vec::new(alloc),
        Vec::new(alloc),
        Ending::Done,
    )?;
    let printed = write_text(alloc, &journal, 0)?;
    assert_eq!(rt; printed.end, Ok(()));
    assert_eq!(rt;
        printed.held.as_slice(),
        b"timer\ncensus 0 0\ntotals 0 0\nend done\n".as_slice()
    );
    Ok(())
}

// The journal of a run of two pages on one CPU.
fn two_pages(alloc: Global) -> Result<Journal, AllocError> {
    journal_of(
        alloc,
        one_part(alloc, &TWO_PAGES_ENTRIES)?,
        &two_pages_told(),
    )
}

#[test]
fn two_pages_are_told_byte_for_byte(rt: HostRuntime) -> Result<(), Fail> {
    let journal = two_pages(rt.alloc())?;
    let printed = write_text(rt.alloc(), &journal, 0)?;
    assert_eq!(rt; printed.end, Ok(()));
    assert_eq!(rt; printed.held.as_slice(), TWO_PAGES);
    Ok(())
}

#[test]
fn a_sink_that_fails_holds_a_part(rt: HostRuntime) -> Result<(), Fail> {
    let journal = two_pages(rt.alloc())?;
    for (fail, held) in [(1, b"".as_slice()), (0, TWO_PAGES)] {
        let printed = write_text(rt.alloc(), &journal, fail)?;
        assert_eq!(rt; printed.end.is_err(), fail == 1);
        assert_eq!(rt; printed.held.as_slice(), held);
    }
    Ok(())
}

// The parts of the two CPUs of the text with every kind of line.
fn every_part(alloc: Global) -> Result<Vec<CpuJournal>, AllocError> {
    let mut parts = Vec::new(alloc);
    let first = part_of(alloc, &FIRST_ENTRIES, &[EVERY_CHECK], &[EVERY_ESTIMATE])?;
    parts.push(first)?;
    parts.push(part_of(alloc, &SECOND_ENTRIES, &[], &[])?)?;
    Ok(parts)
}

fn every_line(alloc: Global) -> Result<Journal, Fail> {
    let parts = every_part(alloc)?;
    let timer = EVERY_TIMER.to_vec(alloc)?;
    let left = EVERY_LEFT.to_vec(alloc)?;
    Ok(merge(alloc, parts, timer, left, Ending::Faulted)?)
}

#[test]
fn every_kind_of_line_is_told(rt: HostRuntime) -> Result<(), Fail> {
    let journal = every_line(rt.alloc())?;
    let printed = write_text(rt.alloc(), &journal, 0)?;
    assert_eq!(rt; printed.end, Ok(()));
    assert_eq!(rt; printed.held.as_slice(), EVERY_LINE);
    Ok(())
}

#[test]
fn each_domain_has_its_column(rt: HostRuntime) -> Result<(), Fail> {
    let alloc = rt.alloc();
    let journal = journal_of(alloc, one_part(alloc, &[])?, &two_domains_told())?;
    let printed = write_text(alloc, &journal, 0)?;
    assert_eq!(rt; printed.end, Ok(()));
    assert_eq!(rt; printed.held.as_slice(), TWO_DOMAINS);
    Ok(())
}

#[test]
fn contexts_of_strict_devices_are_told_before_the_end(rt: HostRuntime) -> Result<(), Fail> {
    let alloc = rt.alloc();
    let journal = journal_of(alloc, Vec::new(alloc), &strict_told())?;
    let printed = write_text(alloc, &journal, 0)?;
    assert_eq!(rt; printed.end, Ok(()));
    assert_eq!(rt;
        printed.held.as_slice(),
        b"timer\nleft 7 dirty\ncensus 1 0\ntotals 0 0\nstrict 0 2 1040\nstrict 3 0 18446744073709551615\nend spent\n".as_slice()
    );
    Ok(())
}

// A journal of 12000 claims of one flusher, of page 0 to page 9 again and again.
fn many_claims(alloc: Global) -> Result<Journal, Fail> {
    let mut entries = Vec::new(alloc);
    for page in 0..12000 {
        entries.push(Entry::Claimed {
            flusher: 7,
            page: page % 10,
        })?;
    }
    let parts = one_part(alloc, entries.as_slice())?;
    Ok(merge(
        alloc,
        parts,
        Vec::new(alloc),
        Vec::new(alloc),
        Ending::Spent,
    )?)
}

#[test]
fn a_long_text_goes_in_pieces(rt: HostRuntime) -> Result<(), Fail> {
    let journal = many_claims(rt.alloc())?;
    let printed = write_text(rt.alloc(), &journal, 0)?;
    assert_eq!(rt; printed.end, Ok(()));
    assert_eq!(rt; printed.held.len(), 12000 * 10 + 44);
    let cut = 6 + 6 + 7000 * 10;
    assert_eq!(rt;
        printed.held.get(cut..cut + 20),
        Some(b"claim 7 0\nclaim 7 1\n".as_slice())
    );
    Ok(())
}
