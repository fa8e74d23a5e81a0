//! Two pages, from their writes to an empty throttle.

use crate::runs::work_text;
use std::test::Fail;
use wbt_io::{FreeGate, ModelRack};
use wbt_journal::{CpuJournal, Ending, Entry};

const TWO_PAGES: &[u8] =
    b"cpus 1\navail 0 100000\ndevice 0 25600 0 100\ncontext 0 0 0\ninode 0 0 2\ntask 0 0\nflusher 0 0 0\nwrite 0 0 0 2\n";

// The page of a fresh write.
fn fresh_page(entry: &Entry) -> Option<u32> {
    match entry {
        Entry::Write {
            page,
            fresh: true,
            ..
        } => Some(*page),
        _ => None,
    }
}

// The pages of the first two fresh writes of the first CPU's part.
fn first_fresh(parts: &[CpuJournal]) -> Option<(Option<u32>, Option<u32>)> {
    let part = parts.first()?;
    let mut pages = part.entries.as_slice().iter().filter_map(fresh_page);
    Some((pages.next(), pages.next()))
}

#[test]
fn two_pages_are_cleaned(rt: HostRuntime) -> Result<(), Fail> {
    let mut rack = ModelRack::make();
    let parts = work_text(&rt, rt.alloc(), TWO_PAGES, &FreeGate, &mut rack)?;
    assert_eq!(rt; parts.ending, Ending::Done);
    let fresh = first_fresh(parts.journal.cpus.as_slice());
    assert_eq!(rt; fresh, Some((Some(0), Some(1))));
    assert_eq!(rt; rack.pages, 2);
    assert_eq!(rt; parts.held, (true, true));
    assert!(rt; parts.journal.left.as_slice().is_empty());
    Ok(())
}
