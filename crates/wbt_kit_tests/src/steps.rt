//! What a pen tells.

use std::alloc::Global;
use std::test::Fail;
use wbt_counter::{Counter, Fold};
use wbt_journal::{CpuJournal, Entry};
use wbt_num::Items;
use wbt_run_steps::{Pen, tell_fold};

fn empty_log(alloc: Global) -> CpuJournal {
    CpuJournal {
        entries: Items::new(alloc),
        checks: Items::new(alloc),
        estimates: Items::new(alloc),
    }
}

const FOLD: Fold = Fold {
    counter: Counter::Domain(0),
    version: 1,
    delta: -2,
};

#[test]
fn a_fold_is_told(rt: HostRuntime) -> Result<(), Fail> {
    let mut log = empty_log(rt.alloc());
    let mut pen = Pen::open(rt.alloc(), &mut log);
    pen.reserve(1, 0, 0)?;
    tell_fold(&mut pen, Some(FOLD));
    pen.close(&mut log);
    assert_eq!(rt; log.entries.as_slice(), [Entry::Folded(FOLD)].as_slice());
    Ok(())
}

#[test]
fn no_fold_is_told_where_none_was_made(rt: HostRuntime) -> Result<(), Fail> {
    let mut log = empty_log(rt.alloc());
    let mut pen = Pen::open(rt.alloc(), &mut log);
    pen.reserve(1, 0, 0)?;
    tell_fold(&mut pen, None);
    pen.close(&mut log);
    assert!(rt; log.entries.as_slice().is_empty());
    Ok(())
}
