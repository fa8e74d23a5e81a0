//! A page goes round: dirty, under writeback, clean.

use std::test::Fail;
use throttle_in_use::counts::bits_and_counts;
use throttle_in_use::lone::Lone;
use throttle_in_use::pair::Pair;
use wbt_table::{Claim, Dirtied};

const FRESH: Option<(Dirtied, bool)> = Some((Dirtied::Fresh, true));

const ALREADY: Option<(Dirtied, bool)> = Some((Dirtied::Already, true));

#[test]
fn a_page_with_both_bits_counts_twice(rt: HostRuntime) -> Result<(), Fail> {
    let mut lone = Lone::open(rt.alloc(), 2, 1, 100000)?;
    assert_eq!(rt; [lone.write(0), lone.write(0)], [FRESH, ALREADY]);
    assert_eq!(rt; lone.claim(), Claim::Mine);
    assert_eq!(rt; lone.write(0), FRESH);
    assert_eq!(rt; lone.claim(), Claim::NotDirty { word: 3 });
    assert_eq!(rt; bits_and_counts(lone.left()), Some((3, (2, 2))));
    Ok(())
}

#[test]
fn no_page_step_is_made_after_the_last(rt: HostRuntime) -> Result<(), Fail> {
    let mut lone = Lone::open(rt.alloc(), 1, 2, 2)?;
    let writes = [lone.write(0), lone.write(1), lone.write(0)];
    assert_eq!(rt; writes, [FRESH, FRESH, None]);
    assert_eq!(rt; lone.claim(), Claim::Mine);
    assert!(rt; !lone.complete());
    assert_eq!(rt; bits_and_counts(lone.left()), Some((2, (2, 2))));
    Ok(())
}

// CPU 0 dirties the page and claims it. CPU 1 dirties it under writeback, and finds it not to be claimed.
pub(super) fn dirty_twice(pair: &mut Pair) -> bool {
    let first = (pair.one_writes(), pair.one_claims());
    let second = (pair.two_writes(), pair.two_claims());
    first == (FRESH, Claim::Mine) && second == (FRESH, Claim::NotDirty { word: 3 })
}

// CPU 1 claims the page and completes it.
pub(super) fn clean_by_second(pair: &mut Pair) -> bool {
    pair.two_claims() == Claim::Mine && pair.two_completes()
}

// CPU 0 completes the page, CPU 1 cleans it once more, and then it is clean.
#[test]
fn a_page_is_cleaned_as_often_as_it_is_dirtied(rt: HostRuntime) -> Result<(), Fail> {
    let mut pair = Pair::open(rt.alloc(), 1)?;
    assert!(rt; dirty_twice(&mut pair));
    assert!(rt; pair.one_completes());
    assert!(rt; clean_by_second(&mut pair));
    assert_eq!(rt; pair.one_claims(), Claim::NotDirty { word: 0 });
    assert_eq!(rt; bits_and_counts(pair.left()), Some((0, (0, 0))));
    Ok(())
}
