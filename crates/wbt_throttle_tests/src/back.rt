//! A page that is given back is dirty once more, or one of its dirtyings is absorbed.

use crate::rounds::{clean_by_second, dirty_twice};
use std::test::Fail;
use throttle_in_use::counts::bits_and_counts;
use throttle_in_use::lone::Lone;
use throttle_in_use::pair::Pair;
use wbt_io::{FreeGate, HaltGate};
use wbt_table::{Back, Claim, Dirtied};

const FRESH: Option<(Dirtied, bool)> = Some((Dirtied::Fresh, true));

// CPU 0 dirties the page and claims it, CPU 1 dirties it again, and CPU 0 gives it back and pays what it owes then.
fn absorb(pair: &mut Pair) -> bool {
    dirty_twice(pair)
        && pair.one_gives_back() == Some(Back::Absorbed)
        && pair.one_owes()
        && pair.one_settles()
}

#[test]
fn a_page_that_was_dirtied_in_flight_is_absorbed(rt: HostRuntime) -> Result<(), Fail> {
    let mut pair = Pair::open(rt.alloc(), 1)?;
    assert!(rt; absorb(&mut pair));
    assert_eq!(rt; bits_and_counts(pair.left()), Some((1, (1, 1))));
    Ok(())
}

#[test]
fn of_two_dirtyings_one_is_absorbed_and_one_completed(rt: HostRuntime) -> Result<(), Fail> {
    let mut pair = Pair::open(rt.alloc(), 1)?;
    assert!(rt; absorb(&mut pair));
    assert!(rt; clean_by_second(&mut pair));
    assert_eq!(rt; bits_and_counts(pair.left()), Some((0, (0, 0))));
    Ok(())
}

#[test]
fn a_page_that_is_given_back_is_dirty_once_more(rt: HostRuntime) -> Result<(), Fail> {
    let mut lone = Lone::open(rt.alloc(), 1, 1, 100000)?;
    assert_eq!(rt; lone.write(0), FRESH);
    assert_eq!(rt; (lone.mark(), lone.clear()), (Some(true), true));
    assert_eq!(rt; lone.claim(), Claim::Mine);
    assert_eq!(rt; lone.give_back(&FreeGate), Some(Back::Redirtied));
    assert!(rt; !lone.owes());
    assert_eq!(rt; lone.mark(), Some(true));
    assert_eq!(rt; bits_and_counts(lone.left()), Some((1, (1, 1))));
    Ok(())
}

#[test]
fn no_page_is_given_back_after_the_last_page_step(rt: HostRuntime) -> Result<(), Fail> {
    let mut lone = Lone::open(rt.alloc(), 1, 1, 1)?;
    assert_eq!(rt; (lone.write(0), lone.claim()), (FRESH, Claim::Mine));
    assert!(rt; !lone.owes());
    assert_eq!(rt; lone.give_back(&FreeGate), None);
    assert_eq!(rt; bits_and_counts(lone.left()), Some((2, (1, 1))));
    Ok(())
}

#[test]
fn a_cpu_that_is_stopped_holds_the_page_still(rt: HostRuntime) -> Result<(), Fail> {
    let mut lone = Lone::open(rt.alloc(), 1, 1, 100000)?;
    assert_eq!(rt; (lone.write(0), lone.claim()), (FRESH, Claim::Mine));
    let before_the_look = HaltGate { halt: lone.steps() };
    assert_eq!(rt; lone.give_back(&before_the_look), Some(Back::Stopped));
    let after_the_look = HaltGate {
        halt: lone.steps().saturating_add(1),
    };
    assert_eq!(rt; lone.give_back(&after_the_look), Some(Back::Stopped));
    assert_eq!(rt; lone.give_back(&FreeGate), Some(Back::Redirtied));
    assert_eq!(rt; bits_and_counts(lone.left()), Some((1, (1, 1))));
    Ok(())
}
