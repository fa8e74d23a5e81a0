//! Clocks by a list, by hand, that stand, and of the machine.

use std::io::ErrorKind;
use std::test::Fail;
use std::time::Duration;
use std::{thread, time};
use wbt_io::{Clock, HandClock, JumpClock, RealClock, StillClock, told_moment};

// Two threads rest by one clock.
fn rest_beside<R: thread::Threads, C: Clock + Sync>(rt: &R, clock: &C, left: u64, right: u64) {
    thread::join(rt, || clock.rest(left), || clock.rest(right));
}

#[test]
fn a_hand_clock_moves_by_the_rests_of_all_threads(rt: HostRuntime) {
    let clock = HandClock::make(1);
    assert_eq!(rt; clock.now(), 1);
    clock.rest(50);
    assert_eq!(rt; clock.now(), 51);
    rest_beside(&rt, &clock, 100, 3);
    assert_eq!(rt; clock.now(), 154);
    clock.rest(u64::MAX);
    assert_eq!(rt; clock.now(), u64::MAX);
}

#[test]
fn a_still_clock_stands(rt: HostRuntime) {
    let clock = StillClock::make(7);
    clock.rest(50);
    rest_beside(&rt, &clock, 100, 3);
    assert_eq!(rt; clock.now(), 7);
}

#[test]
fn a_moment_is_below_its_end(rt: HostRuntime) {
    let end = 1 << 62;
    for (shown, moment) in [
        (0, 0),
        (end - 1, end - 1),
        (end, end - 1),
        (u64::MAX, end - 1),
    ] {
        assert_eq!(rt; told_moment(&StillClock::make(shown)), moment, "at {shown}");
        assert_eq!(rt; told_moment(&HandClock::make(shown)), moment, "at {shown}");
    }
}

#[test]
fn it_shows_its_list_and_then_moves_by_rests(rt: HostRuntime) -> Result<(), Fail> {
    let moments = [1, 500, 3, 0].to_vec(rt.alloc())?;
    let clock = JumpClock::make(rt.alloc(), moments)?;
    for moment in [1, 500, 3, 0, 50, 100] {
        assert_eq!(rt; clock.now(), moment);
        clock.rest(50);
    }
    Ok(())
}

// A machine whose clock can't be read.
struct Broken;

impl time::Clock for Broken {
    fn monotonic(&self) -> std::io::Result<Duration> {
        Err(std::io::Error::from(std::io::ErrorKind::Unsupported))
    }

    fn since_1970(&self) -> std::io::Result<Duration> {
        Err(std::io::Error::from(std::io::ErrorKind::Unsupported))
    }
}

// What a clock shows before and after a rest.
fn around_a_rest<C: Clock + Sync>(clock: &C, ticks: u64) -> (u64, u64) {
    let before = clock.now();
    clock.rest(ticks);
    (before, clock.now())
}

#[test]
fn the_machine_moves_it(rt: HostRuntime) {
    let clock = RealClock::make(&rt);
    let (before, after) = around_a_rest(&clock, 20);
    assert!(rt; 1 <= before);
    assert!(rt; 19 <= after.saturating_sub(before));
}

#[test]
fn it_stands_where_the_machine_tells_no_time(rt: HostRuntime) {
    let clock = RealClock::make(&Broken);
    assert_eq!(rt; around_a_rest(&clock, 20), (1, 1));
}
