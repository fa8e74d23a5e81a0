//! Limits and counts, as who loads them finds them.

use std::test::Fail;
use throttle_in_use::calls::{layout, layout_with};
use throttle_in_use::seats::opened;
use throttle_in_use::timed::Timed;
use wbt_grant::Who;
use wbt_io::{FreeGate, HaltGate};
use wbt_num::Limits;
use wbt_table::{Count, Counter, Loaded, Put, Triple};

#[test]
fn limits_stand_published_under_a_peak(rt: HostRuntime) -> Result<(), Fail> {
    let mut timed = Timed::open(rt.alloc(), layout(rt.alloc(), 2, 1)?)?;
    let more = Limits {
        thresh: 110,
        bg: 60,
        hard: 120,
    };
    let fresh = Loaded::Fresh(Triple {
        version: 1,
        limits: more,
    });
    assert_eq!(rt; timed.publish(more, &FreeGate), Put::Done);
    assert_eq!(rt; timed.load(), fresh);
    Ok(())
}

#[test]
fn a_first_count_is_loaded(rt: HostRuntime) -> Result<(), Fail> {
    let (throttle, mut seat) = opened(rt.alloc(), layout(rt.alloc(), 2, 1)?)?;
    let count = throttle.load_count(&mut seat, Who::Timer, Counter::Domain(0));
    let nothing = Count {
        version: 0,
        value: 0,
    };
    assert_eq!(rt; count, nothing);
    Ok(())
}

#[test]
fn first_limits_are_loaded(rt: HostRuntime) -> Result<(), Fail> {
    let mut timed = Timed::open(rt.alloc(), layout(rt.alloc(), 2, 1)?)?;
    let first = Limits {
        thresh: 100,
        bg: 50,
        hard: 100,
    };
    let fresh = Loaded::Fresh(Triple {
        version: 0,
        limits: first,
    });
    assert_eq!(rt; timed.load(), fresh);
    Ok(())
}

const FIRST: Limits = Limits {
    thresh: 19995,
    bg: 9985,
    hard: 19995,
};

const LESS: Limits = Limits {
    thresh: 9997,
    bg: 4992,
    hard: 19683,
};

// The timer raises the peak, and makes one step more before it is stopped.
#[test]
fn a_publication_that_was_stopped_goes_on(rt: HostRuntime) -> Result<(), Fail> {
    let mut timed = Timed::open(rt.alloc(), layout_with(rt.alloc(), FIRST)?)?;
    let held = Triple {
        version: 0,
        limits: FIRST,
    };
    let again = Loaded::Again {
        held,
        first: 4294987291,
        second: 4294987291,
    };
    let fresh = Loaded::Fresh(Triple {
        version: 1,
        limits: LESS,
    });
    let stopped = (timed.publish(LESS, &HaltGate { halt: 2 }), timed.load());
    assert_eq!(rt; stopped, (Put::Stopped, again));
    let done = (timed.publish(LESS, &FreeGate), timed.load());
    assert_eq!(rt; done, (Put::Done, fresh));
    Ok(())
}

#[test]
fn a_load_that_is_stopped_changes_nothing_that_is_held(rt: HostRuntime) -> Result<(), Fail> {
    let mut timed = Timed::open(rt.alloc(), layout(rt.alloc(), 2, 1)?)?;
    let made = [
        timed.stopped_after(0),
        timed.stopped_after(1),
        timed.stopped_after(2),
    ];
    assert_eq!(rt; made, [Some(0), Some(1), Some(2)]);
    Ok(())
}
