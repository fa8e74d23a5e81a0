//! Lives of throttles.

use caller_of_throttle::life::life;
use std::test::Fail;
use wbt_io::{FreeGate, HaltGate};

#[test]
fn a_whole_life_leaves_no_page(rt: HostRuntime) -> Result<(), Fail> {
    assert_eq!(rt; life(&rt, rt.alloc(), &FreeGate)?, 0);
    Ok(())
}

#[test]
fn a_life_that_is_stopped_leaves_what_was_not_cleaned(rt: HostRuntime) -> Result<(), Fail> {
    // Each CPU has dirtied three pages, with three steps for each, and begun a fourth: its page is dirty, and counted by a debt.
    let gate = HaltGate { halt: 9 };
    assert_eq!(rt; life(&rt, rt.alloc(), &gate)?, 8);
    Ok(())
}
