//! Calls that pay under gates.

use std::test::Fail;
use throttle_in_use::counts::{Left, Told};
use throttle_in_use::lone::Lone;
use wbt_io::HaltGate;
use wbt_table::{Counter, Dirtied, Fold, Owed, Settled};

// A page that was fresh, of which something is still owed.
const STOPPED: Option<(Dirtied, bool)> = Some((Dirtied::Fresh, false));

// Writes the first seven pages of eight, each of which is fresh, and pays for each.
fn write_seven(lone: &mut Lone) -> bool {
    for page in 0..7u32 {
        if lone.write(page) != Some((Dirtied::Fresh, true)) {
            return false;
        }
    }
    true
}

// Writes page 7, and is stopped after so many steps.
fn write_the_eighth(lone: &mut Lone, steps: u64) -> Option<(Dirtied, bool)> {
    let gate = HaltGate {
        halt: lone.steps().saturating_add(steps),
    };
    lone.write_under(7, &gate)
}

#[test]
fn a_fold_is_told_where_its_clear_is_stopped(rt: HostRuntime) -> Result<(), Fail> {
    let mut lone = Lone::open(rt.alloc(), 1, 8, 100000)?;
    assert!(rt; write_seven(&mut lone));
    assert_eq!(rt; write_the_eighth(&mut lone, 1), STOPPED);
    let gate = HaltGate {
        halt: lone.steps().saturating_add(2),
    };
    let fold = Fold {
        counter: Counter::Context(0),
        version: 1,
        delta: 8,
    };
    assert_eq!(rt;
        lone.settle_under(&gate),
        Settled {
            all: false,
            first: Some(fold),
            second: None,
            third: None
        }
    );
    assert!(rt; lone.owes());
    Ok(())
}

// What is left where eight pages were written, of which the context's count owes so much, and the domain's.
fn eight_left(local: (i64, i64), owed: (Owed, Owed)) -> Left {
    Left {
        first_page: 1,
        pages: 8,
        context: Told {
            shared: 8,
            local: local.0,
            owed: owed.0,
        },
        domain: Told {
            shared: 0,
            local: local.1,
            owed: owed.1,
        },
        exact: (8, 8),
    }
}

// The steps of page 7: dirty, add, fold, and then the clear, which is stopped.
#[test]
fn debts_tell_the_exact_count_where_a_clear_is_stopped(rt: HostRuntime) -> Result<(), Fail> {
    let mut lone = Lone::open(rt.alloc(), 1, 8, 100000)?;
    assert!(rt; write_seven(&mut lone));
    assert_eq!(rt; write_the_eighth(&mut lone, 3), STOPPED);
    let owed = (Owed { event: 0, clear: 8 }, Owed { event: 1, clear: 0 });
    assert_eq!(rt; lone.left(), Some(eight_left((8, 7), owed)));
    Ok(())
}

#[test]
fn what_was_stopped_is_paid_once(rt: HostRuntime) -> Result<(), Fail> {
    let mut lone = Lone::open(rt.alloc(), 1, 8, 100000)?;
    assert!(rt; write_seven(&mut lone));
    assert_eq!(rt; write_the_eighth(&mut lone, 3), STOPPED);
    assert_eq!(rt; (lone.settle(), lone.settle()), (true, true));
    let owed = (Owed { event: 0, clear: 0 }, Owed { event: 0, clear: 0 });
    assert_eq!(rt; lone.left(), Some(eight_left((0, 8), owed)));
    Ok(())
}
