//! Inodes that are put into a wheel, and taken.

use std::test::Fail;
use wbt_expiry::{Due, Wheel};

fn due(due: u64, inode: u32) -> Option<Due> {
    Some(Due { due, inode })
}

#[test]
fn inodes_come_in_order_of_due_and_number(rt: HostRuntime) -> Result<(), Fail> {
    let mut wheel = Wheel::make(rt.alloc(), 3, 0)?;
    assert_eq!(rt; wheel.put(2, 70), true);
    assert_eq!(rt; wheel.put(0, 5000), true);
    assert_eq!(rt; wheel.put(1, 70), true);
    assert_eq!(rt; wheel.put(1, 80), false);
    assert_eq!(rt; wheel.next(69), None);
    assert_eq!(rt; wheel.next(70), due(70, 1));
    assert_eq!(rt; wheel.next(70), due(70, 2));
    assert_eq!(rt; wheel.next(70), None);
    assert_eq!(rt; wheel.first(), due(5000, 0));
    assert_eq!(rt; wheel.first(), None);
    Ok(())
}

#[test]
fn an_inode_that_was_taken_is_put_again(rt: HostRuntime) -> Result<(), Fail> {
    let mut wheel = Wheel::make(rt.alloc(), 2, 10)?;
    assert_eq!(rt; wheel.put(1, 40), true);
    assert_eq!(rt; wheel.next(100), due(40, 1));
    assert_eq!(rt; wheel.put(1, 30), true);
    assert_eq!(rt; wheel.put(0, 35), true);
    assert_eq!(rt; wheel.next(29), None);
    assert_eq!(rt; wheel.next(30), due(30, 1));
    assert_eq!(rt; wheel.next(100), due(35, 0));
    Ok(())
}

#[test]
fn an_inode_waits_to_the_horizon(rt: HostRuntime) -> Result<(), Fail> {
    let mut wheel = Wheel::make(rt.alloc(), 2, 77)?;
    let last = wheel.horizon();
    assert_eq!(rt; last, 16777292);
    assert_eq!(rt; wheel.put(0, last), true);
    assert_eq!(rt; wheel.put(1, last - 1), true);
    assert_eq!(rt; wheel.next(last - 2), None);
    assert_eq!(rt; wheel.next(last - 1), due(last - 1, 1));
    assert_eq!(rt; wheel.next(last - 1), None);
    assert_eq!(rt; wheel.next(last), due(last, 0));
    Ok(())
}

#[test]
fn a_wheel_is_told_a_far_moment(rt: HostRuntime) -> Result<(), Fail> {
    let far = 1 << 61;
    let mut wheel = Wheel::make(rt.alloc(), 3, 5)?;
    assert_eq!(rt; wheel.put(0, 9000), true);
    wheel.move_to(far);
    wheel.move_to(4);
    assert_eq!(rt; wheel.horizon(), far + 16777215);
    assert_eq!(rt; wheel.put(2, far + 16777215), true);
    assert_eq!(rt; wheel.put(1, 20), true);
    assert_eq!(rt; wheel.next(30), due(20, 1));
    assert_eq!(rt; wheel.next(30), None);
    assert_eq!(rt; wheel.next(far), due(9000, 0));
    assert_eq!(rt; wheel.next(far), None);
    assert_eq!(rt; wheel.first(), due(far + 16777215, 2));
    assert_eq!(rt; wheel.first(), None);
    Ok(())
}

#[test]
fn an_inode_is_put_that_is_due_before_one_taken_early(rt: HostRuntime) -> Result<(), Fail> {
    let mut wheel = Wheel::make(rt.alloc(), 3, 0)?;
    assert_eq!(rt; wheel.put(0, 5000), true);
    assert_eq!(rt; wheel.put(1, 6000), true);
    assert_eq!(rt; wheel.first(), due(5000, 0));
    assert_eq!(rt; wheel.put(2, 80), true);
    assert_eq!(rt; wheel.put(0, 70), true);
    assert_eq!(rt; wheel.next(69), None);
    assert_eq!(rt; wheel.next(75), due(70, 0));
    assert_eq!(rt; wheel.next(75), None);
    assert_eq!(rt; wheel.first(), due(80, 2));
    assert_eq!(rt; wheel.first(), due(6000, 1));
    assert_eq!(rt; wheel.first(), None);
    assert_eq!(rt; wheel.put(1, 90), true);
    assert_eq!(rt; wheel.next(89), None);
    assert_eq!(rt; wheel.next(90), due(90, 1));
    Ok(())
}

// The number after another in a sequence that seems without order, below 2^31.
fn next_number(number: u64) -> u64 {
    (number % 2147483648 * 1103515245 + 12345) % 2147483648
}

// Whether a pair comes before another.
fn comes_before(pair: Due, other: Due) -> bool {
    pair.due < other.due || pair.due == other.due && pair.inode < other.inode
}

#[test]
fn a_thousand_inodes_come_in_order(rt: HostRuntime) -> Result<(), Fail> {
    let mut wheel = Wheel::make(rt.alloc(), 1000, 0)?;
    let mut number = 1;
    'puts: for inode in 0..1000 {
        number = next_number(number);
        assert_eq!(rt; wheel.put(inode, number % 16777216), true);
    }
    // Each moment hands out the inodes that became due since the one before it.
    let mut now = 0;
    let mut last = Due { due: 0, inode: 0 };
    let mut taken = 0u32;
    'turns: for turn in 0..2024u64 {
        match wheel.next(now) {
            Some(pair) => {
                assert!(rt; pair.due <= now && now - pair.due < 16384);
                assert!(rt; taken == 0 || comes_before(last, pair));
                last = pair;
                taken += 1;
            }
            None => now += 16384,
        }
    }
    assert_eq!(rt; taken, 1000);
    assert_eq!(rt; wheel.first(), None);
    Ok(())
}
