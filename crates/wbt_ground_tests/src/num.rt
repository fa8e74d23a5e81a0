//! Exact arithmetic, and lists that grow, change or are taken from.

use std::test::Fail;
use wbt_num::{Items, Queue, Row, ceil_div, floor_shift, ilog2, mul_div, pow2_up, sat_sub};

#[test]
fn logarithms_round_down(rt: HostRuntime) {
    for (n, want) in [(1, 0), (2, 1), (3, 1), (25600, 14), (u64::MAX, 63)] {
        assert_eq!(rt; ilog2(n), want, "at {n}");
    }
}

#[test]
fn quotients_round_as_they_say(rt: HostRuntime) {
    assert_eq!(rt; ceil_div(8193, 4096), 3);
    assert_eq!(rt; ceil_div(8192, 4096), 2);
    assert_eq!(rt;
        mul_div(u64::MAX, u64::MAX, 1),
        340282366920938463426481119284349108225
    );
    assert_eq!(rt; mul_div(819, 100000, 4096), 19995);
    assert_eq!(rt; floor_shift(1023, 10), 0);
    assert_eq!(rt; floor_shift(-1, 10), -1);
    assert_eq!(rt; floor_shift(-1025, 10), -2);
    assert_eq!(rt; floor_shift(i128::MIN, 126), -2);
}

#[test]
fn powers_round_up_and_differences_stop_at_zero(rt: HostRuntime) {
    for (n, want) in [(1, 1), (3, 4), (4, 4), (1 << 63, 1 << 63)] {
        assert_eq!(rt; pow2_up(n), want, "at {n}");
    }
    assert_eq!(rt; sat_sub(7, 5), 2);
    assert_eq!(rt; sat_sub(5, 7), 0);
}

#[test]
fn a_list_grows_at_its_end(rt: HostRuntime) -> Result<(), Fail> {
    let mut list = Items::<u32>::new(rt.alloc());
    list.push(3)?;
    list.push(1)?;
    assert_eq!(rt; list.as_slice(), [3, 1].as_slice());
    Ok(())
}

#[test]
fn a_list_gives_its_vector_back(rt: HostRuntime) -> Result<(), Fail> {
    let list = Items::from_vec([3u32, 1, 2].to_vec(rt.alloc())?);
    assert_eq!(rt; list.as_slice(), [3, 1, 2].as_slice());
    let values = list.into_vec();
    assert_eq!(rt; values.as_slice(), [3, 1, 2].as_slice());
    Ok(())
}

#[test]
fn a_queue_gives_its_values_from_the_front(rt: HostRuntime) -> Result<(), Fail> {
    let mut queue = Queue::<u32>::new(rt.alloc());
    queue.push_back(1)?;
    queue.push_back(2)?;
    queue.push_front(0)?;
    assert_eq!(rt; queue.len(), 3);
    assert_eq!(rt; queue.front(), Some(0));
    assert_eq!(rt; queue.pop_front(), Some(0));
    assert_eq!(rt; queue.pop_front(), Some(1));
    assert_eq!(rt; queue.pop_front(), Some(2));
    assert_eq!(rt; queue.pop_front(), None);
    assert_eq!(rt; queue.is_empty(), true);
    Ok(())
}

#[test]
fn a_row_changes_in_one_place(rt: HostRuntime) -> Result<(), Fail> {
    let mut row = Row::from_vec([3u32, 1, 2].to_vec(rt.alloc())?);
    row.put(1, 7);
    assert_eq!(rt; row.get(0), 3);
    assert_eq!(rt; row.get(1), 7);
    assert_eq!(rt; row.get(2), 2);
    Ok(())
}
