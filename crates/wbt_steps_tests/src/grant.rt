//! The bound.

use std::test::Fail;
use wbt_grant::fixed_bound;

#[test]
fn the_bound_of_four_cpus_and_two_writers(rt: HostRuntime) -> Result<(), Fail> {
    let peak = 19995;
    assert_eq!(rt; peak + fixed_bound(4, 2, 32, 1), 20379);
    Ok(())
}
