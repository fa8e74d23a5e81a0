//! When a flusher's disk is done.

use std::test::Fail;
use wbt_io::done_at;

#[test]
fn a_disk_needs_each_tick_that_it_begins(rt: HostRuntime) -> Result<(), Fail> {
    assert_eq!(rt; done_at(1, 2, 1), 2001);
    assert_eq!(rt; done_at(1, 2, 25600), 2);
    assert_eq!(rt; done_at(100, 1024, 25600), 140);
    assert_eq!(rt; done_at(1 << 63, 1, 25600), 1 << 63);
    Ok(())
}
