//! A page that is dirtied in flight leaves its inode's mark owed.

use std::test::Fail;
use throttle_in_use::lone::Lone;
use wbt_table::{Claim, Dirtied};

const FRESH: Option<(Dirtied, bool)> = Some((Dirtied::Fresh, true));

#[test]
fn a_page_dirtied_in_flight_leaves_a_mark_owed(rt: HostRuntime) -> Result<(), Fail> {
    let mut lone = Lone::open(rt.alloc(), 1, 1, 100000)?;
    assert_eq!(rt; (lone.write(0), lone.mark()), (FRESH, Some(true)));
    assert_eq!(rt; (lone.claim(), lone.settle()), (Claim::Mine, true));
    assert_eq!(rt; (lone.write(0), lone.mark()), (FRESH, Some(false)));
    assert!(rt; lone.clear());
    assert!(rt; lone.passes_with_both_bits());
    assert_eq!(rt; lone.mark(), Some(true));
    Ok(())
}
