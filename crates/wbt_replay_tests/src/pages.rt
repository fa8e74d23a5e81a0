//! The bits of pages in a replay.

use std::test::Fail;
use wbt_replay_moves::Pages;

#[test]
fn a_page_is_dirtied_claimed_and_completed(rt: HostRuntime) -> Result<(), Fail> {
    let mut pages = Pages::new(rt.alloc(), 40)?;
    pages.set_dirty(33);
    pages.set_dirty(34);
    pages.set_claimed(33);
    assert_eq!(rt; pages.word(33), 0b011000);
    assert!(rt; pages.is_writeback(33) && !pages.is_dirty(33));
    pages.set_completed(33);
    assert_eq!(rt; pages.word(33), 0b010000);
    assert_eq!(rt; pages.word(0), 0);
    Ok(())
}
