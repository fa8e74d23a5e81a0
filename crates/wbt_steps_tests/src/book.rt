//! Words of pages, each with two bits, and of marks.

use std::test::Fail;
use wbt_book::{
    Spot, back_word, bits_of, claimed_word, dirty_mask, is_claimable_at, is_dirty, is_dirty_at,
    is_marked, is_writeback, is_writeback_at, spot_of, words_for, writeback_mask,
};

#[test]
fn a_page_can_be_dirty_again_under_writeback(rt: HostRuntime) -> Result<(), Fail> {
    assert_eq!(rt; (is_dirty(0), is_writeback(0)), (false, false));
    assert_eq!(rt; (is_dirty(1), is_writeback(1)), (true, false));
    assert_eq!(rt; (is_dirty(2), is_writeback(2)), (false, true));
    assert_eq!(rt; (is_dirty(3), is_writeback(3)), (true, true));
    Ok(())
}

#[test]
fn a_mark_is_the_lowest_bit(rt: HostRuntime) -> Result<(), Fail> {
    assert_eq!(rt; (is_marked(1), is_marked(2)), (true, false));
    Ok(())
}

#[test]
fn thirty_two_pages_share_a_word(rt: HostRuntime) -> Result<(), Fail> {
    assert_eq!(rt; spot_of(31), Spot { word: 0, shift: 62 });
    assert_eq!(rt; spot_of(32), Spot { word: 1, shift: 0 });
    assert_eq!(rt;
        spot_of(2097151),
        Spot {
            word: 65535,
            shift: 62
        }
    );
    assert_eq!(rt;
        (words_for(32), words_for(33), words_for(2097152)),
        (1, 2, 65536)
    );
    Ok(())
}

#[test]
fn each_page_has_masks_of_its_own(rt: HostRuntime) -> Result<(), Fail> {
    assert_eq!(rt; (dirty_mask(0), writeback_mask(0)), (1, 2));
    assert_eq!(rt; (dirty_mask(33), writeback_mask(33)), (4, 8));
    assert_eq!(rt;
        (dirty_mask(31), writeback_mask(31)),
        (4611686018427387904, 9223372036854775808)
    );
    Ok(())
}

#[test]
fn a_page_is_read_from_the_word_that_it_shares(rt: HostRuntime) -> Result<(), Fail> {
    let word = dirty_mask(1) | dirty_mask(31) | writeback_mask(31);
    assert_eq!(rt;
        (is_dirty_at(word, 1), is_writeback_at(word, 1)),
        (true, false)
    );
    assert_eq!(rt;
        (is_dirty_at(word, 31), is_writeback_at(word, 31)),
        (true, true)
    );
    assert_eq!(rt;
        (is_dirty_at(word, 30), is_writeback_at(word, 30)),
        (false, false)
    );
    assert_eq!(rt;
        (bits_of(word, 1), bits_of(word, 30), bits_of(word, 31)),
        (1, 0, 3)
    );
    assert_eq!(rt;
        (
            is_claimable_at(word, 1),
            is_claimable_at(word, 30),
            is_claimable_at(word, 31)
        ),
        (true, false, false)
    );
    Ok(())
}

#[test]
fn a_claim_leaves_the_neighbours(rt: HostRuntime) -> Result<(), Fail> {
    assert_eq!(rt; claimed_word(5, 0), 6);
    assert_eq!(rt; claimed_word(5, 1), 9);
    Ok(())
}

#[test]
fn a_page_given_back_is_dirty_and_leaves_the_neighbours(rt: HostRuntime) -> Result<(), Fail> {
    assert_eq!(rt; (back_word(2, 0), back_word(3, 0)), (1, 1));
    assert_eq!(rt; back_word(10, 0), 9);
    assert_eq!(rt; back_word(10, 1), 6);
    Ok(())
}

#[test]
fn a_word_differs_where_a_neighbour_does(rt: HostRuntime) -> Result<(), Fail> {
    let alone = dirty_mask(1);
    let beside = dirty_mask(1) | dirty_mask(2);
    assert_eq!(rt; alone == beside, false);
    assert_eq!(rt; is_claimable_at(alone, 1), is_claimable_at(beside, 1));
    assert_eq!(rt; claimed_word(alone, 1) == claimed_word(beside, 1), false);
    Ok(())
}
