//! Words that many pages share: where a page has its bits, and the masks by which one atomic operation changes them.
//!
//! The page `p` has the bits `2 * (p % 32)`, dirty, and `2 * (p % 32) + 1`, writeback, of the word `p / 32`.

ghost use Rattle.std.specs.Prelude.{◌≡◌, ◌+◌, ◌^◌, ◌<◌, ◌≤◌, ◌↔◌, IsTrue, IsBitSet};
ghost use Rattle.wbt_num.specs.declared.most.TheConstants.{MOST_PAGES};
ghost use Rattle.wbt_book.specs.declared.event.Event.TheVariants.{Claim};
ghost use Rattle.wbt_book.specs.Book.{is_claimable};
ghost use Rattle.wbt_book.specs.PageWords as spec;

use crate::word::{is_dirty, is_writeback};

/// Pages that share a word, two bits each.
pub const PAGES_PER_WORD: u32 = 32;

/// Where a page has its bits.
#[derive(Clone, Copy, Debug, PartialEq, Eq)]
pub struct Spot {
    /// The number of the word.
    pub word: u32,
    /// The bit that is set where the page is dirty. The next one is set where it is under writeback.
    pub shift: u32,
}

/// Where a page has its bits.
pub fn spot_of(page: u32) -> Spot
    ensures word { result.word ≡ spec.word_of page }
    ensures shift { result.shift ≡ spec.shift_of page }
    ensures word_fits { page < MOST_PAGES → result.word < 2 ^ 16 }
    ensures shift_fits { result.shift + 1 < 64 }
{
    Spot {
        word: page / PAGES_PER_WORD,
        shift: 2 * (page % PAGES_PER_WORD),
    }
}

/// How many words so many pages take.
pub fn words_for(pages: u32) -> u32
    ensures value { result ≡ spec.words_for pages }
    ensures fits { pages ≤ MOST_PAGES → result ≤ 2 ^ 16 }
{
    pages.div_ceil(PAGES_PER_WORD)
}

/// The mask of the page's dirty bit: put in, it marks the page dirty.
pub fn dirty_mask(page: u32) -> u64
    ensures { result ≡ spec.dirty_mask page }
{
    1 << spot_of(page).shift
}

/// The mask of the page's writeback bit: taken out, it ends the writeback of the page.
pub fn writeback_mask(page: u32) -> u64
    ensures { result ≡ spec.writeback_mask page }
{
    1 << (spot_of(page).shift + 1)
}

/// Whether the page is dirty, by the word that it stands in.
pub fn is_dirty_at(word: u64, page: u32) -> bool
    ensures bit { IsTrue result ↔ IsBitSet word (spec.shift_of page) }
    ensures in_book { result ≡ (spec.bits_at word page).dirty }
{
    is_dirty(word >> spot_of(page).shift)
}

/// Whether the page is under writeback, by the word that it stands in.
pub fn is_writeback_at(word: u64, page: u32) -> bool
    ensures bit { IsTrue result ↔ IsBitSet word (spec.shift_of page + 1) }
    ensures in_book { result ≡ (spec.bits_at word page).writeback }
{
    is_writeback(word >> spot_of(page).shift)
}

/// The page's two bits, by the word that it stands in, as a number: bit 0 is dirty, bit 1 is writeback.
pub fn bits_of(word: u64, page: u32) -> u64
    ensures value { result ≡ spec.bits_of word page }
    ensures fits { result < 4 }
{
    (word >> spot_of(page).shift) % 4
}

/// Whether the page may be claimed, by the word that it stands in: it is dirty and not under writeback.
pub fn is_claimable_at(word: u64, page: u32) -> bool
    ensures { result ≡ is_claimable (spec.bits_at word page) }
{
    if is_dirty_at(word, page) {
        !is_writeback_at(word, page)
    } else {
        false
    }
}

/// The word that a claim of the page makes of this one: the new value of its exchange.
pub fn claimed_word(word: u64, page: u32) -> u64
    ensures { result ≡ spec.word_after (Claim page) word }
{
    (word & !dirty_mask(page)) | writeback_mask(page)
}

/// The word that giving the page back makes of this one, whether the page is dirty in it or not: the new value of its exchange.
pub fn back_word(word: u64, page: u32) -> u64
    ensures { result ≡ spec.back_in word page }
{
    (word & !writeback_mask(page)) | dirty_mask(page)
}
