//! The two bits of each page, in words that 32 pages share, and the events of the page book.

ghost use Rattle.std.specs.Prelude.{◌≡◌, ◌<◌, ◌≤◌, false, IfOk};
ghost use Rattle.wbt_num.specs.declared.most.TheConstants.{MOST_PAGES};
ghost use Rattle.wbt_book.specs.PageWords.{shared_word, bits_at};
ghost use Rattle.wbt_book.specs.declared.event.Event.TheVariants as event;
ghost use Rattle.wbt_replay_moves.specs.Definition.State.{with_event};
ghost use Rattle.wbt_replay_moves.specs.Seen.{seen};

use crate::machine::Machine;
use std::alloc::{AllocError, Global};
use std::marker::Model;
use wbt_book::{
    claimed_word, dirty_mask, is_dirty_at, is_writeback_at, spot_of, words_for, writeback_mask,
};

/// So many pages, each with its two bits. Contracts see the number and the book.
#[derive(Drop)]
pub struct Pages {
    count: u32,
    words: Vec<u64>,
}

impl Model for Pages {
    ghost use Rattle.std.specs.Prelude.{◌≤◌, length};
    ghost use Rattle.wbt_num.specs.declared.most.TheConstants.{MOST_PAGES};
    ghost use Rattle.wbt_book.specs.PageWords.{words_for};
    ghost use Rattle.wbt_replay_moves.specs.Pages.{Paged};

    ghost Value = { Paged };

    ghost view = { λ p. record { count = p.count; words = p.words.items } };

    ghost invariant = { λ p. (words_for p.count ≤ length p.words.items) × (p.count ≤ MOST_PAGES) };
}

impl Pages {
    ghost use Rattle.wbt_replay_moves.specs.Pages.{book_of};
    ghost use Rattle.wbt_counter.specs.Sums.{put};
    ghost use Rattle.wbt_book.specs.Book.{bits_after};

    /// So many clean pages.
    pub fn new(alloc: Global, count: u32) -> Result<Pages, AllocError>
        requires { count ≤ MOST_PAGES }
        ensures count { IfOk result (λ pages. pages.count ≡ count) }
        ensures clean { IfOk result (λ pages. book_of pages.words ≡ (λ page. record { dirty = false; writeback = false })) }
    {
        let words = vec![in alloc; 0u64; words_for(count) as usize]?;
        Ok(Pages { count, words })
    }

    /// How many pages there are.
    pub fn count(&self) -> u32
        ensures { result ≡ self.now.count }
    {
        self.count
    }

    /// The word that the page stands in.
    #[tactic(auto, using(crate::proofs::Paging::word_told))]
    pub fn word(&self, page: u32) -> u64
        requires { page < self.now.count }
        ensures bits { bits_at result page ≡ book_of self.now.words page }
        ensures word { result ≡ shared_word (book_of self.now.words) page }
    {
        self.words.as_slice()[spot_of(page).word as usize]
    }

    /// Whether the page is dirty.
    pub fn is_dirty(&self, page: u32) -> bool
        requires { page < self.now.count }
        ensures { result ≡ (book_of self.now.words page).dirty }
    {
        is_dirty_at(self.word(page), page)
    }

    /// Whether the page is under writeback.
    pub fn is_writeback(&self, page: u32) -> bool
        requires { page < self.now.count }
        ensures { result ≡ (book_of self.now.words page).writeback }
    {
        is_writeback_at(self.word(page), page)
    }

    /// The page is dirty now.
    #[tactic(auto, using(crate::proofs::Paging::dirty_put))]
    pub fn set_dirty(&mut self, page: u32)
        requires { page < self.old.count }
        ensures count { self.new.count ≡ self.old.count }
        ensures book { book_of self.new.words ≡ put (book_of self.old.words) page (bits_after (event.Dirty page) (book_of self.old.words page)) }
    {
        let place = spot_of(page).word as usize;
        self.words[place] = self.words[place] | dirty_mask(page);
    }

    /// The page goes from dirty to writeback.
    #[tactic(auto, using(crate::proofs::Paging::claim_put))]
    pub fn set_claimed(&mut self, page: u32)
        requires { page < self.old.count }
        ensures count { self.new.count ≡ self.old.count }
        ensures book { book_of self.new.words ≡ put (book_of self.old.words) page (bits_after (event.Claim page) (book_of self.old.words page)) }
    {
        let place = spot_of(page).word as usize;
        self.words[place] = claimed_word(self.words[place], page);
    }

    /// The page isn't under writeback any more.
    #[tactic(auto, using(crate::proofs::Paging::complete_put))]
    pub fn set_completed(&mut self, page: u32)
        requires { page < self.old.count }
        ensures count { self.new.count ≡ self.old.count }
        ensures book { book_of self.new.words ≡ put (book_of self.old.words) page (bits_after (event.Complete page) (book_of self.old.words page)) }
    {
        let place = spot_of(page).word as usize;
        self.words[place] = self.words[place] & !writeback_mask(page);
    }
}

impl Machine {
    /// The page is dirty now.
    pub fn set_dirty(&mut self, page: u32)
        requires { page < (seen self.old).pages }
        ensures { seen self.new ≡ with_event (event.Dirty page) page (seen self.old) }
    {
        self.pages.set_dirty(page);
    }

    /// The page goes from dirty to writeback.
    pub fn set_claimed(&mut self, page: u32)
        requires { page < (seen self.old).pages }
        ensures { seen self.new ≡ with_event (event.Claim page) page (seen self.old) }
    {
        self.pages.set_claimed(page);
    }

    /// The page isn't under writeback any more.
    pub fn set_completed(&mut self, page: u32)
        requires { page < (seen self.old).pages }
        ensures { seen self.new ≡ with_event (event.Complete page) page (seen self.old) }
    {
        self.pages.set_completed(page);
    }
}
