//! The steps on pages. The answer of each is the page's word as it was.

ghost use Rattle.std.specs.Prelude.{◌≡◌};
ghost use Rattle.wbt_grant.specs.Kinds.{dirty, look, claim, complete, back, last_found};
ghost use Rattle.wbt_table.specs.Rule.{Turned, Holds};
ghost use Rattle.wbt_table.specs.Steps.{turn, IsReady};
ghost use Rattle.wbt_table.specs.Layout.{setting};

use crate::rule::{Granted, Named, Turns};
use crate::words::{Place, Words};
use wbt_book::{back_word, claimed_word, dirty_mask, writeback_mask};

impl Words {
    // Sets the page's dirty bit.
    #[inline(always)]
    pub(crate) fn dirty<C: Named>(
        &self,
        place: &mut Place,
        grants: Option<Granted>,
        writer: u32,
        page: u32,
    ) -> u64
        requires seat { place.old.table_id ≡ self.now.table.shared.table_id }
        requires named { C.turn ≡ turn self.now.layout (dirty writer page) grants }
        requires ready { IsReady self.now.layout (dirty writer page) grants place.old.me.0.cpus }
        ensures seat { (place.new.table_id ≡ place.old.table_id) × (place.new.id ≡ place.old.id) }
        ensures turned { Turned (turn self.now.layout (dirty writer page) grants) result place.old.me place.new.me }
    {
        let word = self.page_at(page);
        self.table
            .shared
            .fetch_or::<Turns<C>>(place, word, dirty_mask(page))
    }

    // Loads the page's word.
    #[inline(always)]
    pub(crate) fn look<C: Named>(
        &self,
        place: &mut Place,
        grants: Option<Granted>,
        cpu: u32,
        page: u32,
    ) -> u64
        requires seat { place.old.table_id ≡ self.now.table.shared.table_id }
        requires named { C.turn ≡ turn self.now.layout (look cpu page) grants }
        requires ready { IsReady self.now.layout (look cpu page) grants place.old.me.0.cpus }
        ensures seat { (place.new.table_id ≡ place.old.table_id) × (place.new.id ≡ place.old.id) }
        ensures turned { Turned (turn self.now.layout (look cpu page) grants) result place.old.me place.new.me }
    {
        let word = self.page_at(page);
        self.table.shared.load::<Turns<C>>(place, word)
    }

    // Takes the page from dirty to writeback where its word is still `found`, as the look right before this step found it.
    #[inline(always)]
    pub(crate) fn claim<C: Named>(
        &self,
        place: &mut Place,
        grants: Option<Granted>,
        cpu: u32,
        page: u32,
        found: u64,
    ) -> u64
        requires seat { place.old.table_id ≡ self.now.table.shared.table_id }
        requires named { C.turn ≡ turn self.now.layout (claim cpu page) grants }
        requires ready { IsReady self.now.layout (claim cpu page) grants place.old.me.0.cpus }
        requires found { Holds place.old.me.0.cpus cpu (λ r. last_found r.last ≡ found) }
        ensures seat { (place.new.table_id ≡ place.old.table_id) × (place.new.id ≡ place.old.id) }
        ensures turned { Turned (turn self.now.layout (claim cpu page) grants) result place.old.me place.new.me }
    {
        let word = self.page_at(page);
        self.table
            .shared
            .compare_exchange::<Turns<C>>(place, word, found, claimed_word(found, page))
    }

    // Takes the page's writeback bit.
    #[inline(always)]
    pub(crate) fn complete<C: Named>(
        &self,
        place: &mut Place,
        grants: Option<Granted>,
        cpu: u32,
        page: u32,
    ) -> u64
        requires seat { place.old.table_id ≡ self.now.table.shared.table_id }
        requires named { C.turn ≡ turn self.now.layout (complete cpu page) grants }
        requires ready { IsReady self.now.layout (complete cpu page) grants place.old.me.0.cpus }
        ensures seat { (place.new.table_id ≡ place.old.table_id) × (place.new.id ≡ place.old.id) }
        ensures turned { Turned (turn self.now.layout (complete cpu page) grants) result place.old.me place.new.me }
    {
        let word = self.page_at(page);
        self.table
            .shared
            .fetch_and::<Turns<C>>(place, word, !writeback_mask(page))
    }

    // Takes the page's writeback bit and sets its dirty bit where its word is still `found`, as the look right before this step found it.
    #[inline(always)]
    pub(crate) fn back<C: Named>(
        &self,
        place: &mut Place,
        grants: Option<Granted>,
        cpu: u32,
        page: u32,
        found: u64,
    ) -> u64
        requires seat { place.old.table_id ≡ self.now.table.shared.table_id }
        requires named { C.turn ≡ turn self.now.layout (back cpu page) grants }
        requires ready { IsReady self.now.layout (back cpu page) grants place.old.me.0.cpus }
        requires found { Holds place.old.me.0.cpus cpu (λ r. last_found r.last ≡ found) }
        ensures seat { (place.new.table_id ≡ place.old.table_id) × (place.new.id ≡ place.old.id) }
        ensures turned { Turned (turn self.now.layout (back cpu page) grants) result place.old.me place.new.me }
    {
        let word = self.page_at(page);
        self.table
            .shared
            .compare_exchange::<Turns<C>>(place, word, found, back_word(found, page))
    }
}
