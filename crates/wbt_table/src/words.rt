//! The words of a throttle, and where each stands.

ghost use Rattle.std.specs.Prelude.{◌≡◌, ◌<◌, ◌≤◌, ◌^◌, ◌+◌, length};
ghost use Rattle.wbt_grant.specs.Setting as relation;
ghost use Rattle.wbt_table.specs.Layout as spec;
ghost use Rattle.wbt_table.specs.Layout.{HasCounter, width, setting};

use crate::layout::Layout;
use crate::rule::{Law, View};
use atomic_table::{Seat, Table};
use std::alloc::Global;
use wbt_book::spot_of;
use wbt_counter::Counter;

/// Words on a line of a cache, which has 64 bytes.
pub(crate) const WORDS_PER_LINE: usize = 8;

/// So many words between two parts keep them on lines apart, wherever lines begin: a table's first word may stand anywhere on one.
pub(crate) const SPARE_WORDS: usize = WORDS_PER_LINE - 1;

// Where each part of the words begins, how far a CPU's own words are from the next one's, and how many domains there are.
#[derive(Clone, Copy)]
pub(crate) struct Offsets {
    pub(crate) inodes: usize,
    pub(crate) shared: usize,
    pub(crate) own: usize,
    pub(crate) limits: usize,
    pub(crate) peaks: usize,
    pub(crate) stride: usize,
    pub(crate) domains: usize,
}

// The batches of counters.
#[derive(Clone, Copy)]
pub(crate) struct Batches {
    pub(crate) domain: u64,
    pub(crate) context: u64,
}

// The words, and what they are for.
#[derive(Drop)]
pub(crate) struct Words {
    pub(crate) table: Table<(), View, Layout, Law, Global>,
    pub(crate) layout: Layout,
    pub(crate) offsets: Offsets,
    pub(crate) batches: Batches,
    ghost key: { table.shared.key ≡ layout },
    ghost wide: { table.shared.table_id.words ≡ width layout },
    ghost bare: { table.shared.table_id.slots ≡ 0 },
    ghost placed: { offsets ≡ spec.offsets layout },
    ghost batched: { batches ≡ spec.batches layout },
    ghost few: { width layout < 2 ^ 32 },
}

// The place of a seat at them.
pub(crate) type Place = Seat<(), View>;

impl Words {
    // The batch of a counter.
    #[inline(always)]
    pub(crate) fn batch_of(&self, counter: Counter) -> u64
        ensures { result ≡ relation.batch_of (setting self.now.layout) counter }
    {
        match counter {
            Counter::Domain(_domain) => self.batches.domain,
            Counter::Context(_context) => self.batches.context,
        }
    }

    // Where a page's word stands.
    #[inline(always)]
    pub(crate) fn page_at(&self, page: u32) -> usize
        requires there { page < (setting self.now.layout).pages }
        ensures value { result ≡ spec.page_at page }
        ensures inside { result < spec.inodes_from self.now.layout }
    {
        1 + spot_of(page).word as usize
    }

    // Where an inode's mark stands.
    pub(crate) fn mark_at(&self, inode: u32) -> usize
        requires there { inode < length self.now.layout.inodes }
        ensures value { result ≡ spec.mark_at self.now.layout inode }
        ensures inside { result < spec.shared_from self.now.layout }
    {
        self.offsets.inodes + inode as usize * WORDS_PER_LINE
    }

    // The number of a counter.
    #[inline(always)]
    fn number(&self, counter: Counter) -> usize
        requires there { HasCounter self.now.layout counter }
        ensures value { result ≡ spec.number self.now.layout counter }
        ensures fits { result < spec.counters self.now.layout }
    {
        match counter {
            Counter::Domain(domain) => domain as usize,
            Counter::Context(context) => self.offsets.domains + context as usize,
        }
    }

    // Where the shared word of a counter stands.
    #[inline(always)]
    pub(crate) fn shared_at(&self, counter: Counter) -> usize
        requires there { HasCounter self.now.layout counter }
        ensures value { result ≡ spec.shared_at self.now.layout counter }
        ensures inside { result < spec.own_from self.now.layout }
    {
        self.offsets.shared + self.number(counter)
    }

    // Where a CPU's own word of a counter stands.
    #[inline(always)]
    pub(crate) fn own_at(&self, counter: Counter, cpu: u32) -> usize
        requires there { HasCounter self.now.layout counter }
        requires cpu { cpu < self.now.layout.cpus }
        ensures value { result ≡ spec.own_at self.now.layout counter cpu }
        ensures inside { result < spec.limits_from self.now.layout }
    {
        self.offsets.own + (cpu as usize * self.offsets.stride + self.number(counter))
    }

    // Where the sequence word of a domain stands.
    pub(crate) fn sequence_at(&self, domain: u32) -> usize
        requires there { domain < spec.domains self.now.layout }
        ensures value { result ≡ spec.sequence_at self.now.layout domain }
        ensures inside { result < spec.peaks_from self.now.layout }
    {
        self.offsets.limits + domain as usize
    }

    // Where the thresh word of a domain stands.
    pub(crate) fn thresh_at(&self, domain: u32) -> usize
        requires there { domain < spec.domains self.now.layout }
        ensures value { result ≡ spec.thresh_at self.now.layout domain }
        ensures inside { result < spec.peaks_from self.now.layout }
    {
        self.offsets.limits + self.offsets.domains + domain as usize
    }

    // Where the peak of a domain stands.
    pub(crate) fn peak_at(&self, domain: u32) -> usize
        requires there { domain < spec.domains self.now.layout }
        ensures value { result ≡ spec.peak_at self.now.layout domain }
        ensures inside { result < width self.now.layout }
    {
        self.offsets.peaks + domain as usize
    }
}
