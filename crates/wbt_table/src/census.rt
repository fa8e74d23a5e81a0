//! What a throttle leaves.

ghost use Rattle.std.specs.Prelude.{◌≡◌, ◌<◌, ◌↔◌, IsTrue};
ghost use Rattle.wbt_counter.specs.Account.{amount, to_clear};
ghost use Rattle.wbt_counter.specs.Addends.{local_in};
ghost use Rattle.wbt_counter.specs.Counters.{debt_to};
ghost use Rattle.wbt_book.specs.Book.{page_word};
ghost use Rattle.wbt_book.specs.PageWords as page_words;
ghost use Rattle.wbt_book.specs.PageWords.{bits_at};
ghost use Rattle.wbt_table.specs.Layout as layout;
ghost use Rattle.wbt_table.specs.Layout.{setting, HasCounter};
ghost use Rattle.wbt_table.specs.Seat.{IsAt, debt_of, debts_in};
ghost use Rattle.wbt_table.specs.Calls as calls;
ghost use Rattle.wbt_table.specs.Calls.{HoldsAll};
ghost use Rattle.wbt_table.specs.Census.{Closes, word_at, debt_at};

use crate::seat::{CpuSeat, Throttle};
use crate::state::{CpuState, Due, Slot};
use crate::words::{Offsets, Words};
use atomic_table::Closed;
use std::alloc::Global;
use std::marker::Model;
use wbt_book::{bits_of, spot_of};
use wbt_counter::{Count, Counter, count_of, local_of, version_of};

/// What a CPU still owes to a counter.
#[derive(Clone, Copy, Debug, PartialEq, Eq)]
pub struct Owed {
    /// The event, 1 or -1, that isn't in its own number yet, else 0.
    pub event: i64,
    /// The number that it has folded and not cleared, else 0.
    pub clear: i64,
}

/// The words as they were last, and what the CPUs owe.
pub struct Census {
    closed: Closed<(), Global>,
    layout: crate::layout::Layout,
    offsets: Offsets,
    cpus: Vec<Option<CpuState>>,
}

impl Model for Census {
    ghost use Rattle.std.specs.Prelude.{◌≡◌, length};
    ghost use Rattle.std.specs.Slots.{slots_items, slots_len, IsFull};
    ghost use Rattle.wbt_table.specs.Census.{Counted, OwnFits};
    ghost use Rattle.wbt_table.specs.Layout.{offsets as offsets_of, width};

    ghost Value = { Counted };

    ghost view = { λ s. record { layout = s.layout; words = slots_items s.closed.words; states = s.cpus.items } };

    ghost invariant = { λ s. IsFull s.closed.words × (slots_len s.closed.slots ≡ 0) × (s.offsets ≡ offsets_of s.layout) × (length (slots_items s.closed.words) ≡ width s.layout) × (length s.cpus.items ≡ s.layout.cpus) × OwnFits s.layout (slots_items s.closed.words) };
}

impl Throttle {
    /// Whether a seat of the throttle holds all CPUs and the timer, as who closes it must.
    ///
    /// Requires: a seat of this throttle.
    pub fn holds_all(&self, seat: &CpuSeat) -> bool
        requires { IsAt self.now seat.now }
        ensures { IsTrue result ↔ HoldsAll seat.now }
    {
        for cpu in 0..self.words.layout.cpus {
            if !seat.holds(cpu) {
                return false;
            }
        }
        seat.timer.is_some()
    }

    /// Ends the throttle. The seat holds all CPUs and the timer.
    ///
    /// Requires: a seat of this throttle that holds every CPU and the timer (`holds_all`): all seats have been joined.
    pub fn close(self, seat: CpuSeat) -> Census
        requires seat { IsAt self seat }
        requires all { HoldsAll seat }
        ensures { Closes seat result }
    {
        let Throttle { words } = self;
        let CpuSeat {
            mut place,
            cpus,
            lefts: _,
            held: _,
            timer: _,
        } = seat;
        for i in 0..cpus.len() {
            if let Some(state) = cpus[i] {
                words.give(&mut place, state.grants, i as u32);
            }
        }
        let Words {
            table,
            layout,
            offsets,
            batches: _,
        } = words;
        Census {
            closed: table.close_with(place),
            layout,
            offsets,
            cpus,
        }
    }
}

impl Census {
    /// The two bits of a page: bit 0 is dirty, bit 1 is writeback.
    ///
    /// Requires: the page exists.
    pub fn page(&self, page: u32) -> u64
        requires there { page < (setting self.now.layout).pages }
        ensures value { result ≡ page_words.bits_of (word_at self.now (layout.page_at page)) page }
        ensures bits { result ≡ page_word (bits_at (word_at self.now (layout.page_at page)) page) }
    {
        bits_of(self.closed.word(1 + spot_of(page).word as usize), page)
    }

    /// The version and the count in a counter's shared word.
    ///
    /// Requires: the counter is that of a domain or a context that exists.
    pub fn shared(&self, counter: Counter) -> Count
        requires there { HasCounter self.now.layout counter }
        ensures { result ≡ calls.count_of (word_at self.now (layout.shared_at self.now.layout counter)) }
    {
        let word = self.closed.word(self.offsets.shared + self.number(counter));
        Count {
            version: version_of(word),
            value: count_of(word),
        }
    }

    /// A CPU's own number of a counter, in pages.
    ///
    /// Requires: the CPU exists, and the counter is that of a domain or a context that exists.
    pub fn local(&self, cpu: u32, counter: Counter) -> i64
        requires there { HasCounter self.now.layout counter }
        requires cpu { cpu < self.now.layout.cpus }
        ensures { result ≡ local_in (word_at self.now (layout.own_at self.now.layout counter cpu)) }
    {
        let at = self.offsets.own + (cpu as usize * self.offsets.stride + self.number(counter));
        local_of(self.closed.word(at))
    }

    /// What a CPU still owes to a counter. A counter's exact count is its shared value and, over all CPUs, `local` plus `event`
    /// less `clear`.
    ///
    /// Requires: the CPU exists.
    pub fn owed(&self, cpu: u32, counter: Counter) -> Owed
        requires cpu { cpu < self.now.layout.cpus }
        ensures event { result.event ≡ amount (debt_at self.now cpu counter) }
        ensures clear { result.clear ≡ to_clear (debt_at self.now cpu counter) }
    {
        match self.cpus[cpu as usize] {
            Some(state) => owed_in(state, counter),
            None => NOTHING,
        }
    }

    // The number of a counter.
    fn number(&self, counter: Counter) -> usize
        requires there { HasCounter self.now.layout counter }
        ensures { result ≡ layout.number self.now.layout counter }
    {
        match counter {
            Counter::Domain(domain) => domain as usize,
            Counter::Context(context) => self.offsets.domains + context as usize,
        }
    }
}

const NOTHING: Owed = Owed { event: 0, clear: 0 };

// What a CPU owes to a counter: the first of its debts that is one to it.
fn owed_in(state: CpuState, counter: Counter) -> Owed
    ensures event { result.event ≡ amount (debt_to counter (debts_in state)) }
    ensures clear { result.clear ≡ to_clear (debt_to counter (debts_in state)) }
{
    if let Some(due) = state.first {
        if state.counter_in(Slot::First) == counter {
            return owed_as(due);
        }
    }
    if let Some(due) = state.second {
        if state.counter_in(Slot::Second) == counter {
            return owed_as(due);
        }
    }
    if let Some(due) = state.third {
        if state.counter_in(Slot::Third) == counter {
            return owed_as(due);
        }
    }
    NOTHING
}

fn owed_as(due: Due) -> Owed
    ensures event { result.event ≡ amount (debt_of due) }
    ensures clear { result.clear ≡ to_clear (debt_of due) }
{
    match due {
        Due::Event(event) => Owed { event, clear: 0 },
        Due::Fold(_delta) => NOTHING,
        Due::Clear(folded) => Owed {
            event: 0,
            clear: folded,
        },
    }
}

impl Drop for Census {
    fn drop(self) {
        let Self {
            closed,
            layout: _,
            offsets: _,
            cpus: _,
        } = self;
        closed.free();
    }
}
