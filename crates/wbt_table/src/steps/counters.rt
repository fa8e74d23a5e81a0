//! The steps on counters. The answer of each is the word as it was.

ghost use Rattle.std.specs.Prelude.{◌≡◌, false, ◌<◌};
ghost use Rattle.wbt_counter.specs.Account.{amount, to_clear};
ghost use Rattle.wbt_counter.specs.Counters.{debt_to};
ghost use Rattle.wbt_counter.specs.Word.{IsPackable};
ghost use Rattle.wbt_grant.specs.Kinds.{add, fold, clear, count};
ghost use Rattle.wbt_grant.specs.Seats.{is_timer, own_told};
ghost use Rattle.wbt_table.specs.Layout.{HasCounter, setting};
ghost use Rattle.wbt_table.specs.Rule.{Turned, Ticked, Holds};
ghost use Rattle.wbt_table.specs.Steps.{turn, IsReady, IsTimerReady};
ghost use Rattle.std.specs.Prelude.{None};
ghost use Rattle.wbt_grant.specs.declared.who.Who.TheVariants.{Timer};

use crate::rule::{Granted, Named, Ticks, Turns};
use crate::words::{Place, Words};
use wbt_counter::{Counter, addend_of, fold_addend};
use wbt_grant::Who;

impl Words {
    // The CPU's own word takes the event that is owed.
    #[inline(always)]
    pub(crate) fn add<C: Named>(
        &self,
        place: &mut Place,
        grants: Option<Granted>,
        cpu: u32,
        counter: Counter,
        event: i64,
    ) -> u64
        requires seat { place.old.table_id ≡ self.now.table.shared.table_id }
        requires named { C.turn ≡ turn self.now.layout (add cpu counter) grants }
        requires there { HasCounter self.now.layout counter }
        requires ready { IsReady self.now.layout (add cpu counter) grants place.old.me.0.cpus }
        requires event { Holds place.old.me.0.cpus cpu (λ r. amount (debt_to counter r.debts) ≡ event) }
        ensures seat { (place.new.table_id ≡ place.old.table_id) × (place.new.id ≡ place.old.id) }
        ensures turned { Turned (turn self.now.layout (add cpu counter) grants) result place.old.me place.new.me }
    {
        let word = self.own_at(counter, cpu);
        self.table
            .shared
            .fetch_add::<Turns<C>>(place, word, addend_of(event))
    }

    // The shared word takes a version and the CPU's own number.
    pub(crate) fn fold<C: Named>(
        &self,
        place: &mut Place,
        grants: Option<Granted>,
        cpu: u32,
        counter: Counter,
        delta: i64,
    ) -> u64
        requires seat { place.old.table_id ≡ self.now.table.shared.table_id }
        requires named { C.turn ≡ turn self.now.layout (fold cpu counter) grants }
        requires there { HasCounter self.now.layout counter }
        requires ready { IsReady self.now.layout (fold cpu counter) grants place.old.me.0.cpus }
        requires few_pages { IsPackable delta }
        requires delta { Holds place.old.me.0.cpus cpu (λ r. own_told (setting self.now.layout) counter r ≡ delta) }
        ensures seat { (place.new.table_id ≡ place.old.table_id) × (place.new.id ≡ place.old.id) }
        ensures turned { Turned (turn self.now.layout (fold cpu counter) grants) result place.old.me place.new.me }
    {
        let word = self.shared_at(counter);
        self.table
            .shared
            .fetch_add::<Turns<C>>(place, word, fold_addend(delta))
    }

    // The CPU's own word gives up the number that was folded.
    pub(crate) fn clear<C: Named>(
        &self,
        place: &mut Place,
        grants: Option<Granted>,
        cpu: u32,
        counter: Counter,
        folded: i64,
    ) -> u64
        requires seat { place.old.table_id ≡ self.now.table.shared.table_id }
        requires named { C.turn ≡ turn self.now.layout (clear cpu counter) grants }
        requires there { HasCounter self.now.layout counter }
        requires ready { IsReady self.now.layout (clear cpu counter) grants place.old.me.0.cpus }
        requires folded { Holds place.old.me.0.cpus cpu (λ r. to_clear (debt_to counter r.debts) ≡ folded) }
        ensures seat { (place.new.table_id ≡ place.old.table_id) × (place.new.id ≡ place.old.id) }
        ensures turned { Turned (turn self.now.layout (clear cpu counter) grants) result place.old.me place.new.me }
    {
        let word = self.own_at(counter, cpu);
        self.table
            .shared
            .fetch_sub::<Turns<C>>(place, word, addend_of(folded))
    }

    // Loads the shared word, for a writer or a CPU.
    pub(crate) fn count<C: Named>(
        &self,
        place: &mut Place,
        grants: Option<Granted>,
        who: Who,
        counter: Counter,
    ) -> u64
        requires seat { place.old.table_id ≡ self.now.table.shared.table_id }
        requires named { C.turn ≡ turn self.now.layout (count who counter) grants }
        requires by_cpu { is_timer who ≡ false }
        requires there { HasCounter self.now.layout counter }
        requires ready { IsReady self.now.layout (count who counter) grants place.old.me.0.cpus }
        ensures seat { (place.new.table_id ≡ place.old.table_id) × (place.new.id ≡ place.old.id) }
        ensures turned { Turned (turn self.now.layout (count who counter) grants) result place.old.me place.new.me }
    {
        let word = self.shared_at(counter);
        self.table.shared.load::<Turns<C>>(place, word)
    }

    // Loads the shared word, for the timer.
    pub(crate) fn timer_count<C: Named>(&self, place: &mut Place, counter: Counter) -> u64
        requires seat { place.old.table_id ≡ self.now.table.shared.table_id }
        requires named { C.turn ≡ turn self.now.layout (count Timer counter) None }
        requires there { HasCounter self.now.layout counter }
        requires ready { IsTimerReady self.now.layout (count Timer counter) place.old.me.0.timer }
        ensures seat { (place.new.table_id ≡ place.old.table_id) × (place.new.id ≡ place.old.id) }
        ensures ticked { Ticked (turn self.now.layout (count Timer counter) None) result place.old.me place.new.me }
    {
        let word = self.shared_at(counter);
        self.table.shared.load::<Ticks<C>>(place, word)
    }
}
