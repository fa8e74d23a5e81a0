//! The steps on limits and peaks. The answer of each is the word as it was.

ghost use Rattle.std.specs.Prelude.{◌≡◌, ◌<◌, ◌^◌, suc, false, Some, None};
ghost use Rattle.wbt_num.specs.Limits.{IsLawful};
ghost use Rattle.wbt_grant.specs.Kinds.{peak, unseal, thresh, publish, first, middle, limits, MayPublish};
ghost use Rattle.wbt_grant.specs.Seats.{is_timer};
ghost use Rattle.wbt_grant.specs.State.{sequence_of};
ghost use Rattle.wbt_table.specs.Layout.{domains};
ghost use Rattle.wbt_table.specs.Rule.{Turned, Ticked};
ghost use Rattle.wbt_table.specs.Steps.{turn, IsReady, IsTimerReady};

use crate::rule::{Granted, Named, Ticks, Turns};
use crate::words::{Place, Words};
use wbt_grant::Who;
use wbt_limits::{pack_hard, pack_thresh};
use wbt_num::Limits;

// One more in the sequence of a sequence word.
const ONE_SEQUENCE: u64 = 4294967296;

impl Words {
    // Loads the sequence word of a domain.
    pub(crate) fn first<C: Named>(
        &self,
        place: &mut Place,
        grants: Option<Granted>,
        cpu: u32,
        domain: u32,
    ) -> u64
        requires seat { place.old.table_id ≡ self.now.table.shared.table_id }
        requires named { C.turn ≡ turn self.now.layout (first cpu domain) grants }
        requires there { domain < domains self.now.layout }
        requires ready { IsReady self.now.layout (first cpu domain) grants place.old.me.0.cpus }
        ensures seat { (place.new.table_id ≡ place.old.table_id) × (place.new.id ≡ place.old.id) }
        ensures turned { Turned (turn self.now.layout (first cpu domain) grants) result place.old.me place.new.me }
    {
        let word = self.sequence_at(domain);
        self.table.shared.load::<Turns<C>>(place, word)
    }

    // Loads the thresh word of a domain.
    pub(crate) fn middle<C: Named>(
        &self,
        place: &mut Place,
        grants: Option<Granted>,
        cpu: u32,
        domain: u32,
    ) -> u64
        requires seat { place.old.table_id ≡ self.now.table.shared.table_id }
        requires named { C.turn ≡ turn self.now.layout (middle cpu domain) grants }
        requires there { domain < domains self.now.layout }
        requires ready { IsReady self.now.layout (middle cpu domain) grants place.old.me.0.cpus }
        ensures seat { (place.new.table_id ≡ place.old.table_id) × (place.new.id ≡ place.old.id) }
        ensures turned { Turned (turn self.now.layout (middle cpu domain) grants) result place.old.me place.new.me }
    {
        let word = self.thresh_at(domain);
        self.table.shared.load::<Turns<C>>(place, word)
    }

    // Loads the sequence word again, for a writer or a CPU.
    pub(crate) fn limits<C: Named>(
        &self,
        place: &mut Place,
        grants: Option<Granted>,
        who: Who,
        domain: u32,
    ) -> u64
        requires seat { place.old.table_id ≡ self.now.table.shared.table_id }
        requires named { C.turn ≡ turn self.now.layout (limits who domain) grants }
        requires by_cpu { is_timer who ≡ false }
        requires there { domain < domains self.now.layout }
        requires ready { IsReady self.now.layout (limits who domain) grants place.old.me.0.cpus }
        ensures seat { (place.new.table_id ≡ place.old.table_id) × (place.new.id ≡ place.old.id) }
        ensures turned { Turned (turn self.now.layout (limits who domain) grants) result place.old.me place.new.me }
    {
        let word = self.sequence_at(domain);
        self.table.shared.load::<Turns<C>>(place, word)
    }

    // Raises the peak of a domain.
    pub(crate) fn raise<C: Named>(&self, place: &mut Place, domain: u32, hard: u64) -> u64
        requires seat { place.old.table_id ≡ self.now.table.shared.table_id }
        requires named { C.turn ≡ turn self.now.layout (peak domain hard) None }
        requires there { domain < domains self.now.layout }
        requires ready { IsTimerReady self.now.layout (peak domain hard) place.old.me.0.timer }
        ensures seat { (place.new.table_id ≡ place.old.table_id) × (place.new.id ≡ place.old.id) }
        ensures ticked { Ticked (turn self.now.layout (peak domain hard) None) result place.old.me place.new.me }
    {
        let word = self.peak_at(domain);
        self.table.shared.fetch_max::<Ticks<C>>(place, word, hard)
    }

    // Makes the sequence of a domain odd.
    pub(crate) fn unseal<C: Named>(&self, place: &mut Place, domain: u32) -> u64
        requires seat { place.old.table_id ≡ self.now.table.shared.table_id }
        requires named { C.turn ≡ turn self.now.layout (unseal domain) None }
        requires there { domain < domains self.now.layout }
        requires ready { IsTimerReady self.now.layout (unseal domain) place.old.me.0.timer }
        ensures seat { (place.new.table_id ≡ place.old.table_id) × (place.new.id ≡ place.old.id) }
        ensures ticked { Ticked (turn self.now.layout (unseal domain) None) result place.old.me place.new.me }
    {
        let word = self.sequence_at(domain);
        self.table
            .shared
            .fetch_add::<Ticks<C>>(place, word, ONE_SEQUENCE)
    }

    // Takes limits in hand: their thresh word is written.
    pub(crate) fn thresh<C: Named>(&self, place: &mut Place, domain: u32, triple: Limits) -> u64
        requires seat { place.old.table_id ≡ self.now.table.shared.table_id }
        requires named { C.turn ≡ turn self.now.layout (thresh domain triple) None }
        requires there { domain < domains self.now.layout }
        requires lawful { IsLawful triple }
        requires ready { IsTimerReady self.now.layout (thresh domain triple) place.old.me.0.timer }
        ensures seat { (place.new.table_id ≡ place.old.table_id) × (place.new.id ≡ place.old.id) }
        ensures ticked { Ticked (turn self.now.layout (thresh domain triple) None) result place.old.me place.new.me }
    {
        let word = self.thresh_at(domain);
        self.table
            .shared
            .swap::<Ticks<C>>(place, word, pack_thresh(&triple))
    }

    // Publishes the limits in hand under the next sequence.
    pub(crate) fn publish<C: Named>(
        &self,
        place: &mut Place,
        domain: u32,
        sequence: u64,
        triple: Limits,
    ) -> u64
        requires seat { place.old.table_id ≡ self.now.table.shared.table_id }
        requires named { C.turn ≡ turn self.now.layout (publish domain triple) None }
        requires there { domain < domains self.now.layout }
        requires in_range { sequence < 2 ^ 32 }
        requires lawful { IsLawful triple }
        requires ready { (r : _) × (place.old.me.0.timer ≡ Some r) × MayPublish domain triple r × (sequence ≡ suc (sequence_of r domain)) }
        ensures seat { (place.new.table_id ≡ place.old.table_id) × (place.new.id ≡ place.old.id) }
        ensures ticked { Ticked (turn self.now.layout (publish domain triple) None) result place.old.me place.new.me }
    {
        let word = self.sequence_at(domain);
        self.table
            .shared
            .swap::<Ticks<C>>(place, word, pack_hard(sequence, triple.hard))
    }
}
