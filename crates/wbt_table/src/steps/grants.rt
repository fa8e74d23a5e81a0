//! A grant that enters the record without a step: a load of the first word, which nobody writes.

ghost use Rattle.std.specs.Prelude.{◌≡◌, None};
ghost use Rattle.wbt_grant.specs.Kinds.{grant};
ghost use Rattle.wbt_table.specs.History.{LogsGrant};
ghost use Rattle.wbt_table.specs.Layout.{setting};
ghost use Rattle.wbt_table.specs.Rule.{Turned, Has, Holds, LogChanges, given, MayGive, put_record};
ghost use Rattle.wbt_table.specs.Steps.{turn, IsReady};

use crate::rule::{Granted, Named, Turns};
use crate::words::{Place, Words};
use std::marker::Brand;

impl Words {
    // The writer's CPU has the grant in its record from now on.
    pub(crate) fn grant<C: Named>(&self, place: &mut Place, writer: u32, left: u64) -> u64
        requires seat { place.old.table_id ≡ self.now.table.shared.table_id }
        requires named { C.turn ≡ turn self.now.layout (grant writer left) None }
        requires ready { IsReady self.now.layout (grant writer left) None place.old.me.0.cpus }
        ensures seat { (place.new.table_id ≡ place.old.table_id) × (place.new.id ≡ place.old.id) }
        ensures turned { Turned (turn self.now.layout (grant writer left) None) result place.old.me place.new.me }
    {
        self.table.shared.load::<Turns<C>>(place, 0)
    }

    // The same for a grant that may be none.
    pub(crate) fn give(&self, place: &mut Place, grants: Option<Granted>, cpu: u32)
        requires seat { place.old.table_id ≡ self.now.table.shared.table_id }
        requires may { Holds place.old.me.0.cpus cpu (MayGive (setting self.now.layout) cpu grants) }
        ensures seat { (place.new.table_id ≡ place.old.table_id) × (place.new.id ≡ place.old.id) }
        ensures given { (r : _) → Has place.old.me.0.cpus cpu r → place.new.me.0.cpus ≡ put_record cpu (given grants r) place.old.me.0.cpus }
        ensures others { (place.new.me.0.layout ≡ place.old.me.0.layout) × (place.new.me.0.timer ≡ place.old.me.0.timer) × (place.new.me.1 ≡ place.old.me.1) }
        ensures logs { LogChanges cpu (LogsGrant grants) place.old.me.0.logs place.new.me.0.logs }
        ensures timer_log { place.new.me.0.timer_log ≡ place.old.me.0.timer_log }
    {
        if let Some(grant) = grants {
            self.grant::<Brand>(place, grant.writer, grant.left);
        }
    }
}
