//! The steps on the marks of inodes. The answer of each is the word as it was.

ghost use Rattle.std.specs.Prelude.{◌≡◌, ◌<◌, length};
ghost use Rattle.wbt_grant.specs.Kinds.{mark, unmark};
ghost use Rattle.wbt_table.specs.Rule.{Turned};
ghost use Rattle.wbt_table.specs.Steps.{turn, IsReady};

use crate::rule::{Granted, Named, Turns};
use crate::words::{Place, Words};

impl Words {
    // Sets the inode's mark.
    pub(crate) fn mark<C: Named>(
        &self,
        place: &mut Place,
        grants: Option<Granted>,
        cpu: u32,
        inode: u32,
    ) -> u64
        requires seat { place.old.table_id ≡ self.now.table.shared.table_id }
        requires named { C.turn ≡ turn self.now.layout (mark cpu inode) grants }
        requires there { inode < length self.now.layout.inodes }
        requires ready { IsReady self.now.layout (mark cpu inode) grants place.old.me.0.cpus }
        ensures seat { (place.new.table_id ≡ place.old.table_id) × (place.new.id ≡ place.old.id) }
        ensures turned { Turned (turn self.now.layout (mark cpu inode) grants) result place.old.me place.new.me }
    {
        let word = self.mark_at(inode);
        self.table.shared.fetch_or::<Turns<C>>(place, word, 1)
    }

    // Clears it.
    pub(crate) fn unmark<C: Named>(
        &self,
        place: &mut Place,
        grants: Option<Granted>,
        cpu: u32,
        inode: u32,
    ) -> u64
        requires seat { place.old.table_id ≡ self.now.table.shared.table_id }
        requires named { C.turn ≡ turn self.now.layout (unmark cpu inode) grants }
        requires there { inode < length self.now.layout.inodes }
        requires ready { IsReady self.now.layout (unmark cpu inode) grants place.old.me.0.cpus }
        ensures seat { (place.new.table_id ≡ place.old.table_id) × (place.new.id ≡ place.old.id) }
        ensures turned { Turned (turn self.now.layout (unmark cpu inode) grants) result place.old.me place.new.me }
    {
        let word = self.mark_at(inode);
        self.table.shared.fetch_and::<Turns<C>>(place, word, !1)
    }
}
