//! Laws of the notes. Each function proves what its contract says, and does nothing.

ghost use Rattle.wbt_fraction.specs.Machine.{DomainIsEager, PartIsEager};
ghost use Rattle.wbt_fraction.specs.Laws.{EventsWereAdded, OrderIsOwn, PeriodsArePast, SplitIsUndone, SplitterHasRoom, SplitterSplitsOn};

/// A period that any step found is 0, or the sum of the first few that began.
pub fn periods_are_past()
    ensures { PeriodsArePast }
{}

/// No step found more events in a word than were added to it in all, and the one that a domain begins with.
pub fn events_were_added()
    ensures { EventsWereAdded }
{}

/// Where one thread began all periods, the order of its own notes is theirs.
pub fn order_is_own()
    ensures { OrderIsOwn }
{}

/// A seat from which another was split, and into which that one is joined again, is what it was before.
pub fn split_is_undone()
    ensures { SplitIsUndone }
{}

/// A seat that can be split some times has what the next split needs.
pub fn splitter_has_room()
    ensures { SplitterHasRoom }
{}

/// After a split the seat can be split one time less than before.
pub fn splitter_splits_on()
    ensures { SplitterSplitsOn }
{}

/// The machine that halves everything at once ends with the domain's events and period.
pub fn domain_is_eager()
    ensures { DomainIsEager }
{}

/// Each part's word, brought to the domain's period, has the machine's events of the part.
pub fn part_is_eager()
    ensures { PartIsEager }
{}
