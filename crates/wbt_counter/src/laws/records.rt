//! What the CPUs' records tell of a counter: its versions, its sums, and each CPU's own number.

ghost use Rattle.wbt_counter.specs.RecordLaws.{FoldsAreAll, SumsAreRecorded, OwnIsTold, EventsAreUnits};

/// All CPUs' folds of a counter are as many as its history.
pub fn folds_are_all()
    ensures { FoldsAreAll }
{}

/// The sum at a version is that of all recorded folds up to it.
pub fn sums_are_recorded()
    ensures { SumsAreRecorded }
{}

/// A CPU's own number is the one that its record tells.
pub fn own_is_told()
    ensures { OwnIsTold }
{}

/// An event that is owed is of one page.
pub fn events_are_units()
    ensures { EventsAreUnits }
{}
