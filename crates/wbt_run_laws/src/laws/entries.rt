//! Single steps, entries and calls, as a turn takes them one after another.

ghost use Rattle.wbt_run_laws.specs.Calls.{LooksAddNone, AddIsNoted, ReadMayBeKept, BeginIsNoted, ReadTellsNothing, PublishIsTold, ReadIsNewest};
ghost use Rattle.wbt_run_laws.specs.Entries.{RecordBecomes, WriteIsNext, OthersWriteNone, CheckNamesSeen, OthersNameNone, CheckReadsKept, OthersReadNone};

/// Where a CPU may make a step, its record becomes what the step's kind makes of it.
pub fn record_becomes()
    ensures { RecordBecomes }
{}

/// A write of a task's next page, and any other entry, along the walk of pages.
pub fn entries_write_next()
    ensures write { WriteIsNext }
    ensures others { OthersWriteNone }
{}

/// A check that names what its pass has seen and reads what is kept, and any other entry, along the walks of names and periods.
pub fn entries_stay_new()
    ensures names { CheckNamesSeen }
    ensures others_name_none { OthersNameNone }
    ensures reads { CheckReadsKept }
    ensures others_read_none { OthersReadNone }
{}

/// What each call on shares notes.
pub fn share_calls_are_noted()
    ensures looks { LooksAddNone }
    ensures add { AddIsNoted }
    ensures read { ReadMayBeKept }
    ensures begins { BeginIsNoted }
{}

/// What each call on estimates notes.
pub fn estimate_calls_are_noted()
    ensures read { ReadTellsNothing }
    ensures publish { PublishIsTold }
    ensures newest { ReadIsNewest }
{}
