//! What the holder of a CPU's record, or of the timer's, knows of a step: where it may be made, what becomes of the record, and what
//! the number that it finds tells.

ghost use Rattle.wbt_grant.specs.SeatLaws.{MayIsKnown, TimerMayIsKnown, RecordIsKnown, TimerIsKnown, OthersStay, UntoldTellsNoMore, WordsAreRead, CountIsFresh, LimitsAreWhole, OwnIsTold, FoldsAreRecorded, ReadingsAreSums};

/// A step of a CPU may be made exactly where the CPU's record allows it.
pub fn may_is_known()
    ensures { MayIsKnown }
{}

/// A step of the timer may be made exactly where the timer's record allows it.
pub fn timer_may_is_known()
    ensures { TimerMayIsKnown }
{}

/// A step makes of its CPU's record what that record and the found number say, and leaves the timer's and the other CPUs'.
pub fn record_is_known()
    ensures { RecordIsKnown }
{}

/// A step of the timer makes of its record what that record and the found number say, and leaves the CPUs'.
pub fn timer_is_known()
    ensures { TimerIsKnown }
{}

/// Whatever the state, a step changes no record but that of its CPU or of the timer.
pub fn others_stay()
    ensures { OthersStay }
{}

/// After a step that is untold its CPU's record tells no further fold, event, page step, page found dirty, reading or limits.
pub fn untold_tells_no_more()
    ensures { UntoldTellsNoMore }
{}

/// By the rule each word tells what stands in it: version and sum, own number, sequence and published limits, a page's bits.
pub fn words_are_read()
    ensures { WordsAreRead }
{}

/// By the rule a load finds a version that is at least each one that its maker has recorded of the counter.
pub fn count_is_fresh()
    ensures { CountIsFresh }
{}

/// By the rule a load of limits that finds the sequence word as it was, under an even sequence, has read the published limits whole,
/// and no version of the domain that its CPU has loaded is after theirs.
pub fn limits_are_whole()
    ensures { LimitsAreWhole }
{}

/// By the rule a CPU's record tells its own numbers, each is at most a batch, and each event that is owed is of one page.
pub fn own_is_told()
    ensures { OwnIsTold }
{}

/// By the rule the records of all CPUs have as many folds of a counter as its history, and sum to each of its versions.
pub fn folds_are_recorded()
    ensures { FoldsAreRecorded }
{}

/// By the rule each reading that a CPU or the timer has recorded is the sum of all recorded folds up to its version.
pub fn readings_are_sums()
    ensures { ReadingsAreSums }
{}
