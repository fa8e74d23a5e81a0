//! Laws of decisions. Each function proves what its contract says, and does nothing.

ghost use Rattle.wbt_pause.specs.Laws.{CalmGoesOn, CountsNoMore, CutPauseMovesOn, FreeChecksWithinRoot, GrantedUnlessWaiting, LeavesWithinCap, LongestWithin200, OtherPausesEnd, PausesWithinLongest, WaitingHasNone, WaitsExactly};

/// No decision makes a writer pause longer than the longest pause of its context.
pub fn pauses_within_longest()
    ensures { PausesWithinLongest }
{}

/// No longest pause is longer than 200 ticks.
pub fn longest_within_200()
    ensures { LongestWithin200 }
{}

/// Where no domain is above its freerun the writer goes on at once, with a page at least.
pub fn calm_goes_on()
    ensures { CalmGoesOn }
{}

/// Whoever doesn't wait may be granted pages on the reads of its decision, 1 to cap of them.
pub fn granted_unless_waiting()
    ensures { GrantedUnlessWaiting }
{}

/// A writer waits exactly where it has to.
pub fn waits_exactly()
    ensures { WaitsExactly }
{}

/// A writer that waits has no page left.
pub fn waiting_has_none()
    ensures { WaitingHasNone }
{}

/// Whatever is decided, at most cap pages are left, and one at least to whoever doesn't wait.
pub fn leaves_within_cap()
    ensures { LeavesWithinCap }
{}

/// Whatever is decided, the writer counts no more pages than before.
pub fn counts_no_more()
    ensures { CountsNoMore }
{}

/// A free writer checks again after one page, or after so many that their square is free below each domain's threshold.
pub fn free_checks_within_root()
    ensures { FreeChecksWithinRoot }
{}

/// Where a pause is cut, what is left over moves on the moment at which it counts as ended, by the longest pause at most.
pub fn cut_pause_moves_on()
    ensures { CutPauseMovesOn }
{}

/// Any pause of a writer that is free, exempt or waits counts as ended when it ends.
pub fn other_pauses_end()
    ensures { OtherPausesEnd }
{}
