//! Laws of thresholds. Each function proves what its contract says, and does nothing.

ghost use Rattle.wbt_limits.specs.Laws.{BackgroundFallsToHalf, BackgroundNeverFalls, CgroupAvailNeverRises, CgroupThreshIsBetween, FollowingFallsSlowly, FollowingIsHard, FollowingRisesAtOnce, FollowingStaysInRange, LimitsAreLawful, ThreshNeverFalls};

/// A domain's threshold never falls where more pages are available to it.
pub fn thresh_never_falls()
    ensures { ThreshNeverFalls }
{}

/// A cgroup's available pages never rise with the dirty pages of the whole machine.
pub fn cgroup_avail_never_rises()
    ensures { CgroupAvailNeverRises }
{}

/// So a cgroup's threshold lies between that of its file pages alone and that of all pages that may be charged to it.
pub fn cgroup_thresh_is_between()
    ensures { CgroupThreshIsBetween }
{}

/// Nor does a background threshold fall, unless what is asked for it comes up to the threshold.
pub fn background_never_falls()
    ensures { BackgroundNeverFalls }
{}

/// And even there it doesn't fall below half of what the threshold was.
pub fn background_falls_to_half()
    ensures { BackgroundFallsToHalf }
{}

/// A domain's thresholds are lawful under the greater of the threshold and a following limit in range.
pub fn limits_are_lawful()
    ensures { LimitsAreLawful }
{}

/// A limit that follows a threshold is never below it, so that it is the hard limit itself.
pub fn following_is_hard()
    ensures { FollowingIsHard }
{}

/// A limit that follows thresholds in range stays in range.
pub fn following_stays_in_range()
    ensures { FollowingStaysInRange }
{}

/// A limit below the threshold becomes the threshold at once.
pub fn following_rises_at_once()
    ensures { FollowingRisesAtOnce }
{}

/// A limit above the threshold falls by at most a 32nd of the way.
pub fn following_falls_slowly()
    ensures { FollowingFallsSlowly }
{}
