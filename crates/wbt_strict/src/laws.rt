//! The laws. Each function's contract is a law that holds of all values; calling it does nothing.

ghost use Rattle.wbt_strict.specs.Deciding.{FreerOnlyOnItsOwn, GrantsOnSmall, OverItsThresholdWaits, StrictAndOthers, StrictChecksWithinRoot, StrictlyFreeExactly, StrictlyWaitsExactly, WithinTheDomains};
ghost use Rattle.wbt_strict.specs.Example.{StrictGrants};
ghost use Rattle.wbt_strict.specs.Laws.{StepKeepsStrict, StrictIsBounded, StrictNeverRises, RowsOfStrictPosition};

/// Each kind of step and a grant keep the strict rule of a context for a number of pages, where each grant to a writer of the context has a
/// kept reading of the context of at most that number.
pub fn step_keeps_strict()
    ensures { StepKeepsStrict }
{}

/// From the opening, after every step of every list of steps and grants in which each grant to a writer of a context has a kept reading of it
/// of at most the greatest of its thresholds, of 8 and of the statistical error: the context has at most as many pages as its strict bound
/// says.
pub fn strict_is_bounded()
    ensures { StrictIsBounded }
{}

/// The ratio of a context of a strict device never rises with the context's pages.
pub fn strict_never_rises()
    ensures { StrictNeverRises }
{}

/// Four ratios of a context with a threshold of 1000 pages: with 7 pages, at its middle, one below its threshold, and at it.
pub fn rows_of_strict_position()
    ensures { RowsOfStrictPosition }
{}

/// In the small throttle of `wbt_grant` a grant after a reading of its context is such, with a bound of 68 pages, and one without isn't.
pub fn strict_grants()
    ensures { StrictGrants }
{}

/// A writer of a strict context is free exactly where the context has at most half of its threshold and its background threshold in every
/// domain, and no domain is above its hard limit.
pub fn strict_is_free_up_to_its_middle()
    ensures { StrictlyFreeExactly }
{}

/// A writer of a strict context waits exactly where it has to.
pub fn strict_waits_exactly()
    ensures { StrictlyWaitsExactly }
{}

/// Whoever doesn't wait is in a strict context with at most as many pages as the greatest of its thresholds, of 8 and of the statistical
/// error.
pub fn strict_grants_on_small()
    ensures { GrantsOnSmall }
{}

/// In a strict context over its threshold in any domain a writer waits, however much room the domains have, unless the context's pages are
/// few or may be all error.
pub fn over_its_threshold_waits()
    ensures { OverItsThresholdWaits }
{}

/// With 8 pages and more a strict context goes in no domain faster than the domain's pages allow.
pub fn strict_within_the_domains()
    ensures { WithinTheDomains }
{}

/// A free writer of a strict context checks again after one page, or after so many that their square is free below each of its context's
/// thresholds.
pub fn strict_checks_within_root()
    ensures { StrictChecksWithinRoot }
{}

/// A writer of a strict context is free that another wouldn't be only where some domain is above its freerun, and the context has at most
/// half of its threshold and its background threshold.
pub fn freer_only_on_its_own()
    ensures { FreerOnlyOnItsOwn }
{}

/// Neither of the two kinds of context is treated more generously at all numbers: three pairs of decisions and ratios at the same numbers.
pub fn strict_and_others()
    ensures { StrictAndOthers }
{}
