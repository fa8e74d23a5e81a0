//! Steps that may not be made.

ghost use Rattle.wbt_grant.specs.Refused.{TestsDecide, GrantNeedsLoads, ClaimNeedsItsLook, BackNeedsItsLook, CounterStepsAreRefused, PageStepsAreRefused, LimitStepsAreRefused, GrantsAreRefused};

/// A step that may be made passes its test, so that one that fails it may not.
pub fn tests_decide()
    ensures { TestsDecide }
{}

/// A writer that keeps no loads gets no grant.
pub fn grant_needs_loads()
    ensures { GrantNeedsLoads }
{}

/// A claim needs its look right before it: after every other step of the CPU it may not be made.
pub fn claim_needs_its_look()
    ensures { ClaimNeedsItsLook }
{}

/// So does giving a page back.
pub fn back_needs_its_look()
    ensures { BackNeedsItsLook }
{}

/// In the small throttle: additions of nothing, folds and clears that aren't due.
pub fn counter_steps_are_refused()
    ensures { CounterStepsAreRefused }
{}

/// Pages that a writer hasn't left or may not write, claims and givings back without their look, and completions and givings back of what
/// isn't held.
pub fn page_steps_are_refused()
    ensures { PageStepsAreRefused }
{}

/// Publications and loads of limits out of order, limits above the peak that was raised last, unlawful ones, and steps of CPUs and
/// writers that there aren't.
pub fn limit_steps_are_refused()
    ensures { LimitStepsAreRefused }
{}

/// Grants without loads, on loads that were used, out of order or too high, and of more than the cap.
pub fn grants_are_refused()
    ensures { GrantsAreRefused }
{}
