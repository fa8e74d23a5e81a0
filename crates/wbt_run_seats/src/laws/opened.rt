//! What a trace gives its kit at the opening.

ghost use Rattle.wbt_run_seats.specs.Opened.{KitIsOpened, PlanSuits, FirstCanSplit, PartIsFirst, FlusherFits, FlusherHasRooms, LeftIsFirst, TimerOpens};

/// The kit of a trace has what the trace names, in its order, and begins as the timer's first lines tell.
pub fn kit_is_opened()
    ensures { KitIsOpened }
{}

/// What each flusher knows of the trace suits the kit.
pub fn plan_suits()
    ensures { PlanSuits }
{}

/// The first seats can be split for each CPU. A CPU's part has done, noted and read nothing, and publishes for its own contexts; what
/// is left has the timer, which did nothing.
pub fn parts_are_first()
    ensures splits { FirstCanSplit }
    ensures part { PartIsFirst }
    ensures left { LeftIsFirst }
{}

/// A flusher fits its CPU's part, and has rooms there.
pub fn flusher_fits()
    ensures fits { FlusherFits }
    ensures rooms { FlusherHasRooms }
{}

/// A run whose timer begins with what is left opens its timer.
pub fn timer_opens()
    ensures { TimerOpens }
{}
