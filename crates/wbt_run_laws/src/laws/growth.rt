//! How a record and a log grow by steps and by entries.

ghost use Rattle.wbt_run_laws.specs.Grew.{GrewByNothing, GrewByBoth, GrewIsFresh, GrewServesOnce};
ghost use Rattle.wbt_run_laws.specs.Held.{HeldOne, HeldMore, CheckTellsHeld, OthersTellNone, HeldWereLoaded, HeldStayNew};
ghost use Rattle.wbt_run_laws.specs.Log.{LoggedNothing, LoggedBoth, LoggedEntry, LoggedCheck, LoggedEstimate};
ghost use Rattle.wbt_run_laws.specs.Steps.{GatheredMore, UntoldGrows, CheckGrows, StepsGrow};

/// A turn without entries leaves its record, and growth over two turns is growth over both. In a part that grew from the opening
/// no count is older than what its CPU had seen. What checks tell of counts was loaded as often as they tell it, so no load serves two
/// checks.
pub fn growth_composes()
    ensures nothing { GrewByNothing }
    ensures both { GrewByBoth }
    ensures fresh { GrewIsFresh }
    ensures serves_once { GrewServesOnce }
{}

/// Each kind of step is growth by its entry, or is gathered.
pub fn each_step_grows()
    ensures { StepsGrow }
{}

/// Loads are gathered one after another, until a check's entry names them or none does.
pub fn loads_are_gathered()
    ensures more { GatheredMore }
    ensures untold { UntoldGrows }
    ensures check { CheckGrows }
{}

/// Checks tell limits that were held, one after another: the newest that were loaded, or the first ones. So where no load went back to an
/// older version, no check does.
pub fn limits_were_held()
    ensures one { HeldOne }
    ensures more { HeldMore }
    ensures check { CheckTellsHeld }
    ensures others { OthersTellNone }
    ensures loaded { HeldWereLoaded }
    ensures stay_new { HeldStayNew }
{}

/// A log tells what is added to it, and its checks and estimates stay named in order.
pub fn log_tells_more()
    ensures nothing { LoggedNothing }
    ensures both { LoggedBoth }
    ensures entry { LoggedEntry }
    ensures check { LoggedCheck }
    ensures estimate { LoggedEstimate }
{}
