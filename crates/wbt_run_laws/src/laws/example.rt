//! Two small runs, worked out: what is asked of a run can be met.

ghost use Rattle.wbt_run_laws.specs.EightPages.{EightPagesAreWorked};
ghost use Rattle.wbt_run_laws.specs.OnePage.{OnePageIsWorked};

/// A page of one CPU is written and checked, another gives it back as its disk fails, and then cleans it, and the timer takes a turn: all that is asked
/// is known.
pub fn one_page_is_worked()
    ensures { OnePageIsWorked }
{}

/// One CPU writes eight pages, folds, is checked and halted, by the limits that it held, as the timer was stopped while it published others:
/// all that is asked is known.
pub fn eight_pages_are_worked()
    ensures { EightPagesAreWorked }
{}
