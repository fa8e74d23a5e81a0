//! Laws of rows and tallies. Each function proves what its contract says, and does nothing.

ghost use Rattle.wbt_forecast_rows.specs.Laws.{IntervalsAddUp, RowsAreTold, RunsSumUp, TalliesBegin, TalliesBeginAgain, TalliesGoOn, TotalsGoOn};

/// What is counted of two intervals, one after the other, is counted of both together: dirtied and written pages of each context, and pages,
/// checks, pauses and their ticks of each task.
pub fn intervals_add_up()
    ensures { IntervalsAddUp }
{}

/// The sums over all intervals of a run are those of the whole run.
pub fn runs_sum_up()
    ensures { RunsSumUp }
{}

/// The row that is made of an interval's tallies is the interval's row.
pub fn rows_are_told()
    ensures { RowsAreTold }
{}

/// An interval's tallies go on from those of an earlier state by what happened since.
pub fn tallies_go_on()
    ensures { TalliesGoOn }
{}

/// The next interval's tallies begin with the last one's, cleared, where no page has changed since.
pub fn tallies_begin_again()
    ensures { TalliesBeginAgain }
{}

/// The first interval's tallies begin with nothing where no page is dirty.
pub fn tallies_begin()
    ensures { TalliesBegin }
{}

/// A run's sums go on from those of an earlier state.
pub fn totals_go_on()
    ensures { TotalsGoOn }
{}
